//! A clock that a test sets.
ghost use Rattle.std.specs.Prelude.{⊤};

use crate::log::Log;
use futures::task::{Context, Poll};
use std::cell::Cell;
use tower_base::service::Clock;

/// A share of a clock. It notes each reading, share and drop, and reads what the test has set.
pub struct Hand<'a> {
    log: &'a Log,
    moment: &'a Cell<u64>,
    last: u64,
}

impl<'a> Hand<'a> {
    pub fn new(log: &'a Log, moment: &'a Cell<u64>) -> Hand<'a> {
        Hand {
            log,
            moment,
            last: 0,
        }
    }
}

impl<'a> Drop for Hand<'a> {
    fn drop(self) {
        self.log.note("clock dropped");
        let Hand {
            log: _,
            moment: _,
            last: _,
        } = self;
    }
}

impl<'a> Clock for Hand<'a> {
    ghost reading = { λ c. c.last };

    ghost read = { λ _ _. ⊤ };

    ghost shared = { λ _ _. ⊤ };

    fn now(&mut self) -> u64 {
        let moment = self.moment.get();
        self.log.note(format_args!("clock read {moment}"));
        self.last = moment;
        moment
    }

    fn share(&self) -> Hand<'a> {
        self.log.note("clock shared");
        Hand::new(self.log, self.moment)
    }

    // The task is polled again at once.
    fn wake_at(&mut self, _deadline: u128, cx: &mut Context<'_>) {
        let _pending: Poll<()> = cx.yield_now();
    }
}
