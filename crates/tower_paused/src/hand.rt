//! A clock for tests that poll by hand.
ghost use Rattle.std.specs.Prelude.{◌≡◌, ℕ};

use futures::task::{Context, Poll};
use std::cell::Cell;
use std::marker::Model;
use tower_base::service::Clock;

/// A clock whose moment, in nanoseconds, a test sets by hand, for futures that it polls by hand, as by the
/// kit's `MockTask`. It needs no loop. Its shares show the same moment.
///
/// A task that waits for it asks to be polled again at once, since nobody else would poll it.
#[derive(Drop)]
pub struct HandClock<'a> {
    moment: &'a Cell<u64>,
    last: u64,
}

impl<'a> Model for HandClock<'a> {
    ghost Value = { ℕ };

    // The view leaves out `moment`: others set it, and the view is what was read of it.
    ghost view = { λ c. c.last };
}

impl<'a> HandClock<'a> {
    /// Creates a clock that shows what is in the cell.
    pub fn new(moment: &'a Cell<u64>) -> HandClock<'a>
        ensures { result ≡ 0 }
    {
        HandClock { moment, last: 0 }
    }
}

impl<'a> Clock for HandClock<'a> {
    ghost reading = { λ c. c };

    ghost shared = { λ c other. other ≡ c };

    fn now(&mut self) -> u64 {
        self.last = self.moment.get();
        self.last
    }

    fn share(&self) -> HandClock<'a> {
        HandClock {
            moment: self.moment,
            last: self.last,
        }
    }

    fn wake_at(&mut self, _deadline: u128, cx: &mut Context<'_>) {
        let _pending: Poll<()> = cx.yield_now();
    }
}
