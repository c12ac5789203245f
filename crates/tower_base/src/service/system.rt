//! The computer's own clock.
ghost use Rattle.std.specs.Prelude.{◌≡◌, ◌<◌, ◌^◌, ◌↔◌, IfOk, IfSome, IsSome, max};
ghost use Rattle.std.specs.Duration.{as_nanos};
ghost use Rattle.tower_base.specs.SystemClock.{SystemClockView, Read};

use crate::service::{Clock, Monotonic};
use futures::task::{Context, Poll};
use std::marker::Model;
use std::time::{Duration, Instant};
use std::{io, rt};

/// The computer's monotonic clock. A reading is the number of nanoseconds since the clock was created.
/// It takes the place of tokio's timer.
///
/// No reading is before the last one. If the clock can't be read, or is past 2^64 - 1 or before the last
/// reading, a reading repeats the last one.
#[derive(Clone, Drop)]
pub struct SystemClock<R> {
    rt: R,
    start: Instant,
    last: u64,
}

impl<R> Model for SystemClock<R> {
    ghost Value = { SystemClockView R };

    ghost view = { λ c. record { rt = c.rt; start = c.start; last = c.last } };
}

impl<R: rt::Clock + Copy> SystemClock<R> {
    /// Creates the clock. Reads the computer's clock once, and returns an error if that fails.
    pub fn new(rt: R) -> io::Result<SystemClock<R>>
        ensures { IfOk result (λ clock. (clock.rt ≡ rt) × (clock.last ≡ 0)) }
    {
        let start = Instant::now(&rt)?;
        Ok(SystemClock { rt, start, last: 0 })
    }
}

impl<R: rt::Clock + Copy> Clock for SystemClock<R> {
    ghost reading = { λ clock. clock.last };

    ghost read = { Read };

    ghost shared = { λ clock other. other ≡ clock };

    fn now(&mut self) -> u64 {
        if let Ok(elapsed) = self.start.elapsed(&self.rt) {
            if let Some(moment) = nanos_of(elapsed) {
                self.last = self.last.max(moment);
            }
        }
        self.last
    }

    fn share(&self) -> SystemClock<R> {
        SystemClock {
            rt: self.rt,
            start: self.start,
            last: self.last,
        }
    }

    // The task is polled again at once, and so is busy all the while.
    fn wake_at(&mut self, _deadline: u128, cx: &mut Context<'_>) {
        let _pending: Poll<()> = cx.yield_now();
    }
}

impl<R: rt::Clock + Copy> Monotonic for SystemClock<R> {
    ghost forward = { λ old new read. read.0 };
}

// Returns the nanoseconds of the duration, unless they are past 2^64 - 1.
fn nanos_of(elapsed: Duration) -> Option<u64>
    ensures exact { IfSome result (λ nanos. nanos ≡ as_nanos elapsed) }
    ensures fits { IsSome result ↔ (as_nanos elapsed < 2 ^ 64) }
{
    u64::try_from(elapsed.as_nanos()).ok()
}
