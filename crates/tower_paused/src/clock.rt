//! The clock of a paused loop.
ghost use Rattle.std.specs.Prelude.{◌≡◌, ◌⊎◌, ◌<◌, ◌≤◌, ◌+◌, ◌-◌, ◌^◌, true, option_map};
ghost use Rattle.futures.specs.Poll.{OnPending};
ghost use Rattle.futures.specs.Task.{Hears as HearsSource, IsArmed, IsLent, Keeps};
ghost use Rattle.futures.specs.Task.EventLoop.Names.{key_source};
ghost use Rattle.futures.specs.Task.EventLoop.Settled.{WaitsUntil};
ghost use Rattle.tower_paused.specs.PausedClock.{PausedView, Read, Hears, WakesBy};

use crate::advance::Advance;
use crate::jumps::{END_OF_TIME, Shown};
use futures::task::{Context, Key, Poll};
use std::marker::Model;
use std::sync::Arc;
use tower_base::service::{Clock, Monotonic};

/// The clock of a `PausedLoop`, in nanoseconds since the loop was created. A task of the loop is polled
/// again at its deadline exactly.
///
/// A task that waits for it under another executor, or without memory, is polled again at once, and so is
/// busy for ever: that executor doesn't move the time. A task that is nested in a task of the loop, as in a
/// `FuturesUnordered`, waits in the loop too. A clock that outlives its loop stands still.
#[derive(Drop)]
pub struct PausedClock {
    shown: Option<Arc<Shown>>,
    last: u64,
    key: Option<Key>,
}

impl Model for PausedClock {
    ghost Value = { PausedView };

    // The view leaves out `shown`: the loop moves it, and `last` tells what was read of it.
    ghost view = { λ c. record { last = c.last; source = option_map key_source c.key } };
}

impl PausedClock {
    pub(crate) fn new(shown: Option<Arc<Shown>>) -> PausedClock
        ensures { result.last ≡ 0 }
    {
        PausedClock {
            shown,
            last: 0,
            key: None,
        }
    }

    /// Returns a future that lets so many nanoseconds pass, for a task of the loop that awaits it. Each
    /// deadline up to its end comes at its own moment, in order, and equal ones in the order in which their
    /// tasks began to wait. It is ready once that moment has come and no other task can go on. `advance(0)`
    /// lets all others run. It is the Rust's `tokio::time::advance`.
    pub fn advance(&self, by: u64) -> Advance
        ensures { self.now.last + by ≤ result.deadline }
    {
        let mut clock = self.share();
        let deadline = clock.now() as u128 + by as u128;
        Advance::new(clock, deadline)
    }

    pub(crate) fn shown(&self) -> Option<&Arc<Shown>> {
        self.shown.as_ref()
    }
}

// The task waits at the source until the moment, or for ever if that is past the end of time. It is ready if
// it can't wait there.
fn leave_at(key: &Key, moment: u128, cx: &mut Context<'_>) -> Poll<()>
    ensures timed { OnPending result ((cx.new.is_woken ≡ true) ⊎ (IsLent cx.new
        ⊎ (moment < 2 ^ 64 - 1 → WaitsUntil cx.new (key_source key.now) moment))) }
    ensures armed { OnPending result (IsArmed cx.new) }
    ensures heard { OnPending result (HearsSource cx.new (key_source key.now)) }
    ensures kept { Keeps cx.old cx.new }
{
    if moment < END_OF_TIME as u128 {
        return match cx.poll_at(key, moment as u64) {
            Poll::Pending => Poll::Pending,
            Poll::Ready(_) => Poll::Ready(()),
        };
    }
    match cx.poll_fired(key) {
        Poll::Pending => Poll::Pending,
        // A new source counts as fired.
        Poll::Ready(Ok(seen)) => cx.blocked(key, seen),
        Poll::Ready(Err(_)) => Poll::Ready(()),
    }
}

// It isn't known when `wake_at` asks for another poll, since the kit's `poll_at` doesn't bound that.
impl Clock for PausedClock {
    ghost reading = { λ c. c.last };

    ghost read = { Read };

    ghost shared = { λ c other. other.last ≡ c.last };

    ghost hears = { Hears };

    ghost wakes_by = { WakesBy };

    fn now(&mut self) -> u64 {
        if let Some(shown) = &self.shown {
            self.last = self.last.max(shown.now());
        }
        self.last
    }

    fn share(&self) -> PausedClock {
        let shown = match &self.shown {
            Some(shown) => Arc::try_clone(shown).ok(),
            None => None,
        };
        PausedClock {
            shown,
            last: self.last,
            key: None,
        }
    }

    fn wake_at(&mut self, deadline: u128, cx: &mut Context<'_>) {
        if self.key.is_none()
            && let Some(shown) = &self.shown
        {
            self.key = shown.keys.issue().ok();
        }
        let left = match &self.key {
            Some(key) => leave_at(key, deadline, cx),
            None => Poll::Ready(()),
        };
        if left.is_ready() {
            let _pending: Poll<()> = cx.yield_now();
        }
    }
}

impl Monotonic for PausedClock {
    ghost forward = { λ old new read. read };
}
