//! A future that lets time pass.
ghost use Rattle.std.specs.Prelude.{◌≡◌, ◌≤◌};
ghost use Rattle.futures.specs.Poll.{IfReady, OnPending};
ghost use Rattle.futures.specs.Task.{IsArmed, Keeps};

use crate::clock::PausedClock;
use crate::jumps::Shown;
use futures::future::Future;
use futures::task::{Context, Key, Poll};
use std::alloc::AllocError;
use tower_base::service::Clock;

/// The future of `PausedClock::advance`. Under another executor than the clock's loop it is never ready,
/// unless its moment has come; then it is ready at once.
#[derive(Drop)]
pub struct Advance {
    clock: PausedClock,
    deadline: u128,
    // Fires once no other task can go on.
    rest: Option<Key>,
}

impl Advance {
    pub(crate) fn new(clock: PausedClock, deadline: u128) -> Advance
        ensures { result.deadline ≡ deadline }
    {
        Advance {
            clock,
            deadline,
            rest: None,
        }
    }

    // Returns whether the moment has come.
    fn poll_moment(&mut self, cx: &mut Context<'_>) -> Poll<()>
        ensures come { IfReady result (λ _. self.new.deadline ≤ self.new.clock.last) }
        ensures armed { OnPending result (IsArmed cx.new) }
        ensures kept { Keeps cx.old cx.new }
    {
        if self.clock.now() as u128 >= self.deadline {
            return Poll::Ready(());
        }
        self.clock.wake_at(self.deadline, cx);
        Poll::Pending
    }

    // Returns whether no other task could go on.
    fn poll_rest(&mut self, cx: &mut Context<'_>) -> Poll<()>
        ensures armed { OnPending result (IsArmed cx.new) }
        ensures kept { Keeps cx.old cx.new }
        ensures same { (self.new.clock ≡ self.old.clock) × (self.new.deadline ≡ self.old.deadline) }
    {
        if let Some(key) = &self.rest {
            return cx.poll_fired(key).map(|_| ());
        }
        let Some(shown) = self.clock.shown() else {
            return Poll::Ready(());
        };
        let Ok(key) = bell_at_rest(shown) else {
            return cx.yield_now();
        };
        // A new key counts as fired.
        let Poll::Ready(Ok(seen)) = cx.poll_fired(&key) else {
            return Poll::Ready(());
        };
        let pending = cx.blocked(&key, seen);
        self.rest = Some(key);
        pending
    }
}

// Returns a key that fires once no task can go on.
fn bell_at_rest(shown: &Shown) -> Result<Key, AllocError> {
    let key = shown.keys.issue()?;
    shown.ring_at_rest(key.bell())?;
    Ok(key)
}

impl Future for Advance {
    type Output = ();

    fn poll(&mut self, cx: &mut Context<'_>) -> Poll<()>
        ensures come { IfReady result (λ _. self.new.deadline ≤ self.new.clock.last) }
        ensures armed { OnPending result (IsArmed cx.new) }
        ensures kept { Keeps cx.old cx.new }
    {
        match self.poll_moment(cx) {
            Poll::Pending => Poll::Pending,
            Poll::Ready(()) => self.poll_rest(cx),
        }
    }
}
