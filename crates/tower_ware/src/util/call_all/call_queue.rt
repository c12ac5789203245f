//! The queue of a stream's calls.
ghost use Rattle.std.specs.Prelude.{◌≡◌, IsTrue, ◌↔◌, None, OnErr, OnOk, Option};
ghost use Rattle.futures.specs.Poll.{OnPending};
ghost use Rattle.futures.specs.Task.{IsArmed, Keeps};
ghost use Rattle.tower_base.specs.Quiet.{Quiet};
ghost use Rattle.futures.specs.declared.task.Poll.{Poll};
ghost use Rattle.futures.specs.declared.task.Poll.TheVariants.{Ready};

use futures::task::{Context, Poll};
use std::alloc::AllocError;
use tower_base::service::Steps;

/// A queue of calls whose answers weren't yielded yet: the Rust's `Drive`.
pub trait CallQueue<T, F: Steps<Output = T>>: Drop {
    // Each call may be polled.
    ghost sound: { Self → Type 0 };

    // The queue has room for one more call.
    ghost has_room: { Self → Type 0 };

    // The queue has no calls.
    ghost empty: { Self → Type 0 };

    // A poll may return this answer, `None` for the end, and leave the second value.
    ghost polled: { Self → Poll (Option T) → Self → Type 0 };

    // Both values have the same calls.
    ghost grown: { Self → Self → Type 0 };

    // The second value also has the future, as its last call.
    ghost pushed: { Self → F → Self → Type 0 };

    // A poll of this queue may ask for another poll of the task.
    ghost stirs: { Self → Type 0 };

    fn poll(&mut self, cx: &mut Context<'_>) -> Poll<Option<T>>
        requires { sound self.old }
        ensures polled { polled self.old result self.new }
        ensures sound { sound self.new }
        ensures none { result ≡ Ready None → empty self.new }
        ensures armed { OnPending result (IsArmed cx.new) }
        ensures quiet { Quiet (stirs self.old) cx.old cx.new }
        ensures kept { Keeps cx.old cx.new };

    fn is_empty(&self) -> bool
        ensures { IsTrue result ↔ empty self.now };

    // Makes room for one more call.
    fn reserve(&mut self) -> Result<(), AllocError>
        requires { sound self.old }
        ensures grown { grown self.old self.new }
        ensures sound { sound self.new }
        ensures room { OnOk result (has_room self.new) }
        ensures full { OnErr result (¬ (has_room self.old)) };

    fn push(&mut self, future: F)
        requires room { has_room self.old }
        requires sound { sound self.old }
        requires pollable { F.can_poll future }
        ensures pushed { pushed self.old future self.new }
        ensures sound { sound self.new };
}
