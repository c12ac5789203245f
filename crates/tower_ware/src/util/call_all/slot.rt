//! A call whose answer wasn't yielded yet.
ghost use Rattle.futures.specs.Task.{IsArmed, Keeps};
ghost use Rattle.tower_base.specs.Quiet.{Quiet};
ghost use Rattle.tower_ware.specs.OrderedCalls.{MayAsk, OnWaiting, SlotPolled, SlotStirs};

use futures::task::{Context, Poll};
use tower_base::service::Steps;

/// The future of a call, or the answer that it returned.
#[derive(Drop)]
pub enum Slot<F, T> {
    /// The future, which has no answer yet.
    Waiting(F),
    /// The answer that the future returned.
    Answered(T),
}

impl<T: Drop, F: Steps<Output = T>> Slot<F, T> {
    // Polls the future, unless its answer is there.
    pub fn ask(&mut self, cx: &mut Context<'_>)
        requires { MayAsk F.can_poll self.old }
        ensures polled { SlotPolled F.Steps.own self.old self.new }
        ensures again { MayAsk F.can_poll self.new }
        ensures armed { OnWaiting self.new (IsArmed cx.new) }
        ensures quiet { Quiet (SlotStirs F.stirs self.old) cx.old cx.new }
        ensures kept { Keeps cx.old cx.new }
    {
        if let Slot::Waiting(future) = self {
            if let Poll::Ready(answer) = future.step(cx) {
                *self = Slot::Answered(answer);
            }
        }
    }
}
