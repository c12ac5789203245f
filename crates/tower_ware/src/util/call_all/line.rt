//! The queue of an ordered stream.
ghost use Rattle.std.specs.Prelude.{◌≡◌, All, IsTrue, ◌↔◌, drop};
ghost use Rattle.std.specs.VecDeque.{deque_capacity};
ghost use Rattle.futures.specs.Task.{Keeps};
ghost use Rattle.tower_base.specs.Quiet.{Quiet};
ghost use Rattle.tower_ware.specs.OrderedCalls.{LinePolled, LineStirs, MayAsk, OthersPolled};
ghost use Rattle.tower_ware.specs.Queue.{Empty, Grown, HasRoom, Pushed, Queue};
ghost use Rattle.tower_ware.specs.declared.util.call_all.slot.Slot.{Slot};
ghost use Rattle.tower_ware.specs.declared.util.call_all.slot.Slot.TheVariants.{Waiting};

use crate::util::call_all::call_queue::CallQueue;
use crate::util::call_all::slot::Slot;
use futures::task::{Context, Poll};
use std::alloc::{AllocError, Global};
use std::collections::VecDeque;
use std::marker::Model;
use tower_base::service::Steps;

/// A queue of calls in the order of their requests: the Rust's `FuturesOrdered`.
#[derive(Drop)]
pub struct Line<F, T> {
    slots: VecDeque<Slot<F, T>>,
}

impl<F, T> Model for Line<F, T> {
    ghost Value = { Queue (Slot F T) };

    ghost view = { λ l. record { calls = l.slots.items; room = deque_capacity l.slots } };
}

impl<F, T> Line<F, T> {
    pub fn new(alloc: Global) -> Line<F, T>
        ensures { Empty result }
    {
        Line {
            slots: VecDeque::new(alloc),
        }
    }

    pub fn allocator(&self) -> Global {
        *self.slots.allocator()
    }

    pub fn is_clear(&self) -> bool
        ensures { IsTrue result ↔ Empty self.now }
    {
        self.slots.is_empty()
    }
}

// Polls each future behind the front that has no answer yet.
fn ask_others<T: Drop, F: Steps<Output = T>>(slots: &mut VecDeque<Slot<F, T>>, cx: &mut Context<'_>)
    requires { All (MayAsk F.can_poll) slots.old.items }
    ensures polled { OthersPolled F.Steps.own slots.old.items slots.new.items }
    ensures again { All (MayAsk F.can_poll) slots.new.items }
    ensures room { deque_capacity slots.new ≡ deque_capacity slots.old }
    ensures quiet { Quiet (LineStirs F.stirs (drop 1 slots.old.items)) cx.old cx.new }
    ensures kept { Keeps cx.old cx.new }
{
    for i in 1..slots.len() {
        slots[i].ask(cx);
    }
}

impl<T: Drop, F: Steps<Output = T>> CallQueue<T, F> for Line<F, T> {
    ghost sound = { λ l. All (MayAsk F.can_poll) l.calls };

    ghost has_room = { HasRoom };

    ghost empty = { Empty };

    ghost polled = { LinePolled F.Steps.own };

    ghost grown = { Grown };

    ghost pushed = { Pushed Waiting };

    ghost stirs = { λ l. LineStirs F.stirs l.calls };

    fn poll(&mut self, cx: &mut Context<'_>) -> Poll<Option<T>> {
        let Some(front) = self.slots.front_mut() else {
            return Poll::Ready(None);
        };
        front.ask(cx);
        if let Slot::Waiting(_) = front {
            ask_others(&mut self.slots, cx);
            return Poll::Pending;
        }
        match self.slots.pop_front() {
            Some(Slot::Answered(answer)) => Poll::Ready(Some(answer)),
            _ => unreachable!(),
        }
    }

    fn is_empty(&self) -> bool {
        self.is_clear()
    }

    fn reserve(&mut self) -> Result<(), AllocError> {
        self.slots.try_reserve(1)
    }

    fn push(&mut self, future: F) {
        self.slots.push_back_reserved(Slot::Waiting(future));
    }
}
