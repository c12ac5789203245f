//! The queue of an unordered stream.
ghost use Rattle.std.specs.Prelude.{◌≡◌, [], All, MatchOption};
ghost use Rattle.std.specs.Vec.{vec_capacity};
ghost use Rattle.futures.specs.Task.{IsArmed, Keeps};
ghost use Rattle.tower_base.specs.Quiet.{Quiet};
ghost use Rattle.tower_ware.specs.Bag.{BagPolled, BagStirs, EachPolled};
ghost use Rattle.tower_ware.specs.Queue.{Empty, Grown, HasRoom, Pushed, Queue};

use crate::util::call_all::call_queue::CallQueue;
use futures::task::{Context, Poll};
use std::alloc::{AllocError, Global};
use std::marker::Model;
use tower_base::service::Steps;

/// A queue of calls whose answers come in any order: the Rust's `FuturesUnordered`.
#[derive(Drop)]
pub struct Bag<F> {
    futures: Vec<F>,
}

impl<F> Model for Bag<F> {
    ghost Value = { Queue F };

    ghost view = { λ b. record { calls = b.futures.items; room = vec_capacity b.futures } };
}

impl<F> Bag<F> {
    pub fn new(alloc: Global) -> Bag<F>
        ensures { Empty result }
    {
        Bag {
            futures: Vec::new(alloc),
        }
    }
}

// Polls the futures up to the first that is ready, and removes that one.
fn ask_each<T: Drop, F: Steps<Output = T>>(futures: &mut Vec<F>, cx: &mut Context<'_>) -> Option<T>
    requires { All F.can_poll futures.old.items }
    ensures polled { EachPolled F.Steps.own futures.old.items result futures.new.items }
    ensures again { All F.can_poll futures.new.items }
    ensures room { vec_capacity futures.new ≡ vec_capacity futures.old }
    ensures armed { MatchOption result (¬ (futures.old.items ≡ []) → IsArmed cx.new)
        (λ _. Unit {0}) }
    ensures quiet { Quiet (BagStirs F.stirs futures.old.items) cx.old cx.new }
    ensures kept { Keeps cx.old cx.new }
{
    for i in 0..futures.len() {
        if let Poll::Ready(answer) = futures[i].step(cx) {
            let _ = futures.remove(i);
            return Some(answer);
        }
    }
    None
}

impl<T: Drop, F: Steps<Output = T>> CallQueue<T, F> for Bag<F> {
    ghost sound = { λ b. All F.can_poll b.calls };

    ghost has_room = { HasRoom };

    ghost empty = { Empty };

    ghost polled = { BagPolled F.Steps.own };

    ghost grown = { Grown };

    ghost pushed = { Pushed (λ future. future) };

    ghost stirs = { λ b. BagStirs F.stirs b.calls };

    fn poll(&mut self, cx: &mut Context<'_>) -> Poll<Option<T>> {
        let is_empty = self.futures.is_empty();
        match ask_each(&mut self.futures, cx) {
            Some(answer) => Poll::Ready(Some(answer)),
            None if is_empty => Poll::Ready(None),
            None => Poll::Pending,
        }
    }

    fn is_empty(&self) -> bool {
        self.futures.is_empty()
    }

    fn reserve(&mut self) -> Result<(), AllocError> {
        self.futures.reserve(1)
    }

    fn push(&mut self, future: F) {
        self.futures.push_reserved(future);
    }
}
