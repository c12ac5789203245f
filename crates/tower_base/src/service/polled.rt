//! Any `Steps` as a `Future`.
ghost use Rattle.std.specs.Prelude.{◌≡◌};
ghost use Rattle.tower_base.specs.Gives.{IsStep, MayGive};

use crate::service::Steps;
use futures::future::Future;
use futures::task::{Context, Poll};
use std::marker::Model;

/// A wrapper that makes any `Steps` a `Future`. Generic code passes it to the kit's executors and
/// combinators in place of a bare `S::Future`. Contracts see the wrapped future. The Rust has no such
/// type, since a response is a `Future` there.
///
/// `block_on` returns an output that the future may return after some number of pending polls.
#[derive(Drop)]
pub struct Polled<F> {
    future: F,
}

impl<F> Model for Polled<F> {
    ghost Value = { F };

    ghost view = { λ p. p.future };
}

impl<F> Polled<F> {
    /// Wraps the future, to be polled by its steps.
    pub fn new(future: F) -> Polled<F>
        ensures { result ≡ future }
    {
        Polled { future }
    }

    /// Returns the wrapped future, as the polls left it.
    pub fn into_inner(self) -> F
        ensures { result ≡ self }
    {
        self.future
    }
}

impl<F: Steps> Future for Polled<F> {
    type Output = F::Output;

    ghost can_poll = { F.can_poll };

    ghost needs = { F.needs };

    ghost gives = { MayGive F.stepped };

    #[tactic(auto, using(crate::specs::GivesLemmas::one_step))]
    fn poll(&mut self, cx: &mut Context<'_>) -> Poll<F::Output>
        requires { F.can_poll self.old }
        ensures { IsStep F.stepped F.can_poll F.needs self.old result self.new cx.old cx.new }
    {
        self.step(cx)
    }
}

impl<F: Steps> Steps for Polled<F> {
    type Output = F::Output;

    ghost can_poll = { F.can_poll };

    ghost needs = { F.needs };

    ghost stepped = { F.stepped };

    ghost stirs = { F.stirs };

    fn step(&mut self, cx: &mut Context<'_>) -> Poll<F::Output> {
        self.future.step(cx)
    }
}
