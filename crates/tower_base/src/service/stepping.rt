//! Any future of the kit as `Steps`.
ghost use Rattle.std.specs.Prelude.{◌≡◌};
ghost use Rattle.tower_base.specs.Gives.{GivesOnly};

use crate::service::Steps;
use futures::future::Future;
use futures::task::{Context, Poll};
use std::marker::Model;

/// A wrapper that makes any future of the kit a `Steps`, so that it can be the response of a service. It
/// is the inverse of `Polled`. Contracts see the wrapped future, which returns only what it gives.
#[derive(Drop)]
pub struct Stepping<F> {
    future: F,
}

impl<F> Model for Stepping<F> {
    ghost Value = { F };

    ghost view = { λ s. s.future };
}

impl<F> Stepping<F> {
    /// Wraps the future, to be polled as it is.
    pub fn new(future: F) -> Stepping<F>
        ensures { result ≡ future }
    {
        Stepping { future }
    }

    /// Returns the wrapped future, as the polls left it.
    pub fn into_inner(self) -> F
        ensures { result ≡ self }
    {
        self.future
    }
}

impl<F: Future> Steps for Stepping<F> {
    type Output = F::Output;

    ghost can_poll = { F.can_poll };

    ghost needs = { F.needs };

    ghost stepped = { GivesOnly F.gives };

    fn step(&mut self, cx: &mut Context<'_>) -> Poll<F::Output> {
        self.future.poll(cx)
    }
}
