//! The response of a `SpawnReady`.
ghost use Rattle.std.specs.Prelude.{◌≡◌, Option, Some};
ghost use Rattle.tower_base.specs.Gives.{IsStep, MayGive};
ghost use Rattle.tower_pool.specs.SpawnReady.{Stepped};
ghost use Rattle.tower_util.specs.Fuse.{CanPoll, needs_of};

use crate::spawn_ready::error::Error;
use futures::future::Future;
use futures::task::{Context, Poll};
use std::marker::Model;
use tower_base::service::Steps;
use tower_util::util::Fuse;

/// The response of a `SpawnReady`, whose error is `Inner`: the Rust's
/// `tower::spawn_ready::future::ResponseFuture`. The inner future is dropped once it is ready.
#[derive(Drop)]
pub struct ResponseFuture<F> {
    response: Fuse<F>,
}

impl<F> Model for ResponseFuture<F> {
    ghost Value = { Option F };

    ghost view = { λ f. f.response };
}

impl<F> ResponseFuture<F> {
    pub(crate) fn new(response: F) -> ResponseFuture<F>
        ensures { result ≡ Some response }
    {
        ResponseFuture {
            response: Fuse::new(response),
        }
    }
}

impl<T, E, F: Steps<Output = Result<T, E>>> Future for ResponseFuture<F> {
    type Output = Result<T, Error<E>>;

    ghost can_poll = { CanPoll F.can_poll };

    ghost gives = { MayGive (Stepped F.Steps.own) };

    ghost needs = { needs_of F.needs };

    #[tactic(auto, using(tower_base::specs::GivesLemmas::one_step))]
    fn poll(&mut self, cx: &mut Context<'_>) -> Poll<Self::Output>
        requires { CanPoll F.can_poll self.old }
        ensures { IsStep (Stepped F.Steps.own) (CanPoll F.can_poll) (needs_of F.needs)
            self.old result self.new cx.old cx.new }
    {
        self.step(cx)
    }
}

impl<T, E, F: Steps<Output = Result<T, E>>> Steps for ResponseFuture<F> {
    type Output = Result<T, Error<E>>;

    ghost can_poll = { CanPoll F.can_poll };

    ghost needs = { needs_of F.needs };

    ghost stepped = { Stepped F.Steps.own };

    ghost stirs = { ⟦<Fuse<F> as Steps>⟧.stirs };

    fn step(&mut self, cx: &mut Context<'_>) -> Poll<Self::Output> {
        match self.response.step(cx) {
            Poll::Ready(Ok(response)) => Poll::Ready(Ok(response)),
            Poll::Ready(Err(error)) => Poll::Ready(Err(Error::Inner(error))),
            Poll::Pending => Poll::Pending,
        }
    }
}
