//! The response of an endpoint.
ghost use Rattle.std.specs.Prelude.{◌≡◌, Option, Some};
ghost use Rattle.tower_base.specs.Gives.{IsStep, MayGive};
ghost use Rattle.tower_pool.specs.Balance.{Stepped};
ghost use Rattle.tower_util.specs.Fuse.{CanPoll, needs_of};

use crate::balance::error::Error;
use futures::future::Future;
use futures::task::{Context, Poll};
use std::marker::{Model, PhantomData};
use tower_base::service::Steps;
use tower_util::util::Fuse;

/// The response of an endpoint, whose error is `Inner`. The inner future is dropped once it is ready.
#[derive(Drop)]
pub struct ResponseFuture<F, X> {
    response: Fuse<F>,
    of: PhantomData<X>,
}

impl<F, X> Model for ResponseFuture<F, X> {
    ghost Value = { Option F };

    ghost view = { λ f. f.response };
}

impl<F, X> ResponseFuture<F, X> {
    pub(crate) fn new(response: F) -> ResponseFuture<F, X>
        ensures { result ≡ Some response }
    {
        ResponseFuture {
            response: Fuse::new(response),
            of: PhantomData,
        }
    }
}

impl<A, E, X, F: Steps<Output = Result<A, E>>> Future for ResponseFuture<F, X> {
    type Output = Result<A, Error<E, X>>;

    ghost can_poll = { CanPoll F.can_poll };

    ghost gives = { MayGive (Stepped F.Steps.own) };

    ghost needs = { needs_of F.needs };

    #[tactic(auto, using(tower_base::specs::GivesLemmas::one_step))]
    fn poll(&mut self, cx: &mut Context<'_>) -> Poll<Result<A, Error<E, X>>>
        requires { CanPoll F.can_poll self.old }
        ensures { IsStep (Stepped F.Steps.own) (CanPoll F.can_poll) (needs_of F.needs)
            self.old result self.new cx.old cx.new }
    {
        self.step(cx)
    }
}

impl<A, E, X, F: Steps<Output = Result<A, E>>> Steps for ResponseFuture<F, X> {
    type Output = Result<A, Error<E, X>>;

    ghost can_poll = { CanPoll F.can_poll };

    ghost needs = { needs_of F.needs };

    ghost stepped = { Stepped F.Steps.own };

    ghost stirs = { ⟦<Fuse<F> as Steps>⟧.stirs };

    #[inline]
    fn step(&mut self, cx: &mut Context<'_>) -> Poll<Result<A, Error<E, X>>> {
        match self.response.step(cx) {
            Poll::Ready(Ok(answer)) => Poll::Ready(Ok(answer)),
            Poll::Ready(Err(error)) => Poll::Ready(Err(Error::Inner(error))),
            Poll::Pending => Poll::Pending,
        }
    }
}
