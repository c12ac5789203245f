//! The future of `LoadShed`.
ghost use Rattle.std.specs.Prelude.{◌≡◌, Option, Some, None, IfSome, IsSomeAnd};
ghost use Rattle.tower_base.specs.Gives.{IsStep, MayGive};
ghost use Rattle.tower_ware.specs.LoadShed.{Stepped, Stirs};

use crate::load_shed::error::Error;
use futures::future::Future;
use futures::task::{Context, Poll};
use std::marker::Model;
use tower_base::service::Steps;

/// The future of a `LoadShed`, which resolves to the inner response or to `Overloaded`: the Rust's
/// `tower::load_shed::future::ResponseFuture`.
#[derive(Drop)]
pub struct ResponseFuture<F> {
    response: Option<F>,
}

impl<F> Model for ResponseFuture<F> {
    ghost Value = { Option F };

    ghost view = { λ f. f.response };
}

impl<F> ResponseFuture<F> {
    pub(crate) fn called(response: F) -> ResponseFuture<F>
        ensures { result ≡ Some response }
    {
        ResponseFuture {
            response: Some(response),
        }
    }

    pub(crate) fn overloaded() -> ResponseFuture<F>
        ensures { result ≡ None }
    {
        ResponseFuture { response: None }
    }

    /// Returns the inner response: `None` if the call was shed. The Rust has no such method.
    pub fn into_inner(self) -> Option<F>
        ensures { result ≡ self }
    {
        let ResponseFuture { response } = self;
        response
    }
}

impl<T, E, F: Steps<Output = Result<T, E>>> Future for ResponseFuture<F> {
    type Output = Result<T, Error<E>>;

    ghost can_poll = { λ f. IfSome f F.can_poll };

    ghost gives = { MayGive (Stepped F.Steps.own) };

    ghost needs = { λ f source. IsSomeAnd f (λ response. F.needs response source) };

    #[tactic(auto, using(tower_base::specs::GivesLemmas::one_step))]
    fn poll(&mut self, cx: &mut Context<'_>) -> Poll<Result<T, Error<E>>>
        requires { IfSome self.old F.can_poll }
        ensures { IsStep (Stepped F.Steps.own) (λ f. IfSome f F.can_poll)
            (λ f source. IsSomeAnd f (λ response. F.needs response source))
            self.old result self.new cx.old cx.new }
    {
        self.step(cx)
    }
}

impl<T, E, F: Steps<Output = Result<T, E>>> Steps for ResponseFuture<F> {
    type Output = Result<T, Error<E>>;

    ghost can_poll = { λ f. IfSome f F.can_poll };

    ghost needs = { λ f source. IsSomeAnd f (λ response. F.needs response source) };

    ghost stepped = { Stepped F.Steps.own };

    ghost stirs = { Stirs F.stirs };

    fn step(&mut self, cx: &mut Context<'_>) -> Poll<Result<T, Error<E>>> {
        let Some(response) = &mut self.response else {
            return Poll::Ready(Err(Error::Overloaded));
        };
        match response.step(cx) {
            Poll::Ready(Ok(response)) => Poll::Ready(Ok(response)),
            Poll::Ready(Err(error)) => Poll::Ready(Err(Error::Inner(error))),
            Poll::Pending => Poll::Pending,
        }
    }
}
