//! The response future of an optional service.
ghost use Rattle.std.specs.Prelude.{◌≡◌, Option, IfSome, Some, None};
ghost use Rattle.tower_base.specs.Gives.{IsStep, MayGive};
ghost use Rattle.tower_util.specs.Optional.{Stepped, Stirs};

use crate::util::optional::error::Error;
use futures::future::Future;
use futures::ready;
use futures::task::{Context, Poll};
use std::marker::Model;
use tower_base::service::Steps;

/// The response future of an `Optional`. It is the Rust's `tower::util::future::optional::ResponseFuture`.
#[derive(Drop)]
pub struct ResponseFuture<T> {
    inner: Option<T>,
}

impl<T> Model for ResponseFuture<T> {
    ghost Value = { Option T };

    ghost view = { λ t. t.inner };
}

impl<T> ResponseFuture<T> {
    pub(crate) fn new(inner: Option<T>) -> ResponseFuture<T>
        ensures { result ≡ inner }
    {
        ResponseFuture { inner }
    }
}

impl<F: Steps<Output = Result<T, E>>, T, E> Future for ResponseFuture<F> {
    type Output = Result<T, Error<E>>;

    ghost can_poll = { λ t. IfSome t F.can_poll };

    ghost gives = { MayGive (Stepped F.stepped) };

    ghost needs = { elim [ Some f ↦ F.needs f | None ↦ λ _. ⊥ ] };

    #[tactic(auto, using(tower_base::specs::GivesLemmas::one_step))]
    fn poll(&mut self, cx: &mut Context<'_>) -> Poll<Result<T, Error<E>>>
        requires { ⟦<ResponseFuture<F> as Future>⟧.can_poll self.old }
        ensures { IsStep (Stepped F.stepped) ⟦<ResponseFuture<F> as Future>⟧.can_poll
            ⟦<ResponseFuture<F> as Future>⟧.needs self.old result self.new cx.old cx.new }
    {
        self.step(cx)
    }
}

impl<F: Steps<Output = Result<T, E>>, T, E> Steps for ResponseFuture<F> {
    type Output = Result<T, Error<E>>;

    ghost can_poll = { λ t. IfSome t F.can_poll };

    ghost needs = { elim [ Some f ↦ F.needs f | None ↦ λ _. ⊥ ] };

    ghost stirs = { Stirs F.stirs };

    ghost stepped = { Stepped F.stepped };

    fn step(&mut self, cx: &mut Context<'_>) -> Poll<Result<T, Error<E>>> {
        match &mut self.inner {
            Some(inner) => match ready!(inner.step(cx)) {
                Ok(response) => Poll::Ready(Ok(response)),
                Err(error) => Poll::Ready(Err(Error::Inner(error))),
            },
            None => Poll::Ready(Err(Error::None)),
        }
    }
}
