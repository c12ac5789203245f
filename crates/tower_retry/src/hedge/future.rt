//! The future of a `Hedge`.
ghost use Rattle.std.specs.Prelude.{◌≡◌};
ghost use Rattle.tower_base.specs.Answers.{answered};
ghost use Rattle.tower_base.specs.Gives.{IsStep, MayGive};
ghost use Rattle.tower_retry.specs.Hedge.{Stepped, flat};

use crate::hedge::{Error, delay, select};
use futures::future::Future as KitFuture;
use futures::task::{Context, Poll};
use std::convert::Infallible;
use std::marker::Model;
use tower_base::service::Steps;
use tower_ware::filter;

/// The future of a `Hedge`, which resolves to the answer of the first call or of the second, whichever
/// comes first: the Rust's `tower::hedge::Future`.
#[derive(Drop)]
pub struct Future<F> {
    inner: F,
}

impl<F> Model for Future<F> {
    ghost Value = { F };

    ghost view = { λ f. f.inner };
}

impl<F> Future<F> {
    pub(crate) fn new(inner: F) -> Future<F>
        ensures { result ≡ inner }
    {
        Future { inner }
    }
}

impl<T, E, F> KitFuture for Future<F>
where
    F: Steps<Output = Result<T, select::Error<E, delay::Error<filter::Error<E, Infallible>>>>>,
{
    type Output = Result<T, Error<E>>;

    ghost can_poll = { F.can_poll };

    ghost gives = { MayGive (Stepped F.Steps.own) };

    ghost needs = { F.needs };

    #[tactic(auto, using(tower_base::specs::GivesLemmas::one_step))]
    fn poll(&mut self, cx: &mut Context<'_>) -> Poll<Self::Output>
        requires { F.can_poll self.old }
        ensures { IsStep (Stepped F.Steps.own)
            F.can_poll F.needs self.old result self.new cx.old cx.new }
    {
        self.step(cx)
    }
}

impl<T, E, F> Steps for Future<F>
where
    F: Steps<Output = Result<T, select::Error<E, delay::Error<filter::Error<E, Infallible>>>>>,
{
    type Output = Result<T, Error<E>>;

    ghost can_poll = { F.can_poll };

    ghost needs = { F.needs };

    ghost stepped = { Stepped F.Steps.own };

    ghost stirs = { F.stirs };

    fn step(&mut self, cx: &mut Context<'_>) -> Poll<Self::Output> {
        outer(self.inner.step(cx))
    }
}

/// Returns the nest's answer with the one error of a `Hedge`.
pub(crate) fn outer<T, E>(
    inner: Poll<Result<T, select::Error<E, delay::Error<filter::Error<E, Infallible>>>>>,
) -> Poll<Result<T, Error<E>>>
    ensures { result ≡ answered flat inner }
{
    match inner {
        Poll::Ready(Ok(response)) => Poll::Ready(Ok(response)),
        Poll::Ready(Err(error)) => Poll::Ready(Err(outer_error(error))),
        Poll::Pending => Poll::Pending,
    }
}

fn outer_error<E>(error: select::Error<E, delay::Error<filter::Error<E, Infallible>>>) -> Error<E>
    ensures { result ≡ flat error }
{
    match error {
        select::Error::First(error) => Error::Inner(error),
        select::Error::Second(delay::Error::Inner(filter::Error::Inner(error))) => {
            Error::Inner(error)
        }
        select::Error::Second(delay::Error::Inner(filter::Error::Rejected(never))) =>
            match never {},
        select::Error::Second(delay::Error::Inner(filter::Error::Memory)) => Error::Memory,
        select::Error::Second(delay::Error::Memory) => Error::Memory,
    }
}
