//! The response of a `ConcurrencyLimit`.
ghost use Rattle.std.specs.Prelude.{◌≡◌};
ghost use Rattle.tower_base.specs.Gives.{IsStep, MayGive};
ghost use Rattle.tower_limit.specs.Concurrency.{ResponseFutureView, Stepped};

use crate::limit::concurrency::error::{Error, outward};
use crate::limit::concurrency::line_core::LineCore;
use crate::limit::concurrency::semaphore::Permit;
use futures::future::Future;
use futures::task::{Context, Poll};
use std::marker::Model;
use tower_base::service::Steps;
use tower_latch::Latch;

/// The future of a response, which holds the permit of its call until it is dropped: the Rust's
/// `tower::limit::concurrency::future::ResponseFuture`.
pub struct ResponseFuture<F, L: Latch<LineCore>> {
    response: F,
    permit: Option<Permit<L>>,
}

impl<F, L: Latch<LineCore>> Model for ResponseFuture<F, L> {
    ghost Value = { ResponseFutureView F L };

    ghost view = { λ f. record { response = f.response; permit = f.permit } };
}

/// Dropping it drops the response and then gives the permit back.
impl<F: Drop, L: Latch<LineCore>> Drop for ResponseFuture<F, L> {
    #[inline(always)]
    fn drop(self) {
        let ResponseFuture { response, permit } = self;
        drop(response);
        if let Some(permit) = permit {
            permit.release();
        }
    }
}

impl<F, L: Latch<LineCore>> ResponseFuture<F, L> {
    pub(crate) fn new(response: F, permit: Option<Permit<L>>) -> ResponseFuture<F, L>
        ensures { result ≡ record { response = response; permit = permit } }
    {
        ResponseFuture { response, permit }
    }
}

impl<F: Drop, L: Latch<LineCore>> ResponseFuture<F, L> {
    /// Returns the permit of its call and drops the response.
    pub fn into_permit(self) -> Option<Permit<L>>
        ensures { result ≡ self.permit }
    {
        let ResponseFuture {
            response: _,
            permit,
        } = self;
        permit
    }
}

impl<T, E, F, L> Future for ResponseFuture<F, L>
where
    F: Steps<Output = Result<T, E>>,
    L: Latch<LineCore>,
{
    type Output = Result<T, Error<E>>;

    ghost can_poll = { λ v. F.can_poll v.response };

    ghost gives = { MayGive (Stepped F.Steps.own) };

    ghost needs = { λ v. F.needs v.response };

    #[tactic(auto, using(tower_base::specs::GivesLemmas::one_step))]
    fn poll(&mut self, cx: &mut Context<'_>) -> Poll<Self::Output>
        requires { F.can_poll self.old.response }
        ensures { IsStep (Stepped F.Steps.own) (λ v. F.can_poll v.response)
            (λ v. F.needs v.response) self.old result self.new cx.old cx.new }
    {
        self.step(cx)
    }
}

impl<T, E, F, L> Steps for ResponseFuture<F, L>
where
    F: Steps<Output = Result<T, E>>,
    L: Latch<LineCore>,
{
    type Output = Result<T, Error<E>>;

    ghost can_poll = { λ v. F.can_poll v.response };

    ghost needs = { λ v. F.needs v.response };

    ghost stepped = { Stepped F.Steps.own };

    ghost stirs = { λ old new. F.stirs old.response new.response };

    fn step(&mut self, cx: &mut Context<'_>) -> Poll<Self::Output> {
        outward(self.response.step(cx))
    }
}
