//! The future of a `Timeout`.
ghost use Rattle.std.specs.Prelude.{◌≡◌, ◌⊎◌, true};
ghost use Rattle.futures.specs.Poll.{OnPending};
ghost use Rattle.futures.specs.Task.{Covers, Keeps};
ghost use Rattle.tower_base.specs.Gives.{IsStep, MayGive};
ghost use Rattle.tower_base.specs.Quiet.{Quiet};
ghost use Rattle.tower_ware.specs.Timeout.{Needs, ResponseFutureView, Stepped, Stirs};

use crate::timeout::error::Error;
use futures::future::Future;
use futures::task::{Context, Poll};
use std::marker::Model;
use tower_base::service::{Clock, Steps};

/// The future of a `Timeout`, which resolves to the inner response or to `Elapsed`: the Rust's
/// `tower::timeout::future::ResponseFuture`.
///
/// The response is polled first. The clock is read only if the response is pending.
#[derive(Drop)]
pub struct ResponseFuture<F, C> {
    response: F,
    deadline: u128,
    clock: C,
}

impl<F, C> Model for ResponseFuture<F, C> {
    ghost Value = { ResponseFutureView F C };

    ghost view = { λ f. record { response = f.response; deadline = f.deadline; clock = f.clock } };
}

impl<F, C> ResponseFuture<F, C> {
    pub(crate) fn new(response: F, deadline: u128, clock: C) -> ResponseFuture<F, C>
        ensures { result ≡ record { response = response; deadline = deadline; clock = clock } }
    {
        ResponseFuture {
            response,
            deadline,
            clock,
        }
    }
}

impl<F, C: Drop> ResponseFuture<F, C> {
    /// Drops the clock and returns the inner response. The Rust has no such method.
    pub fn into_inner(self) -> F
        ensures { result ≡ self.response }
    {
        let ResponseFuture {
            response,
            deadline: _,
            clock: _,
        } = self;
        response
    }
}

impl<T, E, F, C> Future for ResponseFuture<F, C>
where
    F: Steps<Output = Result<T, E>>,
    C: Clock,
{
    type Output = Result<T, Error<E>>;

    ghost can_poll = { λ v. F.can_poll v.response };

    ghost gives = { MayGive (Stepped F.Steps.own C.Clock) };

    // The response's own sources, and the clock's.
    ghost needs = { Needs F.needs C.hears };

    #[tactic(auto, using(tower_base::specs::GivesLemmas::one_step))]
    fn poll(&mut self, cx: &mut Context<'_>) -> Poll<Self::Output>
        requires { F.can_poll self.old.response }
        ensures { IsStep (Stepped F.Steps.own C.Clock) (λ v. F.can_poll v.response)
            (Needs F.needs C.hears) self.old result self.new cx.old cx.new }
    {
        self.step(cx)
    }
}

impl<T, E, F, C> Steps for ResponseFuture<F, C>
where
    F: Steps<Output = Result<T, E>>,
    C: Clock,
{
    type Output = Result<T, Error<E>>;

    ghost can_poll = { λ v. F.can_poll v.response };

    // The response's own sources, and the clock's.
    ghost needs = { Needs F.needs C.hears };

    ghost stepped = { Stepped F.Steps.own C.Clock };

    // The response's own causes, and the clock's.
    ghost stirs = { Stirs F.stirs C.stirs };

    fn step(&mut self, cx: &mut Context<'_>) -> Poll<Self::Output>
        requires { F.can_poll self.old.response }
        ensures step { Stepped F.Steps.own C.Clock self.old result self.new }
        ensures again { OnPending result (F.can_poll self.new.response) }
        ensures registered { OnPending result (Covers cx.new (Needs F.needs C.hears self.new)) }
        ensures timed { OnPending result
            ((cx.new.is_woken ≡ true) ⊎ C.wakes_by self.new.clock self.new.deadline cx.new) }
        ensures quiet { Quiet (Stirs F.stirs C.stirs self.old self.new) cx.old cx.new }
        ensures kept { Keeps cx.old cx.new }
    {
        match self.response.step(cx) {
            Poll::Ready(Ok(response)) => Poll::Ready(Ok(response)),
            Poll::Ready(Err(error)) => Poll::Ready(Err(Error::Inner(error))),
            Poll::Pending => {
                let moment = self.clock.now();
                if moment as u128 >= self.deadline {
                    return Poll::Ready(Err(Error::Elapsed));
                }
                self.clock.wake_at(self.deadline, cx);
                Poll::Pending
            }
        }
    }
}
