//! The future of the filter before a second request.
ghost use Rattle.std.specs.Prelude.{◌≡◌};
ghost use Rattle.futures.specs.declared.future.made.pending.Pending.{Pending};
ghost use Rattle.tower_base.specs.Gives.{IsStep, MayGive};
ghost use Rattle.tower_retry.specs.HedgeCheck.{CanPoll, CheckStepped, Needs, Stirs};
ghost use Rattle.tower_retry.specs.declared.hedge.check.CheckState.{CheckState};

use futures::future::{Future, Pending};
use futures::task::{Context, Poll};
use std::convert::Infallible;
use std::marker::Model;
use std::mem;
use tower_base::service::Steps;

/// A future that returns the request at once, or is pending forever.
#[derive(Drop)]
pub struct CheckFuture<Request> {
    state: CheckState<Request, Pending<()>>,
}

/// The state of a `CheckFuture`: the request, nothing once it was returned, or a future that is never
/// ready.
#[derive(Drop)]
pub(crate) enum CheckState<Request, N> {
    /// The request, which the next poll returns.
    Passed(Request),
    /// The request was returned.
    Given,
    /// A future that is never ready, since the request may not be made again.
    Waiting(N),
}

impl<Request> Model for CheckFuture<Request> {
    ghost Value = { CheckState Request (Pending (Unit {0})) };

    ghost view = { λ f. f.state };
}

impl<Request> CheckFuture<Request> {
    pub(crate) fn new(state: CheckState<Request, Pending<()>>) -> CheckFuture<Request>
        ensures { result ≡ state }
    {
        CheckFuture { state }
    }
}

impl<Request: Drop> Future for CheckFuture<Request> {
    type Output = Result<Request, Infallible>;

    ghost can_poll = { CanPoll };

    ghost gives = { MayGive CheckStepped };

    ghost needs = { Needs ⟦<Pending<()> as Future>⟧.needs };

    #[tactic(auto, using(tower_base::specs::GivesLemmas::one_step))]
    fn poll(&mut self, cx: &mut Context<'_>) -> Poll<Self::Output>
        requires { CanPoll self.old }
        ensures { IsStep CheckStepped CanPoll (Needs ⟦<Pending<()> as Future>⟧.needs)
            self.old result self.new cx.old cx.new }
    {
        self.step(cx)
    }
}

impl<Request: Drop> Steps for CheckFuture<Request> {
    type Output = Result<Request, Infallible>;

    ghost can_poll = { CanPoll };

    ghost needs = { Needs ⟦<Pending<()> as Future>⟧.needs };

    ghost stepped = { CheckStepped };

    ghost stirs = { Stirs ⟦<Pending<()> as Steps>⟧.stirs };

    fn step(&mut self, cx: &mut Context<'_>) -> Poll<Self::Output> {
        if let CheckState::Waiting(never) = &mut self.state {
            let Poll::Pending = never.step(cx) else {
                unreachable!()
            };
            return Poll::Pending;
        }
        let CheckState::Passed(request) = mem::replace(&mut self.state, CheckState::Given) else {
            unreachable!()
        };
        Poll::Ready(Ok(request))
    }
}
