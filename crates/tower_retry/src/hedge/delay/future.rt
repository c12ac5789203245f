//! The future of a `Delay`.
ghost use Rattle.std.specs.Prelude.{◌≡◌};
ghost use Rattle.futures.specs.Poll.{OnPending};
ghost use Rattle.futures.specs.Task.{Covers, Keeps};
ghost use Rattle.tower_base.specs.Gives.{IsStep, MayGive};
ghost use Rattle.tower_base.specs.Quiet.{Quiet};
ghost use Rattle.tower_base.specs.Sleep.{SleepView};
ghost use Rattle.tower_retry.specs.Delay.{BeginStirs, Begun, CanPoll, Needs, Stepped, Stirs, Waits};
ghost use Rattle.tower_retry.specs.declared.hedge.delay.state.State.{State};
ghost use Rattle.tower_base.specs.Answers.{answered};
ghost use Rattle.tower_retry.specs.declared.hedge.delay.error.Error.TheVariants.{Inner};

use crate::hedge::delay::error::Error;
use crate::hedge::delay::state::State;
use futures::future::Future;
use futures::task::{Context, Poll};
use std::marker::Model;
use std::mem;
use tower_base::service::{Clock, Service, Sleep, Steps};
use tower_util::util::Oneshot;

/// The future of a `Delay`, which makes the call after the delay: the Rust's
/// `tower::hedge::delay::ResponseFuture`.
///
/// After the delay the clone is called by a `Oneshot`.
#[derive(Drop)]
pub struct ResponseFuture<Request, S, O, C> {
    state: State<Sleep<C>, S, Request, O>,
}

impl<Request, S, O, C> Model for ResponseFuture<Request, S, O, C> {
    ghost Value = { State (SleepView C) S Request O };

    ghost view = { λ f. f.state };
}

impl<Request, S, O, C> ResponseFuture<Request, S, O, C> {
    pub(crate) fn new(state: State<Sleep<C>, S, Request, O>) -> ResponseFuture<Request, S, O, C>
        ensures { result ≡ state }
    {
        ResponseFuture { state }
    }
}

impl<Request, S, C> Future for ResponseFuture<Request, S, Oneshot<S, Request>, C>
where
    Request: Drop,
    S: Service<Request>,
    C: Clock,
{
    type Output = Result<S::Response, Error<S::Error>>;

    ghost can_poll = { CanPoll S.sound ⟦<Oneshot<S, Request> as Future>⟧.can_poll };

    ghost gives = { MayGive (Stepped S.Service S.Future.stepped C.Clock) };

    ghost needs = { Needs C.hears ⟦<Oneshot<S, Request> as Future>⟧.needs };

    #[tactic(auto, using(tower_base::specs::GivesLemmas::one_step))]
    fn poll(&mut self, cx: &mut Context<'_>) -> Poll<Self::Output>
        requires { CanPoll S.sound ⟦<Oneshot<S, Request> as Future>⟧.can_poll self.old }
        ensures { IsStep (Stepped S.Service S.Future.stepped C.Clock)
            (CanPoll S.sound ⟦<Oneshot<S, Request> as Future>⟧.can_poll)
            (Needs C.hears ⟦<Oneshot<S, Request> as Future>⟧.needs)
            self.old result self.new cx.old cx.new }
    {
        self.step(cx)
    }
}

impl<Request, S, C> Steps for ResponseFuture<Request, S, Oneshot<S, Request>, C>
where
    Request: Drop,
    S: Service<Request>,
    C: Clock,
{
    type Output = Result<S::Response, Error<S::Error>>;

    ghost can_poll = { CanPoll S.sound ⟦<Oneshot<S, Request> as Future>⟧.can_poll };

    ghost needs = { Needs C.hears ⟦<Oneshot<S, Request> as Future>⟧.needs };

    ghost stepped = { Stepped S.Service S.Future.stepped C.Clock };

    ghost stirs = { Stirs ⟦<Oneshot<S, Request> as Steps>⟧.stirs C.stirs };

    fn step(&mut self, cx: &mut Context<'_>) -> Poll<Self::Output> {
        match &mut self.state {
            State::Delaying(sleep, _, _) => match sleep.step(cx) {
                Poll::Pending => Poll::Pending,
                Poll::Ready(()) => self.begin(cx),
            },
            State::InFlight(oneshot) => outer(oneshot.step(cx)),
            State::NoClone => Poll::Ready(Err(Error::Memory)),
        }
    }
}

impl<Request, S, C> ResponseFuture<Request, S, Oneshot<S, Request>, C>
where
    Request: Drop,
    S: Service<Request>,
    C: Clock,
{
    // Ends the delay: begins the call and polls it at once.
    fn begin(&mut self, cx: &mut Context<'_>) -> Poll<Result<S::Response, Error<S::Error>>>
        requires { Waits S.sound self.old }
        ensures begun { Begun S.Service S.Future.stepped C.Clock self.old result self.new }
        ensures again { OnPending result
            (CanPoll S.sound ⟦<Oneshot<S, Request> as Future>⟧.can_poll self.new) }
        ensures registered { OnPending result
            (Covers cx.new (Needs C.hears ⟦<Oneshot<S, Request> as Future>⟧.needs self.new)) }
        ensures quiet { Quiet (BeginStirs ⟦<Oneshot<S, Request> as Steps>⟧.stirs self.old self.new)
            cx.old cx.new }
        ensures kept { Keeps cx.old cx.new }
    {
        let State::Delaying(_, service, request) = mem::replace(&mut self.state, State::NoClone)
        else {
            unreachable!()
        };
        let mut oneshot = Oneshot::new(service, request);
        let answer = oneshot.step(cx);
        self.state = State::InFlight(oneshot);
        outer(answer)
    }
}

fn outer<T, E>(inner: Poll<Result<T, E>>) -> Poll<Result<T, Error<E>>>
    ensures { result ≡ answered Inner inner }
{
    match inner {
        Poll::Ready(Ok(response)) => Poll::Ready(Ok(response)),
        Poll::Ready(Err(error)) => Poll::Ready(Err(Error::Inner(error))),
        Poll::Pending => Poll::Pending,
    }
}
