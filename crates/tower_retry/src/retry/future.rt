//! The future of a `Retry`.
ghost use Rattle.std.specs.Prelude.{◌≡◌, Some, None, Option, IfSome, IsSome};
ghost use Rattle.futures.specs.Poll.{OnPending};
ghost use Rattle.futures.specs.Task.{Covers, Keeps};
ghost use Rattle.futures.specs.declared.task.Poll.TheVariants.{Pending, Ready};
ghost use Rattle.tower_base.specs.Gives.{IsStep, MayGive};
ghost use Rattle.tower_base.specs.Iterations.{Iterations};
ghost use Rattle.tower_base.specs.Answers.{answered};
ghost use Rattle.tower_base.specs.LastIteration.{AnsweredOrWoken};
ghost use Rattle.tower_base.specs.Quiet.{Quiet};
ghost use Rattle.tower_retry.specs.Retry.{AfterResult, Again, Needs, NeedsAt, Iteration, ResponseFutureView, Sound, Stepped, Stirs, StirsAt, StirsIn, Unanswered};
ghost use Rattle.tower_retry.specs.declared.retry.error.Error.TheVariants.{Inner};

use crate::retry::state::{Attempts, State};
use crate::retry::{Error, Policy};
use futures::future::Future;
use futures::task::{Context, Poll};
use std::marker::Model;
use tower_base::iterations::TURNS;
use tower_base::service::{Service, Steps};

/// The future of a `Retry`, with as many calls as the policy requires: the Rust's
/// `tower::retry::future::ResponseFuture`.
///
/// A result, the end of a wait and a call take one iteration each. A poll makes at most `TURNS` iterations; then it is
/// pending and has woken its own task.
#[derive(Drop)]
pub struct ResponseFuture<P, S, Request, F, W> {
    // `None` if cloning failed at the call
    attempts: Option<Attempts<P, S, Request, F, W>>,
}

impl<P, S, Request, F, W> Model for ResponseFuture<P, S, Request, F, W> {
    ghost Value = { ResponseFutureView P S Request F W };

    ghost view = { λ future. future.attempts };
}

impl<P, S, Request, F, W> ResponseFuture<P, S, Request, F, W> {
    pub(crate) fn new(attempts: Attempts<P, S, Request, F, W>) -> Self
        ensures { result ≡ Some attempts }
    {
        ResponseFuture {
            attempts: Some(attempts),
        }
    }

    pub(crate) fn refused() -> Self
        ensures { result ≡ None }
    {
        ResponseFuture { attempts: None }
    }
}

impl<P, S, Request> Future for ResponseFuture<P, S, Request, S::Future, P::Future>
where
    P: Policy<Request, S::Response, S::Error>,
    S: Service<Request>,
    Request: Drop,
{
    type Output = Result<S::Response, Error<S::Error>>;

    ghost can_poll = { λ future. IfSome future
        (Sound P.sound S.sound S.Future.can_poll P.Future.can_poll) };

    ghost gives = { MayGive (Stepped S.Service S.Future.stepped P.Policy P.Future.stepped) };

    ghost needs = { Needs S.Future.needs P.Future.needs S.needs };

    #[tactic(auto, using(tower_base::specs::GivesLemmas::one_step))]
    fn poll(&mut self, cx: &mut Context<'_>) -> Poll<Self::Output>
        requires { IfSome self.old (Sound P.sound S.sound S.Future.can_poll P.Future.can_poll) }
        ensures { IsStep (Stepped S.Service S.Future.stepped P.Policy P.Future.stepped)
            (λ v. IfSome v (Sound P.sound S.sound S.Future.can_poll P.Future.can_poll))
            (Needs S.Future.needs P.Future.needs S.needs) self.old result self.new cx.old cx.new }
    {
        self.step(cx)
    }
}

impl<P, S, Request> Steps for ResponseFuture<P, S, Request, S::Future, P::Future>
where
    P: Policy<Request, S::Response, S::Error>,
    S: Service<Request>,
    Request: Drop,
{
    type Output = Result<S::Response, Error<S::Error>>;

    ghost can_poll = { λ future. IfSome future
        (Sound P.sound S.sound S.Future.can_poll P.Future.can_poll) };

    ghost needs = { Needs S.Future.needs P.Future.needs S.needs };

    ghost stepped = { Stepped S.Service S.Future.stepped P.Policy P.Future.stepped };

    ghost stirs = { Stirs S.Service S.Future.stepped P.Policy P.Future.stepped
        S.Future.stirs P.Future.stirs };

    #[inline(always)]
    fn step(&mut self, cx: &mut Context<'_>) -> Poll<Self::Output>
        requires { IfSome self.old (Sound P.sound S.sound S.Future.can_poll P.Future.can_poll) }
        ensures step { Stepped S.Service S.Future.stepped P.Policy P.Future.stepped self.old
            result self.new }
        ensures woken { IfSome self.old (λ old. IfSome self.new
            (λ new. AnsweredOrWoken (Iteration S.Service S.Future.stepped P.Policy P.Future.stepped)
            old result new cx.new.is_woken)) }
        ensures again { OnPending result
            (IfSome self.new (Sound P.sound S.sound S.Future.can_poll P.Future.can_poll)) }
        ensures registered { OnPending result
            (Covers cx.new (Needs S.Future.needs P.Future.needs S.needs self.new)) }
        ensures quiet { Quiet (Stirs S.Service S.Future.stepped P.Policy P.Future.stepped
            S.Future.stirs P.Future.stirs self.old self.new) cx.old cx.new }
        ensures kept { Keeps cx.old cx.new }
    {
        let Some(attempts) = &mut self.attempts else {
            return Poll::Ready(Err(Error::Memory));
        };
        iterate(attempts, cx)
    }
}

#[inline(always)]
fn iterate<P, S, Request>(
    attempts: &mut Attempts<P, S, Request, S::Future, P::Future>,
    cx: &mut Context<'_>,
) -> Poll<Result<S::Response, Error<S::Error>>>
where
    P: Policy<Request, S::Response, S::Error>,
    S: Service<Request>,
    Request: Drop,
    requires { Sound P.sound S.sound S.Future.can_poll P.Future.can_poll attempts.old }
    ensures iterations { Iterations (Iteration S.Service S.Future.stepped P.Policy P.Future.stepped)
        Pending attempts.old result attempts.new }
    ensures woken { AnsweredOrWoken (Iteration S.Service S.Future.stepped P.Policy P.Future.stepped)
        attempts.old result attempts.new cx.new.is_woken }
    ensures again { OnPending result
        (Sound P.sound S.sound S.Future.can_poll P.Future.can_poll attempts.new) }
    ensures registered { OnPending result (Covers cx.new
        (NeedsAt S.Future.needs P.Future.needs (S.needs attempts.new.service) attempts.new.state)) }
    ensures quiet { Quiet (StirsIn S.Service S.Future.stepped P.Policy P.Future.stepped
        S.Future.stirs P.Future.stirs attempts.old attempts.new) cx.old cx.new }
    ensures kept { Keeps cx.old cx.new }
{
    for _iteration in 0..TURNS {
        if let Some(answer) = iterate_once(attempts, cx) {
            return answer;
        }
    }
    cx.yield_now()
}

#[inline(always)]
fn iterate_once<P, S, Request>(
    attempts: &mut Attempts<P, S, Request, S::Future, P::Future>,
    cx: &mut Context<'_>,
) -> Option<Poll<Result<S::Response, Error<S::Error>>>>
where
    P: Policy<Request, S::Response, S::Error>,
    S: Service<Request>,
    Request: Drop,
    requires { Sound P.sound S.sound S.Future.can_poll P.Future.can_poll attempts.old }
    ensures iteration { Iteration S.Service S.Future.stepped P.Policy P.Future.stepped attempts.old
        result attempts.new }
    ensures again { Unanswered result
        (Sound P.sound S.sound S.Future.can_poll P.Future.can_poll attempts.new) }
    ensures registered { result ≡ Some Pending → Covers cx.new
        (NeedsAt S.Future.needs P.Future.needs (S.needs attempts.new.service) attempts.new.state) }
    ensures quiet { Quiet (StirsAt S.Service S.Future.stepped P.Policy P.Future.stepped
        S.Future.stirs P.Future.stirs attempts.old.state attempts.old.service) cx.old cx.new }
    ensures kept { Keeps cx.old cx.new }
{
    match &mut attempts.state {
        State::InFlight(response) => match response.step(cx) {
            Poll::Pending => Some(Poll::Pending),
            Poll::Ready(outcome) => decide(attempts, outcome),
        },
        State::Waiting(wait) => match wait.step(cx) {
            Poll::Pending => Some(Poll::Pending),
            Poll::Ready(()) => {
                attempts.state = State::Retrying;
                None
            }
        },
        State::Retrying => match attempts.service.poll_ready(cx) {
            Poll::Pending => Some(Poll::Pending),
            Poll::Ready(Err(error)) => Some(Poll::Ready(Err(Error::Inner(error)))),
            Poll::Ready(Ok(())) => {
                call_again(attempts);
                None
            }
        },
    }
}

// Decides what follows a result. The finished inner future is dropped when a wait begins.
#[inline(always)]
fn decide<P, S, Request>(
    attempts: &mut Attempts<P, S, Request, S::Future, P::Future>,
    mut outcome: Result<S::Response, S::Error>,
) -> Option<Poll<Result<S::Response, Error<S::Error>>>>
where
    P: Policy<Request, S::Response, S::Error>,
    S: Service<Request>,
    Request: Drop,
    requires policy { P.sound attempts.old.policy }
    requires service { S.sound attempts.old.service }
    ensures after { AfterResult P.Policy attempts.old.request attempts.old outcome result
        attempts.new }
    ensures again { Unanswered result
        (Sound P.sound S.sound S.Future.can_poll P.Future.can_poll attempts.new) }
    ensures answers { ¬ (result ≡ Some Pending) }
{
    let Some(request) = &mut attempts.request else {
        return Some(Poll::Ready(outer(outcome)));
    };
    match attempts.policy.retry(request, &mut outcome) {
        None => Some(Poll::Ready(outer(outcome))),
        Some(wait) => {
            attempts.state = State::Waiting(wait);
            None
        }
    }
}

#[inline(always)]
fn call_again<P, S, Request>(attempts: &mut Attempts<P, S, Request, S::Future, P::Future>)
where
    P: Policy<Request, S::Response, S::Error>,
    S: Service<Request>,
    Request: Drop,
    requires sound { Sound P.sound S.sound S.Future.can_poll P.Future.can_poll attempts.old }
    requires ready { S.ready attempts.old.service }
    requires had { IsSome attempts.old.request }
    ensures again { Again S.Service P.Policy attempts.old attempts.new }
    ensures sound { Sound P.sound S.sound S.Future.can_poll P.Future.can_poll attempts.new }
{
    let Some(request) = attempts.request.take() else {
        unreachable!();
    };
    attempts.request = attempts.policy.clone_request(&request);
    attempts.state = State::InFlight(attempts.service.call(request));
}

fn outer<A, E>(inner: Result<A, E>) -> Result<A, Error<E>>
    ensures { Ready result ≡ answered Inner (Ready inner) }
{
    match inner {
        Ok(value) => Ok(value),
        Err(error) => Err(Error::Inner(error)),
    }
}
