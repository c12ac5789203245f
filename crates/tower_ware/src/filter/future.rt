//! The futures of the filters.
ghost use Rattle.std.specs.Prelude.{◌≡◌, Ok, Err};
ghost use Rattle.tower_base.specs.Gives.{IsStep, MayGive};
ghost use Rattle.tower_ware.specs.Filter.{AsyncResponseFutureCanPoll, AsyncResponseFutureStepped, ResponseFutureCanPoll, ResponseFutureStepped, async_response_future_needs, async_response_future_stirs, response_future_needs, response_future_stirs};
ghost use Rattle.tower_ware.specs.declared.filter.state.State.{State};
ghost use Rattle.tower_ware.specs.declared.filter.state.State.TheVariants.{Response, Refusal, Answered};
ghost use Rattle.tower_ware.specs.declared.filter.state.AsyncState.{AsyncState};
ghost use Rattle.tower_ware.specs.declared.filter.state.AsyncState.TheVariants.{Check, InFlight, NoClone};

use crate::filter::error::Error;
use crate::filter::state::{AsyncState, State};
use futures::future::Future;
use futures::ready;
use futures::task::{Context, Poll};
use std::marker::Model;
use std::mem;
use tower_base::service::{Service, Steps};

/// The future of a `Filter`, which resolves to the inner response or to the predicate's error: the Rust's
/// `tower::filter::future::ResponseFuture`.
///
/// The inner future is dropped once it is ready.
#[derive(Drop)]
pub struct ResponseFuture<F, P> {
    state: State<F, P>,
}

impl<F, P> Model for ResponseFuture<F, P> {
    ghost Value = { State F P };

    ghost view = { λ f. f.state };
}

impl<F, P> ResponseFuture<F, P> {
    pub(crate) fn new(state: State<F, P>) -> ResponseFuture<F, P>
        ensures { result ≡ state }
    {
        ResponseFuture { state }
    }
}

impl<A, E, P: Drop, F: Steps<Output = Result<A, E>>> Future for ResponseFuture<F, P> {
    type Output = Result<A, Error<E, P>>;

    ghost can_poll = { ResponseFutureCanPoll F.can_poll };

    ghost gives = { MayGive (ResponseFutureStepped F.Steps.own) };

    ghost needs = { response_future_needs F.needs };

    #[tactic(auto, using(tower_base::specs::GivesLemmas::one_step))]
    fn poll(&mut self, cx: &mut Context<'_>) -> Poll<Result<A, Error<E, P>>>
        requires { ResponseFutureCanPoll F.can_poll self.old }
        ensures { IsStep (ResponseFutureStepped F.Steps.own) (ResponseFutureCanPoll F.can_poll)
            (response_future_needs F.needs) self.old result self.new cx.old cx.new }
    {
        self.step(cx)
    }
}

impl<A, E, P: Drop, F: Steps<Output = Result<A, E>>> Steps for ResponseFuture<F, P> {
    type Output = Result<A, Error<E, P>>;

    ghost can_poll = { ResponseFutureCanPoll F.can_poll };

    ghost needs = { response_future_needs F.needs };

    ghost stepped = { ResponseFutureStepped F.Steps.own };

    ghost stirs = { response_future_stirs F.stirs };

    fn step(&mut self, cx: &mut Context<'_>) -> Poll<Result<A, Error<E, P>>> {
        if let State::Response(response) = &mut self.state {
            let result = ready!(response.step(cx));
            self.state = State::Answered;
            return match result {
                Ok(value) => Poll::Ready(Ok(value)),
                Err(error) => Poll::Ready(Err(Error::Inner(error))),
            };
        }
        let State::Refusal(refusal) = mem::replace(&mut self.state, State::Answered) else {
            unreachable!()
        };
        Poll::Ready(Err(Error::Rejected(refusal)))
    }
}

/// The future of an `AsyncFilter`, which resolves to the inner response, a rejection or `Memory`: the
/// Rust's `tower::filter::future::AsyncResponseFuture`.
///
/// Unless cloning failed, it holds the service that was polled, and calls it once the check returns `Ok`.
#[derive(Drop)]
pub struct AsyncResponseFuture<C, S, F> {
    state: AsyncState<C, S, F>,
}

impl<C, S, F> Model for AsyncResponseFuture<C, S, F> {
    ghost Value = { AsyncState C S F };

    ghost view = { λ f. f.state };
}

impl<C, S, F> AsyncResponseFuture<C, S, F> {
    pub(crate) fn new(state: AsyncState<C, S, F>) -> AsyncResponseFuture<C, S, F>
        ensures { result ≡ state }
    {
        AsyncResponseFuture { state }
    }
}

impl<C, S, F, Q, P> Future for AsyncResponseFuture<C, S, F>
where
    C: Steps<Output = Result<Q, P>>,
    S: Service<Q, Future = F>,
    F: Steps<Output = Result<S::Response, S::Error>>,
    P: Drop,
{
    type Output = Result<S::Response, Error<S::Error, P>>;

    ghost can_poll = { AsyncResponseFutureCanPoll S.Service C.can_poll F.can_poll };

    ghost gives = { MayGive (AsyncResponseFutureStepped S.Service F.Steps.own C.Steps.own) };

    ghost needs = { async_response_future_needs C.needs F.needs };

    #[tactic(auto, using(tower_base::specs::GivesLemmas::one_step))]
    fn poll(&mut self, cx: &mut Context<'_>) -> Poll<Result<S::Response, Error<S::Error, P>>>
        requires { AsyncResponseFutureCanPoll S.Service C.can_poll F.can_poll self.old }
        ensures { IsStep (AsyncResponseFutureStepped S.Service F.Steps.own C.Steps.own)
            (AsyncResponseFutureCanPoll S.Service C.can_poll F.can_poll)
            (async_response_future_needs C.needs F.needs) self.old result self.new cx.old cx.new }
    {
        self.step(cx)
    }
}

impl<C, S, F, Q, P> Steps for AsyncResponseFuture<C, S, F>
where
    C: Steps<Output = Result<Q, P>>,
    S: Service<Q, Future = F>,
    F: Steps<Output = Result<S::Response, S::Error>>,
    P: Drop,
{
    type Output = Result<S::Response, Error<S::Error, P>>;

    ghost can_poll = { AsyncResponseFutureCanPoll S.Service C.can_poll F.can_poll };

    ghost needs = { async_response_future_needs C.needs F.needs };

    ghost stepped = { AsyncResponseFutureStepped S.Service F.Steps.own C.Steps.own };

    ghost stirs = { async_response_future_stirs C.stirs F.stirs };

    fn step(&mut self, cx: &mut Context<'_>) -> Poll<Result<S::Response, Error<S::Error, P>>> {
        if let AsyncState::Check(check, service) = &mut self.state {
            match ready!(check.step(cx)) {
                Ok(request) => self.state = AsyncState::InFlight(service.call(request)),
                Err(error) => return Poll::Ready(Err(Error::Rejected(error))),
            }
        }
        match &mut self.state {
            AsyncState::InFlight(response) => match ready!(response.step(cx)) {
                Ok(value) => Poll::Ready(Ok(value)),
                Err(error) => Poll::Ready(Err(Error::Inner(error))),
            },
            AsyncState::NoClone => Poll::Ready(Err(Error::Memory)),
            AsyncState::Check(_, _) => unreachable!(),
        }
    }
}
