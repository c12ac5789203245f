//! One call of a service, from its readiness to its response.
ghost use Rattle.std.specs.Prelude.{◌≡◌};
ghost use Rattle.futures.specs.Poll.{OnPending};
ghost use Rattle.futures.specs.Task.{Covers, Keeps};
ghost use Rattle.tower_base.specs.Gives.{IsStep, MayGive};
ghost use Rattle.tower_base.specs.Quiet.{Quiet};
ghost use Rattle.tower_util.specs.Oneshot.{Stepped, Stirs, ResponseStepped, ResponseStirs};
ghost use Rattle.tower_util.specs.declared.util.oneshot.State.TheVariants.{NotReady, InFlight, Done};

use futures::future::Future;
use futures::task::{Context, Poll};
use std::mem;
use tower_base::service::{Service, Steps};

/// A future that polls a service until it is ready, calls it once, and polls the response. It is the
/// Rust's `tower::util::Oneshot`.
///
/// The service is dropped after the call, before the response is polled. An error of readiness keeps the
/// service and the request until the future is dropped, and an error of the response keeps the response.
#[derive(Drop)]
// (A `Model` over the bound couldn't be used at a closure's type, so clauses name the field.)
pub struct Oneshot<S: Service<Request>, Request> {
    state: State<S, Request, S::Future>,
}

/// The state of a `Oneshot`.
#[derive(Drop)]
pub enum State<S, Request, F> {
    /// The service, which isn't ready yet, and the request.
    NotReady(S, Request),
    /// The response.
    InFlight(F),
    /// The response was returned.
    Done,
}

impl<S: Service<Request>, Request> Oneshot<S, Request> {
    /// Creates the future. Polls nothing. The service is called with the request as soon as it is ready.
    pub fn new(service: S, request: Request) -> Oneshot<S, Request>
        ensures { result.state ≡ NotReady service request }
    {
        Oneshot {
            state: State::NotReady(service, request),
        }
    }
}

impl<S: Service<Request>, Request: Drop> Future for Oneshot<S, Request> {
    type Output = Result<S::Response, S::Error>;

    ghost can_poll = { λ o. elim o.state [
      | NotReady service request ↦ S.sound service
      | InFlight future ↦ S.Future.can_poll future
      | Done ↦ ⊥
    ] };

    ghost gives = { MayGive
        (λ old answer new. Stepped S.Service S.Future.stepped old.state answer new.state) };

    ghost needs = { λ o. elim o.state [
      | NotReady service request ↦ S.needs service
      | InFlight future ↦ S.Future.needs future
      | Done ↦ λ _. ⊥
    ] };

    #[tactic(auto, using(tower_base::specs::GivesLemmas::one_step))]
    fn poll(&mut self, cx: &mut Context<'_>) -> Poll<Self::Output>
        requires { ⟦<Oneshot<S, Request> as Future>⟧.can_poll self.old }
        ensures { IsStep
            (λ old answer new. Stepped S.Service S.Future.stepped old.state answer new.state)
            ⟦<Oneshot<S, Request> as Future>⟧.can_poll ⟦<Oneshot<S, Request> as Future>⟧.needs
            self.old result self.new cx.old cx.new }
    {
        self.step(cx)
    }
}

impl<S: Service<Request>, Request: Drop> Steps for Oneshot<S, Request> {
    type Output = Result<S::Response, S::Error>;

    ghost can_poll = { λ o. elim o.state [
      | NotReady service request ↦ S.sound service
      | InFlight future ↦ S.Future.can_poll future
      | Done ↦ ⊥
    ] };

    ghost needs = { λ o. elim o.state [
      | NotReady service request ↦ S.needs service
      | InFlight future ↦ S.Future.needs future
      | Done ↦ λ _. ⊥
    ] };

    ghost stirs = { λ old new. Stirs S.Service S.Future.stirs old.state new.state };

    ghost stepped = { λ old answer new. Stepped S.Service S.Future.stepped old.state answer
        new.state };

    fn step(&mut self, cx: &mut Context<'_>) -> Poll<Self::Output> {
        match mem::replace(&mut self.state, State::Done) {
            State::NotReady(mut service, request) => match service.poll_ready(cx) {
                Poll::Pending => {
                    self.state = State::NotReady(service, request);
                    Poll::Pending
                }
                Poll::Ready(Err(error)) => {
                    self.state = State::NotReady(service, request);
                    Poll::Ready(Err(error))
                }
                Poll::Ready(Ok(())) => {
                    let response = service.call(request);
                    drop(service);
                    self.poll_response(response, cx)
                }
            },
            State::InFlight(response) => self.poll_response(response, cx),
            State::Done => unreachable!(),
        }
    }
}

impl<S: Service<Request>, Request: Drop> Oneshot<S, Request> {
    // Polls the response, and keeps it unless it is `Ok`.
    fn poll_response(
        &mut self,
        mut response: S::Future,
        cx: &mut Context<'_>,
    ) -> Poll<Result<S::Response, S::Error>>
        requires { S.Future.can_poll response }
        ensures stepped { ResponseStepped S.Service S.Future.stepped response result
            self.new.state }
        ensures again { OnPending result (⟦<Oneshot<S, Request> as Steps>⟧.can_poll self.new) }
        ensures registered { OnPending result
            (Covers cx.new (⟦<Oneshot<S, Request> as Steps>⟧.needs self.new)) }
        ensures quiet { Quiet (ResponseStirs S.Future.stirs response self.new.state) cx.old cx.new }
        ensures kept { Keeps cx.old cx.new }
    {
        let answer = response.step(cx);
        self.state = match &answer {
            Poll::Ready(Ok(_)) => State::Done,
            _ => State::InFlight(response),
        };
        answer
    }
}
