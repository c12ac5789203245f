//! A service that a future returns. It is the Rust's `util/future_service.rs`; the kit doesn't accept
//! that name beside the function of the same name.
ghost use Rattle.std.specs.Prelude.{◌≡◌, Ok, ⊤, ℕ};
ghost use Rattle.futures.specs.Poll.{OnPending};
ghost use Rattle.futures.specs.Task.{Hears, IsArmed, Keeps};
ghost use Rattle.tower_base.specs.Gives.{IsStep, MayGive};
ghost use Rattle.tower_base.specs.Answers.{answered};
ghost use Rattle.tower_base.specs.Quiet.{Quiet};
ghost use Rattle.tower_util.specs.FutureService.{Polled, Called, Stepped, Stirs, IsThere};
ghost use Rattle.tower_util.specs.FutureServiceReady.{polled_ready};
ghost use Rattle.tower_util.specs.declared.util.error.future_service.Error.TheVariants.{Inner};
ghost use Rattle.tower_util.specs.declared.util.from_future.State.{State as FutureServiceState};
ghost use Rattle.tower_util.specs.declared.util.from_future.State.TheVariants.{Coming, There, Lost};

use crate::util::error::future_service::Error;
use futures::future::Future;
use futures::ready;
use futures::task::{Context, Poll};
use std::marker::Model;
use tower_base::service::{Service, Steps};

/// A service that a future returns. It is the Rust's `tower::util::FutureService`.
///
/// It is ready once the future has returned the service and that service is ready. An error of the
/// future is returned once. Later polls return `Gone`, while the Rust polls the finished future again.
#[derive(Clone, Drop)]
pub struct FutureService<F, S> {
    state: State<F, S>,
}

/// The state of a `FutureService`.
#[derive(Clone, Drop)]
pub enum State<F, S> {
    /// The future, which hasn't returned the service yet.
    Coming(F),
    /// The service that the future returned.
    There(S),
    /// The future returned an error.
    Lost,
}

impl<F, S> Model for FutureService<F, S> {
    ghost Value = { FutureServiceState F S };

    ghost view = { λ m. m.state };
}

impl<F, S> FutureService<F, S> {
    /// Creates the service. Doesn't poll the future.
    pub fn new(future: F) -> FutureService<F, S>
        ensures { result ≡ Coming future }
    {
        FutureService {
            state: State::Coming(future),
        }
    }
}

/// Creates a `FutureService`. It is the Rust's `tower::util::future_service`.
pub fn future_service<F, S>(future: F) -> FutureService<F, S>
    ensures { result ≡ Coming future }
{
    FutureService::new(future)
}

impl<R, F, S> Service<R> for FutureService<F, S>
where
    F: Steps<Output = Result<S, S::Error>>,
    S: Service<R>,
{
    type Response = S::Response;

    type Error = Error<S::Error>;

    type Future = FutureServiceFuture<S::Future>;

    // The future may be polled, and any service that it may return is sound.
    ghost sound = { elim [
      | Coming future ↦ F.can_poll future
          × ((service : S) → MayGive F.stepped future (Ok service) → S.sound service)
      | There service ↦ S.sound service
      | Lost ↦ ⊤
    ] };

    ghost ready = { IsThere S.ready };

    ghost polled = { Polled F.stepped S.polled };

    ghost needs = { elim [
      | Coming future ↦ F.needs future
      | There service ↦ S.needs service
      | Lost ↦ λ _. ⊥
    ] };

    ghost stirs = { Stirs F.Steps.own S.stirs };

    ghost called = { Called S.ready S.called };

    ghost readies = { polled_ready F.stepped S.polled S.ready S.readies };

    #[tactic(auto, using(tower_base::specs::GivesLemmas::gives_value, tower_base::specs::GivesLemmas::gives_same))]
    fn poll_ready(&mut self, cx: &mut Context<'_>) -> Poll<Result<(), Error<S::Error>>> {
        match &mut self.state {
            State::Coming(future) => match future.step(cx) {
                Poll::Pending => Poll::Pending,
                Poll::Ready(Err(error)) => {
                    self.state = State::Lost;
                    Poll::Ready(Err(Error::Inner(error)))
                }
                Poll::Ready(Ok(mut service)) => {
                    let answer = serve::<R, S>(&mut service, cx);
                    self.state = State::There(service);
                    answer
                }
            },
            State::There(service) => serve::<R, S>(service, cx),
            State::Lost => Poll::Ready(Err(Error::Gone)),
        }
    }

    fn call(&mut self, request: R) -> FutureServiceFuture<S::Future> {
        let State::There(service) = &mut self.state else {
            unreachable!()
        };
        FutureServiceFuture {
            inner: service.call(request),
        }
    }
}

// Polls the service, and wraps its error in `Inner`.
fn serve<R, S: Service<R>>(
    service: &mut S,
    cx: &mut Context<'_>,
) -> Poll<Result<(), Error<S::Error>>>
    requires { S.sound service.old }
    ensures sound { S.sound service.new }
    ensures served { (inner : _) × S.polled service.old inner service.new
        × (result ≡ answered Inner inner) }
    ensures armed { OnPending result (IsArmed cx.new) }
    ensures heard { OnPending result ((s : ℕ) → S.needs service.new s → Hears cx.new s) }
    ensures quiet { Quiet (S.stirs service.old service.new) cx.old cx.new }
    ensures kept { Keeps cx.old cx.new }
{
    match ready!(service.poll_ready(cx)) {
        Ok(()) => Poll::Ready(Ok(())),
        Err(error) => Poll::Ready(Err(Error::Inner(error))),
    }
}

/// The response future of a `FutureService`.
#[derive(Drop)]
pub struct FutureServiceFuture<N> {
    inner: N,
}

impl<N> Model for FutureServiceFuture<N> {
    ghost Value = { N };

    ghost view = { λ t. t.inner };
}

impl<N: Steps<Output = Result<A, E>>, A, E> Future for FutureServiceFuture<N> {
    type Output = Result<A, Error<E>>;

    ghost can_poll = { N.can_poll };

    ghost gives = { MayGive (Stepped N.stepped) };

    ghost needs = { N.needs };

    #[tactic(auto, using(tower_base::specs::GivesLemmas::one_step))]
    fn poll(&mut self, cx: &mut Context<'_>) -> Poll<Result<A, Error<E>>>
        requires { ⟦<FutureServiceFuture<N> as Future>⟧.can_poll self.old }
        ensures { IsStep (Stepped N.stepped) ⟦<FutureServiceFuture<N> as Future>⟧.can_poll
            ⟦<FutureServiceFuture<N> as Future>⟧.needs self.old result self.new cx.old cx.new }
    {
        self.step(cx)
    }
}

impl<N: Steps<Output = Result<A, E>>, A, E> Steps for FutureServiceFuture<N> {
    type Output = Result<A, Error<E>>;

    ghost can_poll = { N.can_poll };

    ghost needs = { N.needs };

    ghost stirs = { N.stirs };

    ghost stepped = { Stepped N.stepped };

    fn step(&mut self, cx: &mut Context<'_>) -> Poll<Result<A, Error<E>>> {
        match ready!(self.inner.step(cx)) {
            Ok(response) => Poll::Ready(Ok(response)),
            Err(error) => Poll::Ready(Err(Error::Inner(error))),
        }
    }
}
