//! A service that continues with a second future after each result.
ghost use Rattle.std.specs.Prelude.{◌≡◌, Result};
ghost use Rattle.tower_base.specs.Gives.{IsStep, MayGive};
ghost use Rattle.tower_util.specs.Chain.{Called, Stirs, ThenStepped};
ghost use Rattle.tower_util.specs.Maps.{MapView, MapLayerView, Polled};
ghost use Rattle.tower_util.specs.MapsReady.{polled_ready};
ghost use Rattle.tower_util.specs.declared.util.chain.Chain.{Chain as Stages};
ghost use Rattle.tower_util.specs.declared.util.chain.Chain.TheVariants.{First, Second, Done};

use crate::util::chain::Chain;
use futures::future::Future;
use futures::ready;
use futures::task::{Context, Poll};
use std::alloc::AllocError;
use std::marker::Model;
use tower_base::layer::Layer;
use tower_base::service::{Service, Steps};

/// A service that continues from each result with a future that a closure makes of it: the Rust's
/// `tower::util::Then`. An error of readiness is only converted.
#[derive(Clone, Drop)]
pub struct Then<S, F> {
    inner: S,
    f: F,
}

impl<S, F> Model for Then<S, F> {
    ghost Value = { MapView S F };

    ghost view = { λ m. record { inner = m.inner; f = m.f } };
}

impl<S, F> Then<S, F> {
    /// Wraps the service. Doesn't call the closure.
    pub fn new(inner: S, f: F) -> Then<S, F>
        ensures { result ≡ record { inner = inner; f = f } }
    {
        Then { inner, f }
    }

    /// Returns a layer that makes a `Then` with this closure.
    pub fn layer(f: F) -> ThenLayer<F>
        ensures { result ≡ record { f = f } }
    {
        ThenLayer::new(f)
    }
}

impl<S, F, Request, Fut, T, U> Service<Request> for Then<S, F>
where
    S: Service<Request>,
    F: Fn(Result<S::Response, S::Error>) -> Fut + Copy,
    Fut: Steps<Output = Result<T, U>>,
    T: Drop,
    U: From<S::Error> + Drop,
{
    type Response = T;

    type Error = U;

    type Future = ThenFuture<S::Future, Fut, F>;

    // The futures that the closure returns may be polled.
    ghost sound = { λ m. S.sound m.inner × F.IsAlwaysCallable m.f
        × ((x : _) (future : Fut) → F.post m.f x future → Fut.can_poll future) };

    ghost ready = { λ m. S.ready m.inner };

    ghost polled = { Polled S.polled (λ _. U.from_gives) };

    ghost needs = { λ m. S.needs m.inner };

    ghost stirs = { λ old new. S.stirs old.inner new.inner };

    ghost called = { Called S.ready S.called };

    ghost readies = { polled_ready S.polled (λ _. U.from_gives) S.ready S.readies };

    fn poll_ready(&mut self, cx: &mut Context<'_>) -> Poll<Result<(), U>> {
        match ready!(self.inner.poll_ready(cx)) {
            Ok(()) => Poll::Ready(Ok(())),
            Err(error) => Poll::Ready(Err(U::from(error))),
        }
    }

    fn call(&mut self, request: Request) -> ThenFuture<S::Future, Fut, F> {
        ThenFuture {
            state: Chain::First(self.inner.call(request), self.f),
        }
    }
}

/// The response future of a `Then`. It is the Rust's `tower::util::future::ThenFuture`.
#[derive(Drop)]
pub struct ThenFuture<F1, F2, N> {
    state: Chain<F1, F2, N>,
}

impl<F1, F2, N> Model for ThenFuture<F1, F2, N> {
    ghost Value = { Stages F1 F2 N };

    ghost view = { λ t. t.state };
}

impl<F1, F2, N, A, E, T, U> Future for ThenFuture<F1, F2, N>
where
    F1: Steps<Output = Result<A, E>>,
    F2: Steps<Output = Result<T, U>>,
    N: Fn(Result<A, E>) -> F2 + Copy,
{
    type Output = Result<T, U>;

    ghost can_poll = { elim [
      | First inner f ↦ F1.can_poll inner × N.IsAlwaysCallable f
          × ((x : Result A E) (second : F2) → N.post f x second → F2.can_poll second)
      | Second inner ↦ F2.can_poll inner
      | Done ↦ ⊥
    ] };

    ghost gives = { MayGive (ThenStepped F1.stepped N.post F2.stepped) };

    ghost needs = { elim [
      | First inner f ↦ F1.needs inner
      | Second inner ↦ F2.needs inner
      | Done ↦ λ _. ⊥
    ] };

    #[tactic(auto, using(tower_base::specs::GivesLemmas::one_step))]
    fn poll(&mut self, cx: &mut Context<'_>) -> Poll<Result<T, U>>
        requires { ⟦<ThenFuture<F1, F2, N> as Future>⟧.can_poll self.old }
        ensures { IsStep (ThenStepped F1.stepped N.post F2.stepped)
            ⟦<ThenFuture<F1, F2, N> as Future>⟧.can_poll ⟦<ThenFuture<F1, F2, N> as Future>⟧.needs
            self.old result self.new cx.old cx.new }
    {
        self.step(cx)
    }
}

impl<F1, F2, N, A, E, T, U> Steps for ThenFuture<F1, F2, N>
where
    F1: Steps<Output = Result<A, E>>,
    F2: Steps<Output = Result<T, U>>,
    N: Fn(Result<A, E>) -> F2 + Copy,
{
    type Output = Result<T, U>;

    ghost can_poll = { elim [
      | First inner f ↦ F1.can_poll inner × N.IsAlwaysCallable f
          × ((x : Result A E) (second : F2) → N.post f x second → F2.can_poll second)
      | Second inner ↦ F2.can_poll inner
      | Done ↦ ⊥
    ] };

    ghost needs = { elim [
      | First inner f ↦ F1.needs inner
      | Second inner ↦ F2.needs inner
      | Done ↦ λ _. ⊥
    ] };

    ghost stirs = { Stirs F1.stirs F2.stirs };

    ghost stepped = { ThenStepped F1.stepped N.post F2.stepped };

    fn step(&mut self, cx: &mut Context<'_>) -> Poll<Result<T, U>> {
        if let Chain::First(first, f) = &mut self.state {
            let result = ready!(first.step(cx));
            let f = *f;
            // The first future is dropped before the closure is called.
            self.state = Chain::Done;
            self.state = Chain::Second(f(result));
        }
        let Chain::Second(second) = &mut self.state else {
            unreachable!()
        };
        let polled = second.step(cx);
        if polled.is_ready() {
            self.state = Chain::Done;
        }
        polled
    }
}

/// A layer that wraps a service in a `Then`. It is the Rust's `tower::util::ThenLayer`.
#[derive(Clone, Drop)]
pub struct ThenLayer<F> {
    f: F,
}

impl<F> Model for ThenLayer<F> {
    ghost Value = { MapLayerView F };

    ghost view = { λ l. record { f = l.f } };
}

impl<F> ThenLayer<F> {
    /// Creates a layer that gives each service a copy of the closure.
    pub fn new(f: F) -> ThenLayer<F>
        ensures { result ≡ record { f = f } }
    {
        ThenLayer { f }
    }
}

impl<S, F: Copy> Layer<S> for ThenLayer<F> {
    type Service = Then<S, F>;

    ghost made = { λ layer service made. made ≡ record { inner = service; f = layer.f } };

    fn layer(&self, service: S) -> Result<Then<S, F>, AllocError> {
        Ok(Then::new(service, self.f))
    }
}
