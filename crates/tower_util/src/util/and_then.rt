//! A service that continues with a second future after each response.
ghost use Rattle.std.specs.Prelude.{◌≡◌};
ghost use Rattle.tower_base.specs.Gives.{IsStep, MayGive};
ghost use Rattle.tower_util.specs.Chain.{Called, Stirs, AndThenStepped};
ghost use Rattle.tower_util.specs.Maps.{MapView, MapLayerView, Polled};
ghost use Rattle.tower_util.specs.MapsReady.{polled_ready};
ghost use Rattle.tower_util.specs.declared.util.chain.Chain.{Chain as Stages};
ghost use Rattle.tower_util.specs.declared.util.chain.Chain.TheVariants.{First, Second, Done};

use crate::util::chain::Chain;
use futures::future::Future;
use futures::ready;
use futures::task::{Context, Poll};
use std::alloc::AllocError;
use std::marker::Model;
use tower_base::layer::Layer;
use tower_base::service::{Service, Steps};

/// A service that continues from each response with a future that a closure makes of it: the Rust's
/// `tower::util::AndThen`. An error is only converted.
#[derive(Clone, Drop)]
pub struct AndThen<S, F> {
    inner: S,
    f: F,
}

impl<S, F> Model for AndThen<S, F> {
    ghost Value = { MapView S F };

    ghost view = { λ m. record { inner = m.inner; f = m.f } };
}

impl<S, F> AndThen<S, F> {
    /// Wraps the service. Doesn't call the closure.
    pub fn new(inner: S, f: F) -> AndThen<S, F>
        ensures { result ≡ record { inner = inner; f = f } }
    {
        AndThen { inner, f }
    }

    /// Returns a layer that makes an `AndThen` with this closure.
    pub fn layer(f: F) -> AndThenLayer<F>
        ensures { result ≡ record { f = f } }
    {
        AndThenLayer::new(f)
    }
}

impl<S, F, Request, Fut, T, U> Service<Request> for AndThen<S, F>
where
    S: Service<Request>,
    F: Fn(S::Response) -> Fut + Copy,
    Fut: Steps<Output = Result<T, U>>,
    T: Drop,
    U: From<S::Error> + Drop,
{
    type Response = T;

    type Error = U;

    type Future = AndThenFuture<S::Future, Fut, F>;

    // The futures that the closure returns may be polled.
    ghost sound = { λ m. S.sound m.inner × F.IsAlwaysCallable m.f
        × ((x : _) (future : Fut) → F.post m.f x future → Fut.can_poll future) };

    ghost ready = { λ m. S.ready m.inner };

    ghost polled = { Polled S.polled (λ _. U.from_gives) };

    ghost needs = { λ m. S.needs m.inner };

    ghost stirs = { λ old new. S.stirs old.inner new.inner };

    ghost called = { Called S.ready S.called };

    ghost readies = { polled_ready S.polled (λ _. U.from_gives) S.ready S.readies };

    fn poll_ready(&mut self, cx: &mut Context<'_>) -> Poll<Result<(), U>> {
        match ready!(self.inner.poll_ready(cx)) {
            Ok(()) => Poll::Ready(Ok(())),
            Err(error) => Poll::Ready(Err(U::from(error))),
        }
    }

    fn call(&mut self, request: Request) -> AndThenFuture<S::Future, Fut, F> {
        AndThenFuture {
            state: Chain::First(self.inner.call(request), self.f),
        }
    }
}

/// The response future of an `AndThen`. It is the Rust's `tower::util::future::AndThenFuture`.
#[derive(Drop)]
pub struct AndThenFuture<F1, F2, N> {
    state: Chain<F1, F2, N>,
}

impl<F1, F2, N> Model for AndThenFuture<F1, F2, N> {
    ghost Value = { Stages F1 F2 N };

    ghost view = { λ t. t.state };
}

impl<F1, F2, N, A, E, T, U> Future for AndThenFuture<F1, F2, N>
where
    F1: Steps<Output = Result<A, E>>,
    F2: Steps<Output = Result<T, U>>,
    N: Fn(A) -> F2 + Copy,
    U: From<E>,
{
    type Output = Result<T, U>;

    ghost can_poll = { elim [
      | First inner f ↦ F1.can_poll inner × N.IsAlwaysCallable f
          × ((x : A) (second : F2) → N.post f x second → F2.can_poll second)
      | Second inner ↦ F2.can_poll inner
      | Done ↦ ⊥
    ] };

    ghost gives = { MayGive (AndThenStepped F1.stepped N.post F2.stepped U.from_gives) };

    ghost needs = { elim [
      | First inner f ↦ F1.needs inner
      | Second inner ↦ F2.needs inner
      | Done ↦ λ _. ⊥
    ] };

    #[tactic(auto, using(tower_base::specs::GivesLemmas::one_step))]
    fn poll(&mut self, cx: &mut Context<'_>) -> Poll<Result<T, U>>
        requires { ⟦<AndThenFuture<F1, F2, N> as Future>⟧.can_poll self.old }
        ensures { IsStep (AndThenStepped F1.stepped N.post F2.stepped U.from_gives)
            ⟦<AndThenFuture<F1, F2, N> as Future>⟧.can_poll
            ⟦<AndThenFuture<F1, F2, N> as Future>⟧.needs self.old result self.new cx.old cx.new }
    {
        self.step(cx)
    }
}

impl<F1, F2, N, A, E, T, U> Steps for AndThenFuture<F1, F2, N>
where
    F1: Steps<Output = Result<A, E>>,
    F2: Steps<Output = Result<T, U>>,
    N: Fn(A) -> F2 + Copy,
    U: From<E>,
{
    type Output = Result<T, U>;

    ghost can_poll = { elim [
      | First inner f ↦ F1.can_poll inner × N.IsAlwaysCallable f
          × ((x : A) (second : F2) → N.post f x second → F2.can_poll second)
      | Second inner ↦ F2.can_poll inner
      | Done ↦ ⊥
    ] };

    ghost needs = { elim [
      | First inner f ↦ F1.needs inner
      | Second inner ↦ F2.needs inner
      | Done ↦ λ _. ⊥
    ] };

    ghost stirs = { Stirs F1.stirs F2.stirs };

    ghost stepped = { AndThenStepped F1.stepped N.post F2.stepped U.from_gives };

    fn step(&mut self, cx: &mut Context<'_>) -> Poll<Result<T, U>> {
        if let Chain::First(first, f) = &mut self.state {
            let result = ready!(first.step(cx));
            let f = *f;
            // The first future is dropped before the closure is called.
            self.state = Chain::Done;
            match result {
                Ok(response) => self.state = Chain::Second(f(response)),
                Err(error) => return Poll::Ready(Err(U::from(error))),
            }
        }
        let Chain::Second(second) = &mut self.state else {
            unreachable!()
        };
        let polled = second.step(cx);
        if polled.is_ready() {
            self.state = Chain::Done;
        }
        polled
    }
}

/// A layer that wraps a service in an `AndThen`. It is the Rust's `tower::util::AndThenLayer`.
#[derive(Clone, Drop)]
pub struct AndThenLayer<F> {
    f: F,
}

impl<F> Model for AndThenLayer<F> {
    ghost Value = { MapLayerView F };

    ghost view = { λ l. record { f = l.f } };
}

impl<F> AndThenLayer<F> {
    /// Creates a layer that gives each service a copy of the closure.
    pub fn new(f: F) -> AndThenLayer<F>
        ensures { result ≡ record { f = f } }
    {
        AndThenLayer { f }
    }
}

impl<S, F: Copy> Layer<S> for AndThenLayer<F> {
    type Service = AndThen<S, F>;

    ghost made = { λ layer service made. made ≡ record { inner = service; f = layer.f } };

    fn layer(&self, service: S) -> Result<AndThen<S, F>, AllocError> {
        Ok(AndThen::new(service, self.f))
    }
}
