//! A service that changes the results of another by a closure.
ghost use Rattle.std.specs.Prelude.{◌≡◌, Option};
ghost use Rattle.tower_base.specs.Gives.{IsStep, MayGive};
ghost use Rattle.tower_util.specs.Fuse.{CanPoll, Stirs, needs_of};
ghost use Rattle.tower_util.specs.Maps.{MapView, MapLayerView, Polled, Called, MapResultStepped};
ghost use Rattle.tower_util.specs.MapsReady.{polled_ready};

use crate::util::fuse::Fuse;
use futures::future::Future;
use futures::ready;
use futures::task::{Context, Poll};
use std::alloc::AllocError;
use std::marker::Model;
use tower_base::layer::Layer;
use tower_base::service::{Service, Steps};

/// A service that changes each result by a closure: the Rust's `tower::util::MapResult`. An error of
/// readiness is only converted.
#[derive(Clone, Drop)]
pub struct MapResult<S, F> {
    inner: S,
    f: F,
}

impl<S, F> Model for MapResult<S, F> {
    ghost Value = { MapView S F };

    ghost view = { λ m. record { inner = m.inner; f = m.f } };
}

impl<S, F> MapResult<S, F> {
    /// Wraps the service. Doesn't call the closure.
    pub fn new(inner: S, f: F) -> MapResult<S, F>
        ensures { result ≡ record { inner = inner; f = f } }
    {
        MapResult { inner, f }
    }

    /// Returns a layer that makes a `MapResult` with this closure.
    pub fn layer(f: F) -> MapResultLayer<F>
        ensures { result ≡ record { f = f } }
    {
        MapResultLayer::new(f)
    }
}

impl<S, F, Request, T, U> Service<Request> for MapResult<S, F>
where
    S: Service<Request>,
    F: Fn(Result<S::Response, S::Error>) -> Result<T, U> + Copy,
    T: Drop,
    U: From<S::Error> + Drop,
{
    type Response = T;

    type Error = U;

    type Future = MapResultFuture<S::Future, F>;

    ghost sound = { λ m. S.sound m.inner × F.IsAlwaysCallable m.f };

    ghost ready = { λ m. S.ready m.inner };

    ghost polled = { Polled S.polled (λ _. U.from_gives) };

    ghost needs = { λ m. S.needs m.inner };

    ghost stirs = { λ old new. S.stirs old.inner new.inner };

    ghost called = { Called S.ready S.called };

    ghost readies = { polled_ready S.polled (λ _. U.from_gives) S.ready S.readies };

    fn poll_ready(&mut self, cx: &mut Context<'_>) -> Poll<Result<(), U>> {
        match ready!(self.inner.poll_ready(cx)) {
            Ok(()) => Poll::Ready(Ok(())),
            Err(error) => Poll::Ready(Err(U::from(error))),
        }
    }

    fn call(&mut self, request: Request) -> MapResultFuture<S::Future, F> {
        MapResultFuture {
            inner: Fuse::new(self.inner.call(request)),
            f: self.f,
        }
    }
}

/// The response future of a `MapResult`. It is the Rust's `tower::util::future::MapResultFuture`.
#[derive(Drop)]
pub struct MapResultFuture<F, N> {
    inner: Fuse<F>,
    f: N,
}

impl<F, N> Model for MapResultFuture<F, N> {
    ghost Value = { MapView (Option F) N };

    ghost view = { λ t. record { inner = t.inner; f = t.f } };
}

impl<F, N, A, E, T, U> Future for MapResultFuture<F, N>
where
    F: Steps<Output = Result<A, E>>,
    N: Fn(Result<A, E>) -> Result<T, U> + Copy,
{
    type Output = Result<T, U>;

    ghost can_poll = { λ t. CanPoll F.can_poll t.inner × N.IsAlwaysCallable t.f };

    ghost gives = { MayGive (MapResultStepped F.stepped N.post) };

    ghost needs = { λ t. needs_of F.needs t.inner };

    #[tactic(auto, using(tower_base::specs::GivesLemmas::one_step))]
    fn poll(&mut self, cx: &mut Context<'_>) -> Poll<Result<T, U>>
        requires { ⟦<MapResultFuture<F, N> as Future>⟧.can_poll self.old }
        ensures { IsStep (MapResultStepped F.stepped N.post)
            ⟦<MapResultFuture<F, N> as Future>⟧.can_poll ⟦<MapResultFuture<F, N> as Future>⟧.needs
            self.old result self.new cx.old cx.new }
    {
        self.step(cx)
    }
}

impl<F, N, A, E, T, U> Steps for MapResultFuture<F, N>
where
    F: Steps<Output = Result<A, E>>,
    N: Fn(Result<A, E>) -> Result<T, U> + Copy,
{
    type Output = Result<T, U>;

    ghost can_poll = { λ t. CanPoll F.can_poll t.inner × N.IsAlwaysCallable t.f };

    ghost needs = { λ t. needs_of F.needs t.inner };

    ghost stirs = { λ old new. Stirs F.stirs old.inner new.inner };

    ghost stepped = { MapResultStepped F.stepped N.post };

    fn step(&mut self, cx: &mut Context<'_>) -> Poll<Result<T, U>> {
        let result = ready!(self.inner.step(cx));
        Poll::Ready((self.f)(result))
    }
}

/// A layer that wraps a service in a `MapResult`. It is the Rust's `tower::util::MapResultLayer`.
#[derive(Clone, Drop)]
pub struct MapResultLayer<F> {
    f: F,
}

impl<F> Model for MapResultLayer<F> {
    ghost Value = { MapLayerView F };

    ghost view = { λ l. record { f = l.f } };
}

impl<F> MapResultLayer<F> {
    /// Creates a layer that gives each service a copy of the closure.
    pub fn new(f: F) -> MapResultLayer<F>
        ensures { result ≡ record { f = f } }
    {
        MapResultLayer { f }
    }
}

impl<S, F: Copy> Layer<S> for MapResultLayer<F> {
    type Service = MapResult<S, F>;

    ghost made = { λ layer service made. made ≡ record { inner = service; f = layer.f } };

    fn layer(&self, service: S) -> Result<MapResult<S, F>, AllocError> {
        Ok(MapResult::new(service, self.f))
    }
}
