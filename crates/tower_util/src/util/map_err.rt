//! A service that changes the errors of another by a closure, including errors of readiness.
ghost use Rattle.std.specs.Prelude.{◌≡◌, Option};
ghost use Rattle.tower_base.specs.Gives.{IsStep, MayGive};
ghost use Rattle.tower_util.specs.Fuse.{CanPoll, Stirs, needs_of};
ghost use Rattle.tower_util.specs.Maps.{MapView, MapLayerView, Polled, Called, MapErrStepped};
ghost use Rattle.tower_util.specs.MapsReady.{polled_ready};

use crate::util::fuse::Fuse;
use futures::future::Future;
use futures::ready;
use futures::task::{Context, Poll};
use std::alloc::AllocError;
use std::marker::Model;
use tower_base::layer::Layer;
use tower_base::service::{Service, Steps};

/// A service that changes each error by a closure, including errors of readiness. It is the Rust's
/// `tower::util::MapErr`.
#[derive(Clone, Drop)]
pub struct MapErr<S, F> {
    inner: S,
    f: F,
}

impl<S, F> Model for MapErr<S, F> {
    ghost Value = { MapView S F };

    ghost view = { λ m. record { inner = m.inner; f = m.f } };
}

impl<S, F> MapErr<S, F> {
    /// Wraps the service. Doesn't call the closure.
    pub fn new(inner: S, f: F) -> MapErr<S, F>
        ensures { result ≡ record { inner = inner; f = f } }
    {
        MapErr { inner, f }
    }

    /// Returns a layer that makes a `MapErr` with this closure.
    pub fn layer(f: F) -> MapErrLayer<F>
        ensures { result ≡ record { f = f } }
    {
        MapErrLayer::new(f)
    }
}

impl<S, F, Request, U> Service<Request> for MapErr<S, F>
where
    S: Service<Request>,
    F: Fn(S::Error) -> U + Copy,
    U: Drop,
{
    type Response = S::Response;

    type Error = U;

    type Future = MapErrFuture<S::Future, F>;

    ghost sound = { λ m. S.sound m.inner × F.IsAlwaysCallable m.f };

    ghost ready = { λ m. S.ready m.inner };

    ghost polled = { Polled S.polled F.post };

    ghost needs = { λ m. S.needs m.inner };

    ghost stirs = { λ old new. S.stirs old.inner new.inner };

    ghost called = { Called S.ready S.called };

    ghost readies = { polled_ready S.polled F.post S.ready S.readies };

    fn poll_ready(&mut self, cx: &mut Context<'_>) -> Poll<Result<(), U>> {
        match ready!(self.inner.poll_ready(cx)) {
            Ok(()) => Poll::Ready(Ok(())),
            Err(error) => Poll::Ready(Err((self.f)(error))),
        }
    }

    fn call(&mut self, request: Request) -> MapErrFuture<S::Future, F> {
        MapErrFuture {
            inner: Fuse::new(self.inner.call(request)),
            f: self.f,
        }
    }
}

/// The response future of a `MapErr`. It is the Rust's `tower::util::future::MapErrFuture`.
#[derive(Drop)]
pub struct MapErrFuture<F, N> {
    inner: Fuse<F>,
    f: N,
}

impl<F, N> Model for MapErrFuture<F, N> {
    ghost Value = { MapView (Option F) N };

    ghost view = { λ t. record { inner = t.inner; f = t.f } };
}

impl<F: Steps<Output = Result<A, E>>, N: Fn(E) -> U + Copy, A, E, U> Future for MapErrFuture<F, N> {
    type Output = Result<A, U>;

    ghost can_poll = { λ t. CanPoll F.can_poll t.inner × N.IsAlwaysCallable t.f };

    ghost gives = { MayGive (MapErrStepped F.stepped N.post) };

    ghost needs = { λ t. needs_of F.needs t.inner };

    #[tactic(auto, using(tower_base::specs::GivesLemmas::one_step))]
    fn poll(&mut self, cx: &mut Context<'_>) -> Poll<Result<A, U>>
        requires { ⟦<MapErrFuture<F, N> as Future>⟧.can_poll self.old }
        ensures { IsStep (MapErrStepped F.stepped N.post) ⟦<MapErrFuture<F, N> as Future>⟧.can_poll
            ⟦<MapErrFuture<F, N> as Future>⟧.needs self.old result self.new cx.old cx.new }
    {
        self.step(cx)
    }
}

impl<F: Steps<Output = Result<A, E>>, N: Fn(E) -> U + Copy, A, E, U> Steps for MapErrFuture<F, N> {
    type Output = Result<A, U>;

    ghost can_poll = { λ t. CanPoll F.can_poll t.inner × N.IsAlwaysCallable t.f };

    ghost needs = { λ t. needs_of F.needs t.inner };

    ghost stirs = { λ old new. Stirs F.stirs old.inner new.inner };

    ghost stepped = { MapErrStepped F.stepped N.post };

    fn step(&mut self, cx: &mut Context<'_>) -> Poll<Result<A, U>> {
        match ready!(self.inner.step(cx)) {
            Ok(response) => Poll::Ready(Ok(response)),
            Err(error) => Poll::Ready(Err((self.f)(error))),
        }
    }
}

/// A layer that wraps a service in a `MapErr`. It is the Rust's `tower::util::MapErrLayer`.
#[derive(Clone, Drop)]
pub struct MapErrLayer<F> {
    f: F,
}

impl<F> Model for MapErrLayer<F> {
    ghost Value = { MapLayerView F };

    ghost view = { λ l. record { f = l.f } };
}

impl<F> MapErrLayer<F> {
    /// Creates a layer that gives each service a copy of the closure.
    pub fn new(f: F) -> MapErrLayer<F>
        ensures { result ≡ record { f = f } }
    {
        MapErrLayer { f }
    }
}

impl<S, F: Copy> Layer<S> for MapErrLayer<F> {
    type Service = MapErr<S, F>;

    ghost made = { λ layer service made. made ≡ record { inner = service; f = layer.f } };

    fn layer(&self, service: S) -> Result<MapErr<S, F>, AllocError> {
        Ok(MapErr::new(service, self.f))
    }
}
