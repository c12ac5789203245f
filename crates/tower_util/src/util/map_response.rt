//! A service that changes the responses of another by a closure.
ghost use Rattle.std.specs.Prelude.{◌≡◌, Option};
ghost use Rattle.tower_base.specs.Gives.{IsStep, MayGive};
ghost use Rattle.tower_util.specs.Fuse.{CanPoll, Stirs, needs_of};
ghost use Rattle.tower_util.specs.Maps.{MapView, MapLayerView, Called, MapResponseStepped};

use crate::util::fuse::Fuse;
use futures::future::Future;
use futures::ready;
use futures::task::{Context, Poll};
use std::alloc::AllocError;
use std::marker::Model;
use tower_base::layer::Layer;
use tower_base::service::{Service, Steps};

/// A service that changes each response by a closure. It is the Rust's `tower::util::MapResponse`.
#[derive(Clone, Drop)]
pub struct MapResponse<S, F> {
    inner: S,
    f: F,
}

impl<S, F> Model for MapResponse<S, F> {
    ghost Value = { MapView S F };

    ghost view = { λ m. record { inner = m.inner; f = m.f } };
}

impl<S, F> MapResponse<S, F> {
    /// Wraps the service. Doesn't call the closure.
    pub fn new(inner: S, f: F) -> MapResponse<S, F>
        ensures { result ≡ record { inner = inner; f = f } }
    {
        MapResponse { inner, f }
    }

    /// Returns a layer that makes a `MapResponse` with this closure.
    pub fn layer(f: F) -> MapResponseLayer<F>
        ensures { result ≡ record { f = f } }
    {
        MapResponseLayer::new(f)
    }
}

impl<S, F, Request, T> Service<Request> for MapResponse<S, F>
where
    S: Service<Request>,
    F: Fn(S::Response) -> T + Copy,
    T: Drop,
{
    type Response = T;

    type Error = S::Error;

    type Future = MapResponseFuture<S::Future, F>;

    ghost sound = { λ m. S.sound m.inner × F.IsAlwaysCallable m.f };

    ghost ready = { λ m. S.ready m.inner };

    ghost polled = { λ old answer new. S.polled old.inner answer new.inner × (new.f ≡ old.f) };

    ghost needs = { λ m. S.needs m.inner };

    ghost stirs = { λ old new. S.stirs old.inner new.inner };

    ghost called = { Called S.ready S.called };

    ghost readies = { λ old new polled. S.readies old.inner new.inner polled.0 };

    fn poll_ready(&mut self, cx: &mut Context<'_>) -> Poll<Result<(), S::Error>> {
        self.inner.poll_ready(cx)
    }

    fn call(&mut self, request: Request) -> MapResponseFuture<S::Future, F> {
        MapResponseFuture {
            inner: Fuse::new(self.inner.call(request)),
            f: self.f,
        }
    }
}

/// The response future of a `MapResponse`. It is the Rust's `tower::util::future::MapResponseFuture`.
#[derive(Drop)]
pub struct MapResponseFuture<F, N> {
    inner: Fuse<F>,
    f: N,
}

impl<F, N> Model for MapResponseFuture<F, N> {
    ghost Value = { MapView (Option F) N };

    ghost view = { λ t. record { inner = t.inner; f = t.f } };
}

impl<F: Steps<Output = Result<A, E>>, N: Fn(A) -> B + Copy, A, B, E> Future
    for MapResponseFuture<F, N> {
    type Output = Result<B, E>;

    ghost can_poll = { λ t. CanPoll F.can_poll t.inner × N.IsAlwaysCallable t.f };

    ghost gives = { MayGive (MapResponseStepped F.stepped N.post) };

    ghost needs = { λ t. needs_of F.needs t.inner };

    #[tactic(auto, using(tower_base::specs::GivesLemmas::one_step))]
    fn poll(&mut self, cx: &mut Context<'_>) -> Poll<Result<B, E>>
        requires { ⟦<MapResponseFuture<F, N> as Future>⟧.can_poll self.old }
        ensures { IsStep (MapResponseStepped F.stepped N.post)
            ⟦<MapResponseFuture<F, N> as Future>⟧.can_poll
            ⟦<MapResponseFuture<F, N> as Future>⟧.needs self.old result self.new cx.old cx.new }
    {
        self.step(cx)
    }
}

impl<F: Steps<Output = Result<A, E>>, N: Fn(A) -> B + Copy, A, B, E> Steps
    for MapResponseFuture<F, N> {
    type Output = Result<B, E>;

    ghost can_poll = { λ t. CanPoll F.can_poll t.inner × N.IsAlwaysCallable t.f };

    ghost needs = { λ t. needs_of F.needs t.inner };

    ghost stirs = { λ old new. Stirs F.stirs old.inner new.inner };

    ghost stepped = { MapResponseStepped F.stepped N.post };

    fn step(&mut self, cx: &mut Context<'_>) -> Poll<Result<B, E>> {
        match ready!(self.inner.step(cx)) {
            Ok(response) => Poll::Ready(Ok((self.f)(response))),
            Err(error) => Poll::Ready(Err(error)),
        }
    }
}

/// A layer that wraps a service in a `MapResponse`. It is the Rust's `tower::util::MapResponseLayer`.
#[derive(Clone, Drop)]
pub struct MapResponseLayer<F> {
    f: F,
}

impl<F> Model for MapResponseLayer<F> {
    ghost Value = { MapLayerView F };

    ghost view = { λ l. record { f = l.f } };
}

impl<F> MapResponseLayer<F> {
    /// Creates a layer that gives each service a copy of the closure.
    pub fn new(f: F) -> MapResponseLayer<F>
        ensures { result ≡ record { f = f } }
    {
        MapResponseLayer { f }
    }
}

impl<S, F: Copy> Layer<S> for MapResponseLayer<F> {
    type Service = MapResponse<S, F>;

    ghost made = { λ layer service made. made ≡ record { inner = service; f = layer.f } };

    fn layer(&self, service: S) -> Result<MapResponse<S, F>, AllocError> {
        Ok(MapResponse::new(service, self.f))
    }
}
