//! A service that changes the futures of another by a closure.
ghost use Rattle.std.specs.Prelude.{◌≡◌};
ghost use Rattle.tower_util.specs.Maps.{MapView, MapLayerView, Polled};
ghost use Rattle.tower_util.specs.MapsReady.{polled_ready};

use futures::ready;
use futures::task::{Context, Poll};
use std::alloc::AllocError;
use std::marker::Model;
use tower_base::layer::Layer;
use tower_base::service::{Service, Steps};

/// A service that changes each future by a closure: the Rust's `tower::util::MapFuture`. An error of
/// readiness is only converted.
#[derive(Clone, Drop)]
pub struct MapFuture<S, F> {
    inner: S,
    f: F,
}

impl<S, F> Model for MapFuture<S, F> {
    ghost Value = { MapView S F };

    ghost view = { λ m. record { inner = m.inner; f = m.f } };
}

impl<S, F> MapFuture<S, F> {
    /// Wraps the service. Doesn't call the closure.
    pub fn new(inner: S, f: F) -> MapFuture<S, F>
        ensures { result ≡ record { inner = inner; f = f } }
    {
        MapFuture { inner, f }
    }

    /// Returns a layer that makes a `MapFuture` with this closure.
    pub fn layer(f: F) -> MapFutureLayer<F>
        ensures { result ≡ record { f = f } }
    {
        MapFutureLayer::new(f)
    }
}

impl<R, S, F, T, E, Fut> Service<R> for MapFuture<S, F>
where
    S: Service<R>,
    F: FnMut(S::Future) -> Fut + Drop,
    E: From<S::Error> + Drop,
    Fut: Steps<Output = Result<T, E>>,
    T: Drop,
{
    type Response = T;

    type Error = E;

    type Future = Fut;

    // From a future that may be polled, the closure makes one that may be polled.
    ghost sound = { λ m. S.sound m.inner × F.IsAlwaysCallable m.f
        × ((f g : F) (inner : _) (future : Fut) → S.Future.can_poll inner → F.step f inner future g
        → Fut.can_poll future) };

    ghost ready = { λ m. S.ready m.inner };

    ghost polled = { Polled S.polled (λ _. E.from_gives) };

    ghost needs = { λ m. S.needs m.inner };

    ghost stirs = { λ old new. S.stirs old.inner new.inner };

    // A call calls the inner service once, and the closure once with the future that this returned.
    ghost called = { λ old request future new. (inner : _) × S.ready old.inner
        × S.called old.inner request inner new.inner × F.step old.f inner future new.f };

    ghost readies = { polled_ready S.polled (λ _. E.from_gives) S.ready S.readies };

    fn poll_ready(&mut self, cx: &mut Context<'_>) -> Poll<Result<(), E>> {
        match ready!(self.inner.poll_ready(cx)) {
            Ok(()) => Poll::Ready(Ok(())),
            Err(error) => Poll::Ready(Err(E::from(error))),
        }
    }

    fn call(&mut self, request: R) -> Fut {
        let future = self.inner.call(request);
        (self.f)(future)
    }
}

impl<S, F> MapFuture<S, F> {
    ghost use Rattle.std.specs.Borrow.{sem};
    ghost use Rattle.tower_util.specs.MapFutureLends.{LendsInner};

    /// Returns the inner service by reference.
    pub fn get_ref(&self) -> &S
        ensures { result.now ≡ self.now.inner }
    {
        &self.inner
    }

    /// Returns the inner service by mutable reference.
    pub fn get_mut(&mut self) -> &mut S
        ensures* writes_back { sem 𝓛 (LendsInner S.row F.row self.entry result) }
        ensures value { result.now ≡ self.old.inner }
    {
        &mut self.inner
    }

    /// Returns the inner service, and drops the closure.
    pub fn into_inner(self) -> S
    where
        F: Drop,
        ensures { result ≡ self.inner }
    {
        self.inner
    }
}

/// A layer that wraps a service in a `MapFuture`. It is the Rust's `tower::util::MapFutureLayer`.
#[derive(Clone, Drop)]
pub struct MapFutureLayer<F> {
    f: F,
}

impl<F> Model for MapFutureLayer<F> {
    ghost Value = { MapLayerView F };

    ghost view = { λ l. record { f = l.f } };
}

impl<F> MapFutureLayer<F> {
    /// Creates a layer that gives each service a clone of the closure. If cloning fails, the service is
    /// dropped.
    pub fn new(f: F) -> MapFutureLayer<F>
        ensures { result ≡ record { f = f } }
    {
        MapFutureLayer { f }
    }
}

impl<S: Drop, F: Clone> Layer<S> for MapFutureLayer<F> {
    type Service = MapFuture<S, F>;

    ghost made = { λ layer service made. (made.inner ≡ service) × F.is_clone layer.f made.f };

    fn layer(&self, service: S) -> Result<MapFuture<S, F>, AllocError> {
        Ok(MapFuture::new(service, self.f.clone()?))
    }
}
