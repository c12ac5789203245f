//! A service that changes the requests for another by a closure.
ghost use Rattle.std.specs.Prelude.{◌≡◌};
ghost use Rattle.tower_util.specs.Maps.{MapView, MapLayerView};

use futures::task::{Context, Poll};
use std::alloc::AllocError;
use std::marker::Model;
use tower_base::layer::Layer;
use tower_base::service::Service;

/// A service that changes each request by a closure. It is the Rust's `tower::util::MapRequest`.
#[derive(Clone, Drop)]
pub struct MapRequest<S, F> {
    inner: S,
    f: F,
}

impl<S, F> Model for MapRequest<S, F> {
    ghost Value = { MapView S F };

    ghost view = { λ m. record { inner = m.inner; f = m.f } };
}

impl<S, F> MapRequest<S, F> {
    /// Wraps the service. Doesn't call the closure.
    pub fn new(inner: S, f: F) -> MapRequest<S, F>
        ensures { result ≡ record { inner = inner; f = f } }
    {
        MapRequest { inner, f }
    }

    /// Returns a layer that makes a `MapRequest` with this closure.
    pub fn layer(f: F) -> MapRequestLayer<F>
        ensures { result ≡ record { f = f } }
    {
        MapRequestLayer::new(f)
    }
}

impl<S: Service<R2>, F: FnMut(R1) -> R2 + Drop, R1, R2> Service<R1> for MapRequest<S, F> {
    type Response = S::Response;

    type Error = S::Error;

    type Future = S::Future;

    ghost sound = { λ m. S.sound m.inner × F.IsAlwaysCallable m.f };

    ghost ready = { λ m. S.ready m.inner };

    ghost polled = { λ old answer new. S.polled old.inner answer new.inner × (new.f ≡ old.f) };

    ghost needs = { λ m. S.needs m.inner };

    ghost stirs = { λ old new. S.stirs old.inner new.inner };

    // A call calls the closure once, and the inner service once with the request that the closure returned.
    ghost called = { λ old request future new. (inner : _) × F.step old.f request inner new.f
        × S.ready old.inner × S.called old.inner inner future new.inner };

    ghost readies = { λ old new polled. S.readies old.inner new.inner polled.0 };

    fn poll_ready(&mut self, cx: &mut Context<'_>) -> Poll<Result<(), S::Error>> {
        self.inner.poll_ready(cx)
    }

    fn call(&mut self, request: R1) -> S::Future {
        let request = (self.f)(request);
        self.inner.call(request)
    }
}

/// A layer that wraps a service in a `MapRequest`. It is the Rust's `tower::util::MapRequestLayer`.
#[derive(Clone, Drop)]
pub struct MapRequestLayer<F> {
    f: F,
}

impl<F> Model for MapRequestLayer<F> {
    ghost Value = { MapLayerView F };

    ghost view = { λ l. record { f = l.f } };
}

impl<F> MapRequestLayer<F> {
    /// Creates a layer that gives each service a clone of the closure. If cloning fails, the service is
    /// dropped.
    pub fn new(f: F) -> MapRequestLayer<F>
        ensures { result ≡ record { f = f } }
    {
        MapRequestLayer { f }
    }
}

impl<S: Drop, F: Clone> Layer<S> for MapRequestLayer<F> {
    type Service = MapRequest<S, F>;

    ghost made = { λ layer service made. (made.inner ≡ service) × F.is_clone layer.f made.f };

    fn layer(&self, service: S) -> Result<MapRequest<S, F>, AllocError> {
        Ok(MapRequest::new(service, self.f.clone()?))
    }
}
