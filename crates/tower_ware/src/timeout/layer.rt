//! The layer of `Timeout`.
ghost use Rattle.std.specs.Prelude.{◌≡◌, ⊤};
ghost use Rattle.tower_ware.specs.Timeout.{Made, TimeoutLayerView};

use crate::timeout::Timeout;
use std::alloc::AllocError;
use std::marker::Model;
use tower_base::layer::Layer;
use tower_base::service::Clock;

/// A layer that wraps a service in a `Timeout` with a share of its clock: the Rust's
/// `tower::timeout::TimeoutLayer`.
#[derive(Drop)]
pub struct TimeoutLayer<C> {
    duration: u64,
    clock: C,
}

impl<C> Model for TimeoutLayer<C> {
    ghost Value = { TimeoutLayerView C };

    ghost view = { λ l. record { duration = l.duration; clock = l.clock } };
}

impl<C> TimeoutLayer<C> {
    /// Creates a `TimeoutLayer`. The duration is in nanoseconds.
    pub fn new(duration: u64, clock: C) -> TimeoutLayer<C>
        ensures { result ≡ record { duration = duration; clock = clock } }
    {
        TimeoutLayer { duration, clock }
    }
}

impl<S, C: Clock> Layer<S> for TimeoutLayer<C> {
    type Service = Timeout<S, C>;

    ghost made = { Made C.Clock };

    fn layer(&self, service: S) -> Result<Timeout<S, C>, AllocError> {
        Ok(Timeout::new(service, self.duration, self.clock.share()))
    }
}

/// A clone shares the clock.
impl<C: Clock> Clone for TimeoutLayer<C> {
    ghost is_clone = { λ layer copy. C.shared layer.clock copy.clock
        × (copy.duration ≡ layer.duration) };

    ghost is_infallible = { λ _. ⊤ };

    fn clone(&self) -> Result<TimeoutLayer<C>, AllocError> {
        Ok(TimeoutLayer::new(self.duration, self.clock.share()))
    }
}
