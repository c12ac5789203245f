//! The layer of `Traced`.
ghost use Rattle.std.specs.Prelude.{◌≡◌, ⊤};
ghost use Rattle.tower_meter.specs.Traced.{TracedLayerView, Made, IsLayerClone};

use crate::traced::Traced;
use std::alloc::AllocError;
use std::marker::Model;
use tower_base::layer::Layer;
use tower_base::service::Clock;

/// A layer that wraps each service in a `Traced`.
#[derive(Drop)]
pub struct TracedLayer<C, N> {
    clock: C,
    trace: N,
}

impl<C, N> Model for TracedLayer<C, N> {
    ghost Value = { TracedLayerView C N };

    ghost view = { λ l. record { clock = l.clock; trace = l.trace } };
}

impl<C, N> TracedLayer<C, N> {
    /// Creates a layer whose services tell this.
    pub fn new(clock: C, trace: N) -> TracedLayer<C, N>
        ensures { result ≡ record { clock = clock; trace = trace } }
    {
        TracedLayer { clock, trace }
    }
}

impl<S: Drop, C: Clock, N: Copy> Layer<S> for TracedLayer<C, N> {
    type Service = Traced<S, C, N>;

    ghost made = { Made C.Clock };

    fn layer(&self, service: S) -> Result<Traced<S, C, N>, AllocError> {
        Ok(Traced::new(service, self.clock.share(), self.trace))
    }
}

/// A clone shares the clock.
impl<C: Clock, N: Copy> Clone for TracedLayer<C, N> {
    ghost is_clone = { IsLayerClone C.Clock };

    ghost is_infallible = { λ _. ⊤ };

    fn clone(&self) -> Result<TracedLayer<C, N>, AllocError> {
        Ok(TracedLayer::new(self.clock.share(), self.trace))
    }
}
