//! The layer of a rate limit.
ghost use Rattle.std.specs.Prelude.{◌≡◌, ◌≢◌};
ghost use Rattle.tower_limit.specs.Rate.{RateLimitLayerView, Made};

use crate::limit::rate::{Rate, RateLimit};
use std::alloc::{AllocError, Global};
use std::marker::Model;
use tower_base::layer::Layer;
use tower_base::service::Clock;

/// Wraps a service in a `RateLimit`, with a share of the clock: the Rust's
/// `tower::limit::RateLimitLayer`. `layer` fails if `RateLimit::new` does.
#[derive(Drop)]
pub struct RateLimitLayer<C> {
    alloc: Global,
    rate: Rate,
    clock: C,
}

impl<C> Model for RateLimitLayer<C> {
    ghost Value = { RateLimitLayerView C };

    // The view leaves out `alloc`: it never changes, and has no state.
    ghost view = { λ l. record { num = l.rate.num; per = l.rate.per; clock = l.clock } };
}

impl<C> RateLimitLayer<C> {
    /// Creates a layer whose limits allow at most `num` calls in `per` nanoseconds. Requires what
    /// `Rate::fits` tests.
    pub fn new(alloc: Global, num: u64, per: u64, clock: C) -> RateLimitLayer<C>
        requires num { num ≢ 0 }
        requires per { per ≢ 0 }
        ensures { result ≡ record { num = num; per = per; clock = clock } }
    {
        let rate = Rate::new(num, per);
        RateLimitLayer { alloc, rate, clock }
    }
}

impl<S: Drop, C: Clock> Layer<S> for RateLimitLayer<C> {
    type Service = RateLimit<S, C>;

    ghost made = { Made C.Clock };

    fn layer(&self, service: S) -> Result<RateLimit<S, C>, AllocError> {
        RateLimit::new(self.alloc, service, self.rate, self.clock.share())
    }
}

/// A clone shares the clock.
impl<C: Clock> Clone for RateLimitLayer<C> {
    ghost is_clone = { λ layer copy. (copy.num ≡ layer.num) × (copy.per ≡ layer.per)
        × C.shared layer.clock copy.clock };

    fn clone(&self) -> Result<RateLimitLayer<C>, AllocError> {
        Ok(RateLimitLayer {
            alloc: self.alloc,
            rate: self.rate,
            clock: self.clock.share(),
        })
    }
}
