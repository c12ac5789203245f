//! The layer of retries: the Rust's `tower::retry::RetryLayer`.
ghost use Rattle.std.specs.Prelude.{◌≡◌};

use crate::retry::Retry;
use std::alloc::AllocError;
use std::marker::Model;
use tower_base::layer::Layer;

/// A layer that wraps a service in a `Retry` with a clone of its policy.
#[derive(Drop)]
pub struct RetryLayer<P> {
    policy: P,
}

impl<P> Model for RetryLayer<P> {
    ghost Value = { P };

    ghost view = { λ layer. layer.policy };
}

impl<P> RetryLayer<P> {
    /// Creates a layer with the policy.
    ///
    /// `layer` returns an error and drops the service if cloning the policy fails.
    pub fn new(policy: P) -> RetryLayer<P>
        ensures { result ≡ policy }
    {
        RetryLayer { policy }
    }
}

impl<P: Clone, S: Drop> Layer<S> for RetryLayer<P> {
    type Service = Retry<P, S>;

    ghost made = { λ layer service made. P.is_clone layer made.policy × (made.service ≡ service) };

    fn layer(&self, service: S) -> Result<Retry<P, S>, AllocError> {
        let policy = self.policy.clone()?;
        Ok(Retry::new(policy, service))
    }
}

impl<P: Clone> Clone for RetryLayer<P> {
    ghost is_clone = { P.is_clone };

    ghost is_infallible = { P.is_infallible };

    fn clone(&self) -> Result<RetryLayer<P>, AllocError> {
        Ok(RetryLayer::new(self.policy.clone()?))
    }
}
