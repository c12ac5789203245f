//! The layers that wrap a service in a `ConcurrencyLimit`.
ghost use Rattle.std.specs.Prelude.{◌≡◌, ℕ, Err, IfErr, IfOk, MatchResult};
ghost use Rattle.tower_limit.specs.Concurrency.{SemaphoreView, New, Made, SharesPermits};

use crate::limit::concurrency::line_core::LineCore;
use crate::limit::concurrency::semaphore::Semaphore;
use crate::limit::concurrency::service::ConcurrencyLimit;
use std::alloc::{AllocError, Global};
use std::marker::Model;
use std::sync::Wait;
use tower_base::layer::Layer;
use tower_latch::{Guarded, Latch};

/// Gives each service a limit of its own: the Rust's `tower::limit::ConcurrencyLimitLayer`.
#[derive(Drop)]
pub struct ConcurrencyLimitLayer<R> {
    rt: R,
    alloc: Global,
    max: usize,
}

impl<R> Model for ConcurrencyLimitLayer<R> {
    ghost Value = { ℕ };

    // The view leaves out `rt` and `alloc`: neither changes, and both only serve to make a latch.
    ghost view = { λ l. l.max };
}

impl<R> ConcurrencyLimitLayer<R> {
    /// Creates a layer that allows at most `max` calls in flight for each service.
    pub fn new(rt: R, alloc: Global, max: usize) -> ConcurrencyLimitLayer<R>
        ensures { result ≡ max }
    {
        ConcurrencyLimitLayer { rt, alloc, max }
    }
}

impl<S: Drop, R: Wait + Copy> Layer<S> for ConcurrencyLimitLayer<R> {
    type Service = ConcurrencyLimit<S, Guarded<LineCore, R>>;

    ghost made = { λ max service made. New ⟦<Guarded<LineCore, R> as Latch<LineCore>>⟧.terms
        service max made };

    fn layer(&self, service: S) -> Result<Self::Service, AllocError> {
        ConcurrencyLimit::new(self.rt, self.alloc, service, self.max)
    }
}

impl<R: Copy> Clone for ConcurrencyLimitLayer<R> {
    ghost is_clone = { λ layer copy. copy ≡ layer };

    fn clone(&self) -> Result<ConcurrencyLimitLayer<R>, AllocError> {
        Ok(ConcurrencyLimitLayer::new(self.rt, self.alloc, self.max))
    }
}

/// Gives all services one limit: the Rust's `tower::limit::GlobalConcurrencyLimitLayer`.
#[derive(Drop)]
pub struct GlobalConcurrencyLimitLayer<L: Latch<LineCore>> {
    semaphore: Semaphore<L>,
}

impl<L: Latch<LineCore>> Model for GlobalConcurrencyLimitLayer<L> {
    ghost Value = { SemaphoreView L };

    ghost view = { λ l. l.semaphore };
}

impl<R: Wait + Copy> GlobalConcurrencyLimitLayer<Guarded<LineCore, R>> {
    /// Creates a layer that allows at most `max` calls in flight for all services together. Returns
    /// `AllocError` if allocation fails.
    pub fn new(rt: R, alloc: Global, max: usize) -> Result<Self, AllocError>
        ensures max { IfOk result (λ made. made.max ≡ max) }
        ensures terms { IfOk result
            (λ made. ⟦<Guarded<LineCore, R> as Latch<LineCore>>⟧.terms made.latch ≡ max) }
    {
        let semaphore = Semaphore::new(rt, alloc, max)?;
        Ok(GlobalConcurrencyLimitLayer::with_semaphore(semaphore))
    }
}

impl<L: Latch<LineCore>> GlobalConcurrencyLimitLayer<L> {
    /// Creates a layer whose services all take their permits from this semaphore.
    pub fn with_semaphore(semaphore: Semaphore<L>) -> GlobalConcurrencyLimitLayer<L>
        ensures { result ≡ semaphore }
    {
        GlobalConcurrencyLimitLayer { semaphore }
    }
}

impl<S: Drop, L: Latch<LineCore>> Layer<S> for GlobalConcurrencyLimitLayer<L> {
    type Service = ConcurrencyLimit<S, L>;

    ghost made = { Made L.Latch };

    fn layer(&self, service: S) -> Result<Self::Service, AllocError>
        ensures made { IfOk result (λ made. Made L.Latch self.now service made) }
        ensures refused { IfErr result (λ e. L.shares self.now.latch (Err e)) }
    {
        let semaphore = self.semaphore.share()?;
        Ok(ConcurrencyLimit::with_semaphore(service, semaphore))
    }
}

/// A clone shares the semaphore. Cloning fails if the latch refuses its share, and so does `layer`.
impl<L: Latch<LineCore>> Clone for GlobalConcurrencyLimitLayer<L> {
    ghost is_clone = { SharesPermits L.Latch };

    fn clone(&self) -> Result<GlobalConcurrencyLimitLayer<L>, AllocError>
        ensures cases { MatchResult result (SharesPermits L.Latch self.now) (λ _. ¬ ⊥) }
        ensures refused { IfErr result (λ e. L.shares self.now.latch (Err e)) }
    {
        let semaphore = self.semaphore.share()?;
        Ok(GlobalConcurrencyLimitLayer { semaphore })
    }
}
