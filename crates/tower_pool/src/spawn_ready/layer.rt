//! The layer that makes a `SpawnReady` from a service.
ghost use Rattle.std.specs.Prelude.{◌≡◌};
ghost use Rattle.tower_pool.specs.SpawnReady.{Made, view_of};

use crate::spawn_ready::service::SpawnReady;
use crate::spawn_ready::slot_core::SlotCore;
use std::alloc::{AllocError, Global};
use std::marker::{Model, PhantomData};
use std::sync::Wait;
use tower_base::layer::Layer;
use tower_base::service::Service;
use tower_latch::Guarded;
use tower_latch::held::Viewed;

/// A layer that makes a `SpawnReady` from each service, with a slot of its own and a clone of the executor:
/// the Rust's `tower::spawn_ready::SpawnReadyLayer`. `Request` is the type of the requests that its
/// services take.
#[derive(Drop)]
pub struct SpawnReadyLayer<R, X, Request> {
    rt: R,
    alloc: Global,
    executor: X,
    request: PhantomData<Request>,
}

impl<R, X, Request> Model for SpawnReadyLayer<R, X, Request> {
    ghost Value = { X };

    // The view leaves out `rt` and `alloc`: neither changes, and both only serve to make a slot.
    ghost view = { λ l. l.executor };
}

impl<R, X, Request> SpawnReadyLayer<R, X, Request> {
    /// Creates a layer whose services spawn their tasks on clones of `executor`.
    pub fn new(rt: R, alloc: Global, executor: X) -> SpawnReadyLayer<R, X, Request>
        ensures { result ≡ executor }
    {
        SpawnReadyLayer {
            rt,
            alloc,
            executor,
            request: PhantomData,
        }
    }
}

/// `layer` fails if the executor can't be cloned, or the slot can't be allocated.
impl<R, X, Request, S> Layer<S> for SpawnReadyLayer<R, X, Request>
where
    S: Service<Request>,
    X: Clone + Drop,
    R: Wait + Copy,
{
    type Service = SpawnReady<
        S,
        Request,
        S::Error,
        X,
        Guarded<SlotCore<Viewed<S, Request>, S::Error>, R>,
    >;

    ghost made = { λ executor service made. Made X.is_clone executor service (view_of made) };

    fn layer(&self, service: S) -> Result<Self::Service, AllocError> {
        let executor = self.executor.clone()?;
        SpawnReady::new(self.rt, self.alloc, service, executor)
    }
}

impl<R: Copy, X: Clone, Request> Clone for SpawnReadyLayer<R, X, Request> {
    ghost is_clone = { X.is_clone };

    fn clone(&self) -> Result<SpawnReadyLayer<R, X, Request>, AllocError> {
        let executor = self.executor.clone()?;
        Ok(SpawnReadyLayer::new(self.rt, self.alloc, executor))
    }
}
