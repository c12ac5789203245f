//! The layer that puts a `Buffer` before a service.
ghost use Rattle.std.specs.Prelude.{◌≡◌, ◌<◌, IfOk};
ghost use Rattle.tower_buffer.specs.Making.{BufferLayerView, ClonesLayer, Tries, Wraps, initial_worker};

use crate::buffer::mail_core::{Mail, MailCore};
use crate::buffer::service::Buffer;
use crate::buffer::worker::Worker;
use std::alloc::{AllocError, Global};
use std::marker::{Model, PhantomData};
use std::sync::Wait;
use tower_base::layer::Layer;
use tower_base::service::{Executor, Service, Steps};
use tower_latch::{Core, Guarded, Latch};

/// Gives each service a `Buffer` of its own, and passes its worker to the executor: the Rust's
/// `tower::buffer::BufferLayer`.
///
/// If the executor gives the worker back, it is dropped. The `Buffer` then behaves as one whose worker
/// is gone.
#[derive(Drop)]
pub struct BufferLayer<Request, E: Clone, X, R> {
    rt: R,
    alloc: Global,
    bound: usize,
    executor: X,
    of: PhantomData<(Request, E)>,
}

impl<Request, E: Clone, X, R> Model for BufferLayer<Request, E, X, R> {
    ghost Value = { BufferLayerView X };

    // The view leaves out `rt` and `alloc`: neither changes, and both only serve to make a latch.
    ghost view = { λ l. record { bound = l.bound; executor = l.executor } };

    // `Buffer::pair` requires both.
    ghost invariant = { λ l. (0 < l.bound) × ((x y : E) → E.is_clone x y → y ≡ x) };
}

impl<Request, E: Clone, X, R> BufferLayer<Request, E, X, R> {
    /// Creates a layer with `bound` places for each service. Requires what `Buffer::fits` tests, and
    /// that a clone of an error equals the error.
    pub fn new(rt: R, alloc: Global, bound: usize, executor: X) -> BufferLayer<Request, E, X, R>
        requires positive { 0 < bound }
        requires same { (x y : E) → E.is_clone x y → y ≡ x }
        ensures { result ≡ record { bound = bound; executor = executor } }
    {
        BufferLayer {
            rt,
            alloc,
            bound,
            executor,
            of: PhantomData,
        }
    }
}

/// Puts a core behind a latch for a layer. Each handle that may wait puts it behind a lock.
pub trait Guard<C: Core>: Copy {
    type Latch: Latch<C>;

    /// Creates a latch of its own for the core.
    fn guard(self, alloc: Global, core: C) -> Result<Self::Latch, AllocError>
        requires { C.opens core }
        ensures { IfOk result (λ latch. Self.Latch.terms latch ≡ C.terms core) };
}

impl<C: Core, R: Wait + Copy> Guard<C> for R {
    type Latch = Guarded<C, R>;

    fn guard(self, alloc: Global, core: C) -> Result<Guarded<C, R>, AllocError> {
        Guarded::new(self, alloc, core)
    }
}

impl<Request, F, E, L, S, X, R> Layer<S> for BufferLayer<Request, E, X, R>
where
    Request: Drop,
    F: Steps + Drop,
    E: Clone,
    L: Latch<Mail<Request, F, E>>,
    S: Service<Request, Error = E, Future = F>,
    X: Executor<Worker<S, Request, F, E, L>>,
    R: Guard<Mail<Request, F, E>, Latch = L>,
{
    type Service = Buffer<Request, F, E, L>;

    ghost can_layer = { λ l service. (latch : _)
        → X.can_spawn l.executor (initial_worker latch service) };

    ghost made = { λ l service buffer. Wraps L.shares X.spawned l.executor service buffer
        × (L.terms buffer.latch ≡ l.bound) };

    fn layer(&self, service: S) -> Result<Self::Service, AllocError> {
        let core = MailCore::new(self.alloc, self.bound);
        let latch = self.rt.guard(self.alloc, core)?;
        let (buffer, worker) = Buffer::with_latch(latch, service)?;
        try_spawn(&self.executor, worker);
        Ok(buffer)
    }
}

// Spawns the task, which is dropped if the executor gives it back.
fn try_spawn<T: Drop, X: Executor<T>>(executor: &X, task: T)
    requires { X.can_spawn executor.now task }
    ensures { Tries X.spawned executor.now task }
{
    let _spawned = executor.spawn(task);
}

/// A clone has a clone of the executor.
impl<Request, E: Clone, X: Clone, R: Copy> Clone for BufferLayer<Request, E, X, R> {
    ghost is_clone = { ClonesLayer X.is_clone };

    fn clone(&self) -> Result<BufferLayer<Request, E, X, R>, AllocError> {
        let executor = self.executor.clone()?;
        Ok(BufferLayer {
            rt: self.rt,
            alloc: self.alloc,
            bound: self.bound,
            executor,
            of: PhantomData,
        })
    }
}
