//! How a `Buffer` and its worker are created.
ghost use Rattle.std.specs.Prelude.{◌≡◌, ◌<◌, ◌↔◌, IfErr, IfOk, IsTrue, Err};
ghost use Rattle.tower_buffer.specs.Making.{Begins, HandsOver, Paired, PairedOver, initial_worker};

use crate::buffer::error::Error;
use crate::buffer::mail_core::{Mail, MailCore};
use crate::buffer::service::Buffer;
use crate::buffer::worker::Worker;
use std::alloc::{AllocError, Global};
use std::sync::Wait;
use tower_base::service::{Executor, Service, Steps};
use tower_latch::{Guarded, Latch};

impl<Request: Drop, F: Steps + Drop, E: Clone, L: Latch<Mail<Request, F, E>>> Buffer<
    Request,
    F,
    E,
    L,
> {
    /// Creates a `Buffer` and its worker over the caller's latch, whose mail has served no step yet. If
    /// the latch refuses the worker's share, returns `AllocError` and drops the latch and the service.
    pub fn with_latch<S>(
        latch: L,
        service: S,
    ) -> Result<(Self, Worker<S, Request, F, E, L>), AllocError>
    where
        S: Service<Request, Error = E, Future = F>,
        ensures made { IfOk result (λ made. PairedOver L.shares latch service made.0 made.1) }
        ensures refused { IfErr result (λ e. L.shares latch (Err e)) }
    {
        let share = latch.share()?;
        Ok((Buffer::away(latch), Worker::new(share, service)))
    }

    // Creates a `Buffer` and passes its worker to the executor.
    fn begin<S, X>(latch: L, service: S, executor: &X) -> Result<Self, Error<E>>
    where
        S: Service<Request, Error = E, Future = F>,
        X: Executor<Worker<S, Request, F, E, L>>,
        requires can_spawn { (share : _) → X.can_spawn executor.now (initial_worker share service) }
        ensures begins { Begins L.shares X.spawned executor.now service result }
        ensures latch { IfOk result (λ buffer. buffer.latch ≡ latch) }
    {
        let Ok((buffer, worker)) = Buffer::with_latch(latch, service) else {
            return Err(Error::Memory);
        };
        hand_over(executor, worker, buffer)
    }

    /// Returns whether the bound isn't 0, as `pair`, `new` and `BufferLayer::new` require.
    pub fn fits(bound: usize) -> bool
        ensures { IsTrue result ↔ (0 < bound) }
    {
        bound > 0
    }
}

impl<Request: Drop, F: Steps + Drop, E: Clone, R: Wait + Copy> Buffer<
    Request,
    F,
    E,
    Guarded<Mail<Request, F, E>, R>,
> {
    /// Creates a `Buffer` of `bound` places and its worker, which the caller drives: the Rust's
    /// `tower::buffer::Buffer::pair`. Requires what `fits` tests, and that a clone of an error equals
    /// the error. Returns `AllocError` and drops the service if allocation fails.
    pub fn pair<S>(
        rt: R,
        alloc: Global,
        service: S,
        bound: usize,
    ) -> Result<
        (
            Self,
            Worker<S, Request, F, E, Guarded<Mail<Request, F, E>, R>>,
        ),
        AllocError,
    >
    where
        S: Service<Request, Error = E, Future = F>,
        requires positive { 0 < bound }
        requires same { (x y : E) → E.is_clone x y → y ≡ x }
        ensures pair { IfOk result
            (λ made. Paired ⟦<Guarded<Mail<Request, F, E>, R> as Latch<Mail<Request, F, E>>>⟧.shares
            service made.0 made.1) }
        ensures bound { IfOk result
            (λ made. ⟦<Guarded<Mail<Request, F, E>, R> as Latch<Mail<Request, F, E>>>⟧.terms
            made.0.latch ≡ bound) }
    {
        let latch = Guarded::new(rt, alloc, MailCore::new(alloc, bound))?;
        Buffer::with_latch(latch, service)
    }

    /// Creates a `Buffer` of `bound` places and passes its worker to the executor: the Rust's
    /// `tower::buffer::Buffer::new`. Requires what `pair` does. Returns `Memory` if allocation fails,
    /// and `NotSpawned` if the executor gives the worker back. The service is dropped then.
    pub fn new<S, X>(
        rt: R,
        alloc: Global,
        service: S,
        bound: usize,
        executor: &X,
    ) -> Result<Self, Error<E>>
    where
        S: Service<Request, Error = E, Future = F>,
        X: Executor<Worker<S, Request, F, E, Guarded<Mail<Request, F, E>, R>>>,
        requires positive { 0 < bound }
        requires same { (x y : E) → E.is_clone x y → y ≡ x }
        requires can_spawn { (latch : _) → X.can_spawn executor.now (initial_worker latch service) }
        ensures begins { Begins
            ⟦<Guarded<Mail<Request, F, E>, R> as Latch<Mail<Request, F, E>>>⟧.shares X.spawned
            executor.now service result }
        ensures bound { IfOk result
            (λ buffer. ⟦<Guarded<Mail<Request, F, E>, R> as Latch<Mail<Request, F, E>>>⟧.terms
            buffer.latch ≡ bound) }
    {
        let Ok(latch) = Guarded::new(rt, alloc, MailCore::new(alloc, bound)) else {
            return Err(Error::Memory);
        };
        Buffer::begin(latch, service, executor)
    }
}

// Spawns the task and returns the other value. Both are dropped if the executor gives the task back.
fn hand_over<T: Drop, B: Drop, E, X: Executor<T>>(
    executor: &X,
    task: T,
    other: B,
) -> Result<B, Error<E>>
    requires { X.can_spawn executor.now task }
    ensures { HandsOver X.spawned executor.now task other result }
{
    match executor.spawn(task) {
        Ok(()) => Ok(other),
        Err(_) => Err(Error::NotSpawned),
    }
}
