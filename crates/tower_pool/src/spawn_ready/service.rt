//! A service that becomes ready in a task of its own.
ghost use Rattle.std.specs.Prelude.{◌≡◌, ℕ, IfNone, IfOk, IfSome, IsSome, IsSomeAnd, None, Some, true, false};
ghost use Rattle.futures.specs.Task.{Hears, IsArmed, Keeps};
ghost use Rattle.futures.specs.Poll.{OnPending};
ghost use Rattle.tower_base.specs.LastIteration.{AnsweredOrWoken};
ghost use Rattle.tower_base.specs.Quiet.{Ever, Quiet};
ghost use Rattle.tower_pool.specs.SpawnReady.{Begins, Called, Ends, HandsOver, HandsTo, Looks, New, Iteration, IterationStirs, Polled, Sound, Starts, Stirs, view_of};
ghost use Rattle.tower_pool.specs.SpawnReadyReady.{polled_ok};
ghost use Rattle.tower_pool.specs.declared.spawn_ready.slot_core.SlotStep.{SlotStep as Step};

use crate::spawn_ready::error::Error;
use crate::spawn_ready::future::ResponseFuture;
use crate::spawn_ready::layer::SpawnReadyLayer;
use crate::spawn_ready::slot_core::{SlotCore, SlotReply, SlotStep};
use crate::spawn_ready::task::ReadyTask;
use futures::task::{Context, Poll};
use std::alloc::{AllocError, Global};
use std::marker::PhantomData;
use std::sync::Wait;
use tower_base::iterations::TURNS;
use tower_base::service::{Executor, Service};
use tower_latch::held::Viewed;
use tower_latch::{Guarded, Latch};

/// A service that passes its inner service, while that isn't ready, to a task of its own: the Rust's
/// `tower::spawn_ready::SpawnReady`. The task drives the inner service to readiness and gives it back.
///
/// A service that comes back is polled again before a call. If it failed in the task, one poll returns its
/// error, and later polls return `Gone`. They also return `Gone` if the task was dropped. If the task's
/// share of the slot can't be allocated (`Memory`), or the executor gives the task back (`NotSpawned`), the
/// service is kept and the next poll polls it again. A poll makes 64 iterations at most, and is then pending
/// with its own task woken. Dropping the `SpawnReady` aborts the task, which ends at its next poll.
// (A generic function couldn't drop a `SpawnReady` that had a `Model`, so clauses say `view_of`.)
pub struct SpawnReady<
    S: Service<Request, Error = E>,
    Request,
    E: Drop,
    X: Drop,
    L: Latch<SlotCore<Viewed<S, Request>, E>>,
> {
    service: Option<S>,
    is_running: bool,
    executor: X,
    latch: L,
    of: PhantomData<(Request, E)>,
}

impl<S, Request, E, X, R> SpawnReady<S, Request, E, X, Guarded<SlotCore<Viewed<S, Request>, E>, R>>
where
    E: Drop,
    S: Service<Request, Error = E>,
    X: Drop,
    R: Wait + Copy,
{
    /// Creates a `SpawnReady` with a slot behind a lock. Returns an error, and drops the service and the
    /// executor, if allocation fails.
    pub fn new(rt: R, alloc: Global, service: S, executor: X) -> Result<Self, AllocError>
        ensures { IfOk result (λ made. New service executor (view_of made)) }
    {
        let latch = Guarded::new(rt, alloc, SlotCore::new())?;
        Ok(SpawnReady::with_latch(service, executor, latch))
    }

    /// Creates its layer.
    pub fn layer(rt: R, alloc: Global, executor: X) -> SpawnReadyLayer<R, X, Request>
        ensures { result ≡ executor }
    {
        SpawnReadyLayer::new(rt, alloc, executor)
    }
}

impl<S, Request, E, X, L> SpawnReady<S, Request, E, X, L>
where
    E: Drop,
    S: Service<Request, Error = E>,
    X: Drop,
    L: Latch<SlotCore<Viewed<S, Request>, E>>,
{
    /// Creates a `SpawnReady` with a slot behind the caller's latch.
    pub fn with_latch(service: S, executor: X, latch: L) -> SpawnReady<S, Request, E, X, L>
        ensures { view_of result ≡ record {
          service = Some service;
          is_running = false;
          executor = executor;
          latch = latch;
        } }
    {
        SpawnReady {
            service: Some(service),
            is_running: false,
            executor,
            latch,
            of: PhantomData,
        }
    }
}

/// Aborts the task, if there is one, by one step at the latch.
impl<S, Request, E, X, L> Drop for SpawnReady<S, Request, E, X, L>
where
    E: Drop,
    S: Service<Request, Error = E>,
    X: Drop,
    L: Latch<SlotCore<Viewed<S, Request>, E>>,
{
    fn drop(self)
        ensures { (reply : _) × L.gave self.latch Step.Abort reply }
    {
        self.latch.step(SlotStep::Abort);
        let SpawnReady {
            service: _,
            is_running: _,
            executor: _,
            latch: _,
            of: _,
        } = self;
    }
}

impl<S, Request, E, X, L> Service<Request> for SpawnReady<S, Request, E, X, L>
where
    E: Drop,
    S: Service<Request, Error = E>,
    X: Executor<ReadyTask<S, Request, E, L>> + Drop,
    L: Latch<SlotCore<Viewed<S, Request>, E>>,
{
    type Response = S::Response;

    type Error = Error<E>;

    type Future = ResponseFuture<S::Future>;

    ghost sound = { λ v. Sound S.sound X.Executor (view_of v) };

    ghost ready = { λ v. IsSomeAnd v.service S.ready };

    ghost polled = { λ old answer new. Polled S.Service L.Latch X.Executor (view_of old)
        answer (view_of new) };

    ghost needs = { λ v. L.source v.latch };

    ghost stirs = { λ old new. Stirs S.Service L.Latch X.Executor L.stirs (view_of old)
        (view_of new) };

    ghost called = { λ old request future new. Called S.Service (view_of old)
        request future (view_of new) };

    ghost readies = { λ old new p. polled_ok S.readies (view_of old) (view_of new) p };

    fn poll_ready(&mut self, cx: &mut Context<'_>) -> Poll<Result<(), Self::Error>>
        requires { Sound S.sound X.Executor (view_of self.old) }
        ensures polled { Polled S.Service L.Latch X.Executor (view_of self.old)
            result (view_of self.new) }
        ensures sound { Sound S.sound X.Executor (view_of self.new) }
        ensures woken { AnsweredOrWoken (Iteration S.Service L.Latch X.Executor) (view_of self.old)
            result (view_of self.new) cx.new.is_woken }
        ensures armed { OnPending result (IsArmed cx.new) }
        ensures heard { OnPending result ((s : ℕ) → L.source self.new.latch s → Hears cx.new s) }
        ensures quiet { Quiet (Stirs S.Service L.Latch X.Executor L.stirs (view_of self.old)
            (view_of self.new)) cx.old cx.new }
        ensures kept { Keeps cx.old cx.new }
    {
        let polled = self.poll_service(cx);
        if let Some(Poll::Ready(Ok(()))) = polled {
            return Poll::Ready(Ok(()));
        }
        self.go_on(polled, cx)
    }

    fn call(&mut self, request: Request) -> Self::Future {
        let Some(service) = &mut self.service else {
            unreachable!();
        };
        ResponseFuture::new(service.call(request))
    }
}

// What a poll of the service returned, or `None` if a task has the service.
type Readiness<E> = Option<Poll<Result<(), E>>>;

type Answer<E> = Option<Poll<Result<(), Error<E>>>>;

impl<S, Request, E, X, L> SpawnReady<S, Request, E, X, L>
where
    E: Drop,
    S: Service<Request, Error = E>,
    X: Executor<ReadyTask<S, Request, E, L>> + Drop,
    L: Latch<SlotCore<Viewed<S, Request>, E>>,
{
    // Polls the service, if it is here.
    fn poll_service(&mut self, cx: &mut Context<'_>) -> Readiness<E>
        requires { Sound S.sound X.Executor (view_of self.old) }
        ensures begins { Begins S.Service (view_of self.old) result (view_of self.new) }
        ensures here { IfSome result (λ _. IsSome self.new.service) }
        ensures away { IfNone result (self.new.service ≡ None) }
        ensures sound { Sound S.sound X.Executor (view_of self.new) }
        ensures latch { self.new.latch ≡ self.old.latch }
        ensures quiet { Quiet (Ever S.stirs) cx.old cx.new }
        ensures kept { Keeps cx.old cx.new }
    {
        let service = self.service.as_mut()?;
        Some(service.poll_ready(cx))
    }

    // Makes the iterations of a poll, of which the first has polled the service already. It isn't inlined,
    // so that a poll of a service that is ready saves no registers for it.
    #[cold]
    #[inline(never)]
    fn go_on(&mut self, polled: Readiness<E>, cx: &mut Context<'_>) -> Poll<Result<(), Error<E>>>
        requires sound { Sound S.sound X.Executor (view_of self.old) }
        requires here { IfSome polled (λ _. IsSome self.old.service) }
        requires away { IfNone polled (self.old.service ≡ None) }
        ensures polled { (start : _) → Begins S.Service start polled (view_of self.old)
            → Polled S.Service L.Latch X.Executor start result (view_of self.new) }
        ensures sound { Sound S.sound X.Executor (view_of self.new) }
        ensures woken { (start : _) → Begins S.Service start polled (view_of self.old)
            → AnsweredOrWoken (Iteration S.Service L.Latch X.Executor) start result
            (view_of self.new) cx.new.is_woken }
        ensures armed { OnPending result (IsArmed cx.new) }
        ensures heard { OnPending result ((s : ℕ) → L.source self.new.latch s → Hears cx.new s) }
        ensures quiet { (start : _) → Begins S.Service start polled (view_of self.old)
            → Quiet (Stirs S.Service L.Latch X.Executor L.stirs start (view_of self.new))
            cx.old cx.new }
        ensures kept { Keeps cx.old cx.new }
    {
        if let Some(answer) = self.end_iteration(polled, cx) {
            return answer;
        }
        for _iteration in 1..TURNS {
            if let Some(answer) = self.iterate_once(cx) {
                return answer;
            }
        }
        cx.yield_now()
    }

    // Makes one iteration. Returns an answer, or `None` to go on with the next iteration.
    fn iterate_once(&mut self, cx: &mut Context<'_>) -> Answer<E>
        requires { Sound S.sound X.Executor (view_of self.old) }
        ensures iteration { Iteration S.Service L.Latch X.Executor (view_of self.old)
            result (view_of self.new) }
        ensures sound { Sound S.sound X.Executor (view_of self.new) }
        ensures armed { IfSome result (λ answer. OnPending answer (IsArmed cx.new)) }
        ensures heard { IfSome result
            (λ answer. OnPending answer ((s : ℕ) → L.source self.new.latch s → Hears cx.new s)) }
        ensures latch { self.new.latch ≡ self.old.latch }
        ensures quiet { Quiet (IterationStirs S.Service L.Latch X.Executor L.stirs self.new.latch)
            cx.old cx.new }
        ensures kept { Keeps cx.old cx.new }
    {
        let polled = self.poll_service(cx);
        self.end_iteration(polled, cx)
    }

    // Ends an iteration, which has polled the service if it is here.
    fn end_iteration(&mut self, polled: Readiness<E>, cx: &mut Context<'_>) -> Answer<E>
        requires sound { Sound S.sound X.Executor (view_of self.old) }
        requires here { IfSome polled (λ _. IsSome self.old.service) }
        requires away { IfNone polled (self.old.service ≡ None) }
        ensures ends { Ends S.Service L.Latch X.Executor polled (view_of self.old)
            result (view_of self.new) }
        ensures sound { Sound S.sound X.Executor (view_of self.new) }
        ensures armed { IfSome result (λ answer. OnPending answer (IsArmed cx.new)) }
        ensures heard { IfSome result
            (λ answer. OnPending answer ((s : ℕ) → L.source self.new.latch s → Hears cx.new s)) }
        ensures latch { self.new.latch ≡ self.old.latch }
        ensures quiet { Quiet (IterationStirs S.Service L.Latch X.Executor L.stirs self.new.latch)
            cx.old cx.new }
        ensures kept { Keeps cx.old cx.new }
    {
        match polled {
            None => self.look(cx),
            Some(Poll::Ready(Ok(()))) => Some(Poll::Ready(Ok(()))),
            Some(Poll::Ready(Err(error))) => Some(Poll::Ready(Err(Error::Inner(error)))),
            Some(Poll::Pending) => self.hand_over(),
        }
    }

    // Looks into the slot for the service, which a task has.
    fn look(&mut self, cx: &mut Context<'_>) -> Answer<E>
        requires sound { Sound S.sound X.Executor (view_of self.old) }
        requires away { self.old.service ≡ None }
        ensures looks { Looks S.Service L.Latch X.Executor (view_of self.old)
            result (view_of self.new) }
        ensures sound { Sound S.sound X.Executor (view_of self.new) }
        ensures armed { IfSome result (λ answer. OnPending answer (IsArmed cx.new)) }
        ensures heard { IfSome result
            (λ answer. OnPending answer ((s : ℕ) → L.source self.new.latch s → Hears cx.new s)) }
        ensures latch { self.new.latch ≡ self.old.latch }
        ensures quiet { Quiet (IterationStirs S.Service L.Latch X.Executor L.stirs self.new.latch)
            cx.old cx.new }
        ensures kept { Keeps cx.old cx.new }
    {
        let (reply, token) = self.latch.wait(SlotStep::Look, cx);
        token.end();
        match reply {
            SlotReply::Waiting => Some(Poll::Pending),
            SlotReply::Unknown => Some(cx.yield_now()),
            SlotReply::Service(viewed) => {
                self.service = Some(viewed.into_inner());
                self.is_running = false;
                None
            }
            SlotReply::Error(error) => Some(Poll::Ready(Err(Error::Inner(error)))),
            _ => Some(Poll::Ready(Err(Error::Gone))),
        }
    }

    // Passes the service to a task. The task's share of the slot is made first.
    fn hand_over(&mut self) -> Answer<E>
        requires sound { Sound S.sound X.Executor (view_of self.old) }
        requires here { IsSome self.old.service }
        ensures hands { IfSome self.old.service (λ service. HandsOver S.Service L.Latch X.Executor
            (view_of self.old) service result (view_of self.new)) }
        ensures sound { Sound S.sound X.Executor (view_of self.new) }
        ensures latch { self.new.latch ≡ self.old.latch }
        ensures ready { IfSome result (λ answer. OnPending answer ⊥) }
    {
        let Ok(share) = self.latch.share() else {
            return Some(Poll::Ready(Err(Error::Memory)));
        };
        let Some(service) = self.service.take() else {
            unreachable!();
        };
        self.start();
        self.spawn(service, share)
    }

    // Starts the slot, unless it runs already.
    fn start(&mut self)
        ensures starts { Starts S.Service L.Latch X.Executor (view_of self.old) (view_of self.new) }
        ensures latch { self.new.latch ≡ self.old.latch }
    {
        if !self.is_running {
            self.latch.step(SlotStep::Start);
            self.is_running = true;
        }
    }

    // Spawns a task, which puts the service into the slot. The slot already runs.
    fn spawn(&mut self, service: S, share: L) -> Answer<E>
        requires sound { Sound S.sound X.Executor (view_of self.old) }
        requires inner { S.sound service }
        requires away { self.old.service ≡ None }
        requires runs { self.old.is_running ≡ true }
        ensures hands { HandsTo S.Service L.Latch X.Executor (view_of self.old)
            share service result (view_of self.new) }
        ensures sound { Sound S.sound X.Executor (view_of self.new) }
        ensures latch { self.new.latch ≡ self.old.latch }
        ensures ready { IfSome result (λ answer. OnPending answer ⊥) }
    {
        match self.executor.spawn(ReadyTask::new(service, share)) {
            Ok(()) => None,
            Err(task) => {
                self.service = Some(task.into_service());
                Some(Poll::Ready(Err(Error::NotSpawned)))
            }
        }
    }
}
