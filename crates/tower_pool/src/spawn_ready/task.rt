//! The task that drives a service to readiness.
ghost use Rattle.std.specs.Prelude.{◌≡◌, ℕ, IfSome, IsSome, None, Some, false};
ghost use Rattle.futures.specs.Poll.{OnPending};
ghost use Rattle.futures.specs.Task.{Hears, IsArmed, Keeps};
ghost use Rattle.tower_base.specs.Gives.{IsStep, MayGive};
ghost use Rattle.tower_base.specs.Quiet.{Quiet};
ghost use Rattle.tower_pool.specs.SpawnReady.{CanPoll, CheckStirs, Drives, IsWaitedFor, ServiceStirs, StepMade, TaskNeeds, TaskStepped, TaskStirs, held_of, tells};
ghost use Rattle.tower_pool.specs.declared.spawn_ready.slot_core.SlotStep.{SlotStep as Step};

use crate::spawn_ready::slot_core::{SlotCore, SlotReply, SlotStep};
use futures::future::Future;
use futures::task::{Context, Poll};
use std::marker::PhantomData;
use tower_base::service::{Service, Steps};
use tower_latch::Latch;
use tower_latch::held::Viewed;

/// A task that drives a service to readiness, and then puts it into its slot. The Rust spawns a
/// `ReadyOneshot` for this.
///
/// A poll first checks whether anybody still waits for the service, and if so polls the service once. The
/// task is done once the service is ready or has failed, or nobody waits for it; then it has neither the
/// service nor the slot. If it is dropped earlier, it reports that to its slot.
// (A generic function couldn't drop a task that had a `Model`, so clauses say `held_of`.)
pub struct ReadyTask<
    S: Service<Request, Error = E>,
    Request,
    E: Drop,
    L: Latch<SlotCore<Viewed<S, Request>, E>>,
> {
    held: Option<Held<S, L>>,
    of: PhantomData<(Request, E)>,
}

/// The service and the latch that a task has until it is done.
#[derive(Drop)]
pub struct Held<S, L> {
    pub service: S,
    pub latch: L,
}

impl<S, Request, E, L> ReadyTask<S, Request, E, L>
where
    E: Drop,
    S: Service<Request, Error = E>,
    L: Latch<SlotCore<Viewed<S, Request>, E>>,
{
    pub(crate) fn new(service: S, latch: L) -> ReadyTask<S, Request, E, L>
        ensures { held_of result ≡ Some (record { service = service; latch = latch }) }
    {
        ReadyTask {
            held: Some(Held { service, latch }),
            of: PhantomData,
        }
    }

    // Returns the service, without a step at the slot.
    pub(crate) fn into_service(mut self) -> S
        requires { IsSome (held_of self) }
        ensures { IfSome (held_of self) (λ held. result ≡ held.service) }
    {
        let Some(Held { service, latch: _ }) = self.held.take() else {
            unreachable!();
        };
        service
    }

    // Returns whether nobody waits for the service any more. As long as somebody does, an abort wakes the
    // task.
    fn is_aborted(latch: &L, cx: &mut Context<'_>) -> bool
        ensures stepped { (reply : _) × L.gave latch.now Step.Aborted reply
            × (result ≡ tells reply) }
        ensures armed { result ≡ false → IsArmed cx.new }
        ensures heard { result ≡ false → (s : ℕ) → L.source latch.now s → Hears cx.new s }
        ensures quiet { Quiet (CheckStirs L.Latch L.stirs latch.now) cx.old cx.new }
        ensures kept { Keeps cx.old cx.new }
    {
        let (reply, token) = latch.wait(SlotStep::Aborted, cx);
        token.end();
        match reply {
            SlotReply::Truth(true) => true,
            SlotReply::Truth(false) => false,
            _ => {
                let _: Poll<()> = cx.yield_now();
                false
            }
        }
    }

    // Polls the service once. A check has shown that somebody waits for it.
    fn drive(&mut self, mut service: S, latch: L, cx: &mut Context<'_>) -> Poll<()>
        requires sound { S.sound service }
        requires looked { IsWaitedFor L.Latch latch }
        requires heard { (s : ℕ) → L.source latch s → Hears cx.old s }
        requires taken { held_of self.old ≡ None }
        ensures drives { Drives L.Latch S.Service false
            (record { service = service; latch = latch }) result (held_of self.new) }
        ensures again { OnPending result (CanPoll S.sound (held_of self.new)) }
        ensures armed { OnPending result (IsArmed cx.new) }
        ensures heard { OnPending result
            ((s : ℕ) → TaskNeeds S.needs L.source (held_of self.new) s → Hears cx.new s) }
        ensures quiet { Quiet (ServiceStirs L.Latch S.stirs service (held_of self.new))
            cx.old cx.new }
        ensures kept { Keeps cx.old cx.new }
    {
        match service.poll_ready(cx) {
            Poll::Pending => {
                self.held = Some(Held { service, latch });
                Poll::Pending
            }
            Poll::Ready(Ok(())) => {
                Self::tell(&latch, SlotStep::Put(Viewed::new(service)));
                Poll::Ready(())
            }
            Poll::Ready(Err(error)) => {
                Self::tell(&latch, SlotStep::PutError(error));
                Poll::Ready(())
            }
        }
    }

    fn tell(latch: &L, outcome: SlotStep<Viewed<S, Request>, E>)
        ensures { StepMade L.Latch latch.now outcome }
    {
        latch.step(outcome);
    }
}

/// A task that isn't done reports to its slot, by one step at the latch, that it is gone.
impl<S, Request, E, L> Drop for ReadyTask<S, Request, E, L>
where
    E: Drop,
    S: Service<Request, Error = E>,
    L: Latch<SlotCore<Viewed<S, Request>, E>>,
{
    fn drop(self)
        ensures { IfSome (held_of self)
            (λ held. (reply : _) × L.gave held.latch Step.TaskGone reply) }
    {
        if let Some(held) = &self.held {
            held.latch.step(SlotStep::TaskGone);
        }
        let ReadyTask { held: _, of: _ } = self;
    }
}

impl<S, Request, E, L> Future for ReadyTask<S, Request, E, L>
where
    E: Drop,
    S: Service<Request, Error = E>,
    L: Latch<SlotCore<Viewed<S, Request>, E>>,
{
    type Output = ();

    ghost can_poll = { λ task. CanPoll S.sound (held_of task) };

    ghost gives = { MayGive
        (λ old answer new. TaskStepped L.Latch S.Service (held_of old) answer (held_of new)) };

    ghost needs = { λ task. TaskNeeds S.needs L.source (held_of task) };

    #[tactic(auto, using(tower_base::specs::GivesLemmas::one_step))]
    fn poll(&mut self, cx: &mut Context<'_>) -> Poll<()>
        requires { CanPoll S.sound (held_of self.old) }
        ensures { IsStep
            (λ old answer new. TaskStepped L.Latch S.Service (held_of old) answer (held_of new))
            (λ task. CanPoll S.sound (held_of task))
            (λ task. TaskNeeds S.needs L.source (held_of task))
            self.old result self.new cx.old cx.new }
    {
        self.step(cx)
    }
}

impl<S, Request, E, L> Steps for ReadyTask<S, Request, E, L>
where
    E: Drop,
    S: Service<Request, Error = E>,
    L: Latch<SlotCore<Viewed<S, Request>, E>>,
{
    type Output = ();

    ghost can_poll = { λ task. CanPoll S.sound (held_of task) };

    ghost needs = { λ task. TaskNeeds S.needs L.source (held_of task) };

    ghost stepped = { λ old answer new. TaskStepped L.Latch S.Service (held_of old)
        answer (held_of new) };

    ghost stirs = { λ old new. TaskStirs L.Latch S.stirs L.stirs (held_of old) (held_of new) };

    fn step(&mut self, cx: &mut Context<'_>) -> Poll<()> {
        let Some(Held { service, latch }) = self.held.take() else {
            unreachable!();
        };
        if Self::is_aborted(&latch, cx) {
            return Poll::Ready(());
        }
        self.drive(service, latch, cx)
    }
}
