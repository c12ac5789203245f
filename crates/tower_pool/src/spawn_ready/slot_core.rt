//! The core that a `SpawnReady` shares with its tasks.
ghost use Rattle.std.specs.Prelude.{◌≡◌};
ghost use Rattle.tower_pool.specs.Slot.{Asks, SlotSteps, Stalls, is_waiting, key_of, slot_step, wakes_of};

use std::marker::Model;
use std::mem;
use tower_latch::{Core, Wakes};

/// A step of a slot.
#[derive(Clone, Copy, Debug, Drop, PartialEq, Eq)]
pub enum SlotStep<S, E> {
    /// A task is about to have the service.
    Start,
    /// The task is done with the service, which is ready.
    Put(S),
    /// The service failed in the task.
    PutError(E),
    /// Nobody waits for the service any more.
    Abort,
    /// The task is gone without an outcome.
    TaskGone,
    /// Asks whether nobody waits for the service any more.
    Aborted,
    /// Requests the service.
    Look,
}

/// The reply of a slot to a step.
#[derive(Clone, Copy, Debug, Drop, PartialEq, Eq)]
pub enum SlotReply<S, E> {
    /// The step was made.
    Done,
    /// Nobody waits for this service any more.
    Back(S),
    /// Whether nobody waits for the service any more.
    Truth(bool),
    /// The task isn't done yet.
    Waiting,
    /// The service, which the task put here.
    Service(S),
    /// The service's error in the task. It is returned once.
    Error(E),
    /// There is neither a service nor a task.
    Lost,
    /// The step doesn't fit the slot, which stays as it was.
    Unknown,
}

/// The state of a slot.
#[derive(Drop)]
pub enum Slot<S, E> {
    /// No task has the service.
    Idle,
    /// A task has the service.
    Running,
    /// The task put the service here.
    Holds(S),
    /// The service failed in the task, and the error wasn't returned yet.
    Failed(E),
    /// There is neither a service nor a task.
    Ended,
    /// Nobody waits for the service any more.
    Aborted,
}

/// The place into which a task puts its service once that is ready.
#[derive(Drop)]
pub struct SlotCore<S, E> {
    slot: Slot<S, E>,
}

impl<S, E> Model for SlotCore<S, E> {
    ghost use Rattle.tower_pool.specs.declared.spawn_ready.slot_core.Slot.{Slot};

    ghost Value = { Slot S E };

    ghost view = { λ core. core.slot };
}

impl<S, E> SlotCore<S, E> {
    ghost use Rattle.tower_pool.specs.declared.spawn_ready.slot_core.Slot.{Slot as SlotCase};

    /// Creates a slot without a task.
    pub fn new() -> SlotCore<S, E>
        ensures { result ≡ SlotCase.Idle }
    {
        SlotCore { slot: Slot::Idle }
    }
}

impl<S: Drop, E: Drop> SlotCore<S, E> {
    fn advance(&mut self, step: SlotStep<S, E>) -> SlotReply<S, E>
        ensures { SlotSteps self.old step result self.new }
    {
        let old = mem::replace(&mut self.slot, Slot::Idle);
        let (reply, new) = transition(old, step);
        self.slot = new;
        reply
    }
}

impl<S: Drop, E: Drop> Core for SlotCore<S, E> {
    ghost use Rattle.tower_pool.specs.declared.spawn_ready.slot_core.Slot.{Slot as SlotCase};

    type Step = SlotStep<S, E>;

    type Reply = SlotReply<S, E>;

    type Terms = ();

    ghost use Rattle.tower_latch.specs.LatchLemmas.{none_held, no_terms};

    ghost opens = { λ slot. slot ≡ SlotCase.Idle };

    ghost steps = { SlotSteps };

    ghost is_wait = { is_waiting };

    ghost key_of = { λ _ reply. key_of reply };

    ghost asks = { Asks };

    ghost stalls = { Stalls };

    ghost terms = { λ _. tt };

    ghost starts = { none_held _ };

    ghost counts = { no_terms _ };

    fn step(&mut self, step: SlotStep<S, E>) -> (SlotReply<S, E>, Wakes) {
        let reply = self.advance(step);
        let wakes = wakes_of(&reply);
        (reply, wakes)
    }

    fn terms(&self) {}
}

// Who waits, and who may go on, after this reply: at most two wait at a slot, its owner and its task.
fn wakes_of<S, E>(reply: &SlotReply<S, E>) -> Wakes
    ensures { result ≡ wakes_of reply.now }
{
    match reply {
        SlotReply::Waiting => Wakes::Wait(0),
        SlotReply::Truth(false) => Wakes::Wait(1),
        _ => Wakes::All,
    }
}

// Returns the reply to a step, and the slot after it.
fn transition<S: Drop, E: Drop>(
    old: Slot<S, E>,
    step: SlotStep<S, E>,
) -> (SlotReply<S, E>, Slot<S, E>)
    ensures { result ≡ slot_step old step }
{
    match (old, step) {
        (Slot::Idle, SlotStep::Start) => (SlotReply::Done, Slot::Running),
        (Slot::Running, SlotStep::Put(service)) => (SlotReply::Done, Slot::Holds(service)),
        (Slot::Running, SlotStep::PutError(error)) => (SlotReply::Done, Slot::Failed(error)),
        (Slot::Running, SlotStep::TaskGone) => (SlotReply::Done, Slot::Ended),
        (Slot::Running, SlotStep::Look) => (SlotReply::Waiting, Slot::Running),
        (Slot::Holds(service), SlotStep::Look) => (SlotReply::Service(service), Slot::Idle),
        (Slot::Failed(error), SlotStep::Look) => (SlotReply::Error(error), Slot::Ended),
        (Slot::Ended, SlotStep::Look) => (SlotReply::Lost, Slot::Ended),
        (Slot::Aborted, SlotStep::Put(service)) => (SlotReply::Back(service), Slot::Aborted),
        (Slot::Aborted, SlotStep::PutError(_)) => (SlotReply::Done, Slot::Aborted),
        (Slot::Aborted, SlotStep::Aborted) => (SlotReply::Truth(true), Slot::Aborted),
        (old, SlotStep::Aborted) => (SlotReply::Truth(false), old),
        (_, SlotStep::Abort) => (SlotReply::Done, Slot::Aborted),
        (old, SlotStep::TaskGone) => (SlotReply::Done, old),
        (old, _) => (SlotReply::Unknown, old),
    }
}
