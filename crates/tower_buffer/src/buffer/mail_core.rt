//! The core of a `Buffer` and its worker.
ghost use Rattle.std.specs.Prelude.{◌≡◌, ◌≢◌, ◌<◌, ◌≤◌, ◌^◌, ◌-◌, ℕ, true};
ghost use Rattle.tower_latch.specs.Wakes.{IsNamed};
ghost use Rattle.futures.specs.Task.{Hears, IsArmed, Keeps};
ghost use Rattle.tower_base.specs.Quiet.{Quiet};
ghost use Rattle.tower_buffer.specs.Mail.{is_waiting};
ghost use Rattle.tower_buffer.specs.MailKeys.{response_key, shared_from};

use crate::buffer::keys::{one, response};
use crate::buffer::mail::{MailReply, MailStep};
use crate::buffer::mailbox::Mailbox;
use futures::task::Context;
use std::alloc::Global;
use std::marker::Model;
use tower_latch::held::Pollable;
use tower_latch::{Core, Latch, Wakes};

/// Messages on their way to a worker, the places for them, and those who wait for places.
///
/// Each reserved place has room for its message, so `Memory` comes only from `Join`, from `Reserve`, and
/// from a clone of the stored error.
pub struct MailCore<Request, F, E: Clone> {
    mail: Mailbox<Request, F, E>,
}

/// A `MailCore` whose futures may be polled.
pub type Mail<Request, F, E> = MailCore<Request, Pollable<F>, E>;

// Makes a step that may wait, at a core whose steps hand out no places.
#[inline(always)]
pub fn waited<C: Core, L: Latch<C>>(latch: &L, step: C::Step, cx: &mut Context<'_>) -> C::Reply
    requires admitted { C.admits step }
    requires unpaid { (reply : C.Reply) → C.paid step reply ≡ 0 }
    requires ungained { (reply : C.Reply) → C.gained reply ≡ 0 }
    ensures gave { L.gave latch.now step result }
    ensures armed { C.is_wait result ≡ true → IsArmed cx.new }
    ensures heard { C.is_wait result ≡ true → (s : ℕ) → L.source latch.now s → Hears cx.new s }
    ensures quiet { Quiet (L.stirs latch.now) cx.old cx.new }
    ensures kept { Keeps cx.old cx.new }
{
    let (reply, token) = latch.wait(step, cx);
    token.end();
    reply
}

impl<Request, F, E: Clone> Model for MailCore<Request, F, E> {
    ghost use Rattle.std.specs.Prelude.{◌≡◌};
    ghost use Rattle.tower_buffer.specs.declared.buffer.mailbox.Mailbox.{Mailbox};

    ghost Value = { Mailbox Request F E };

    ghost view = { λ core. core.mail };

    // What is reported of the stored error are its clones.
    ghost invariant = { λ core. (x y : E) → E.is_clone x y → y ≡ x };
}

impl<Request: Drop, F: Drop, E: Clone> Drop for MailCore<Request, F, E> {
    fn drop(self) {
        let MailCore { mail: _ } = self;
    }
}

impl<Request, F, E: Clone> MailCore<Request, F, E> {
    ghost use Rattle.tower_buffer.specs.Mail.{initial};
    ghost use Rattle.tower_buffer.specs.Mailbox.{StandsFor};

    /// Creates mail of `bound` places, for one `Buffer` and its worker. Requires a bound that isn't 0,
    /// and that a clone of an error equals the error.
    pub fn new(alloc: Global, bound: usize) -> MailCore<Request, F, E>
        requires positive { 0 < bound }
        requires same { (x y : E) → E.is_clone x y → y ≡ x }
        ensures { StandsFor result (initial bound) }
    {
        MailCore {
            mail: Mailbox::new(alloc, bound),
        }
    }
}

impl<Request: Drop, F: Drop, E: Clone> Core for MailCore<Request, F, E> {
    type Step = MailStep<Request, F, E>;

    type Reply = MailReply<Request, F, E>;

    type Terms = usize;

    ghost use Rattle.tower_latch.specs.Latch.{StepsAs};
    ghost use Rattle.tower_buffer.specs.Mail.{MailSteps};
    ghost use Rattle.std.specs.Prelude.{false};
    ghost use Rattle.tower_latch.specs.Wakes.{NamesAll, OneGoesOn};
    ghost use Rattle.tower_buffer.specs.MailKeys.{Asks, key_of};
    ghost use Rattle.tower_buffer.specs.MailWakes.{NamesAtMost, stalls};
    ghost use Rattle.tower_buffer.specs.Mailbox.{Few, HasRoom, Opens, StandsFor};
    ghost use Rattle.tower_latch.specs.LatchLemmas.{none_held, no_places};
    ghost use Rattle.tower_buffer.specs.MailTerms.{keeps_bound};

    ghost opens = { Opens };

    ghost steps = { StepsAs StandsFor MailSteps };

    ghost is_wait = { is_waiting };

    ghost key_of = { key_of };

    ghost asks = { Asks };

    // The worker is told to wait for a message, a ticket for its place, and a response for its outcome.
    ghost stalls = { stalls };

    // The bound: the number of places of its queue. For the latch they are no places, and no token stands for one.
    ghost terms = { λ core. core.bound };

    ghost starts = { none_held _ };

    ghost counts = { no_places _ _ keeps_bound };

    /// Makes a step, and names those who may go on: one key; or whoever no longer stalls, if the step may end
    /// several waits or several share the key; and all only once the worker is gone. Open mail replies `Memory` to `Reserve` only if room was missing. `Take` reaches at most six
    /// entries, of the messages and of the wait queue, for each message that leaves the queue, and any other
    /// step reaches at most six, whatever is stored. Closing isn't counted: `WorkerGone` reaches every message,
    /// and `Fail` drops the wait queue together with the count of its touches.
    #[inline(always)]
    fn step(&mut self, step: MailStep<Request, F, E>) -> (MailReply<Request, F, E>, Wakes)
        ensures steps { StepsAs StandsFor MailSteps self.old step result.0 self.new }
        ensures waits { is_waiting result.0 ≡ true → result.1 ≡ Wakes.Wait (key_of step result.0) }
        ensures names { NamesAll stalls self.old self.new result.1 }
        ensures one { OneGoesOn stalls self.new result.1 }
        ensures most { NamesAtMost self.old step result.0 self.new result.1 }
        ensures told { (key : ℕ) → Asks step key → stalls self.old key
            → is_waiting result.0 ≡ true }
        ensures excused { step ≡ MailStep.Reserve → result.0 ≡ MailReply.Memory
            → self.old.closed ≡ false → ¬ (HasRoom self.old) }
        ensures touches { Few self.old step self.new }
    {
        match step {
            MailStep::Join => (self.mail.join(), Wakes::Nobody),
            MailStep::Part => self.mail.part(),
            MailStep::Reserve => self.mail.reserve(),
            MailStep::Look(key) => self.mail.look(key),
            MailStep::Cancel(key) => self.mail.cancel(key),
            MailStep::Unreserve => self.mail.unreserve(),
            MailStep::Send(request) => self.mail.send(request),
            MailStep::Take => self.mail.take(),
            MailStep::Live(id) => (self.mail.messages.live(id), Wakes::Nobody),
            MailStep::Answer(id, future) => {
                let reply = self.mail.messages.answer(id, future);
                let wakes = decided(&reply, id);
                (reply, wakes)
            }
            MailStep::Fail(id, error) => self.mail.fail(id, error),
            MailStep::FailStored(id) => {
                let reply = self.mail.messages.fail_stored(id);
                let wakes = decided(&reply, id);
                (reply, wakes)
            }
            MailStep::Outcome(id) => {
                let reply = self.mail.messages.outcome(id);
                let wakes = pending(&reply, id);
                (reply, wakes)
            }
            MailStep::Forget(id) => {
                let reply = self.mail.messages.forget_message(id);
                let wakes = decided(&reply, id);
                (reply, wakes)
            }
            MailStep::WorkerGone => self.mail.worker_gone(),
        }
    }

    /// Returns whether the waiter at this key would still be told to wait, and `false` for the key that
    /// several share: so a latch wakes those who no longer stall, and all at the shared key.
    fn is_stalled(&self, key: usize) -> bool
        ensures stalled { result ≡ true → stalls self.now key }
        ensures exact { key ≢ 2 ^ 64 - 1 → stalls self.now key → result ≡ true }
    {
        self.mail.is_stalled(key)
    }

    fn terms(&self) -> usize {
        self.mail.bound()
    }
}

// Where the response of this message waits, if the reply is that it has no outcome yet.
fn pending<Request, F, E>(reply: &MailReply<Request, F, E>, id: u64) -> Wakes
    ensures pending { is_waiting reply.now ≡ true → result ≡ Wakes.Wait (response_key id) }
    ensures waits { (key : ℕ) → result ≡ Wakes.Wait key
        → (is_waiting reply.now ≡ true) × (response_key id ≡ key) }
    ensures one { (key : ℕ) → result ≡ Wakes.One key → ⊥ }
    ensures unstalled { result ≡ Wakes.Unstalled → ⊥ }
    ensures all { result ≡ Wakes.All → ⊥ }
{
    match reply {
        MailReply::Waiting(_) | MailReply::Empty => Wakes::Wait(response(id)),
        _ => Wakes::Nobody,
    }
}

// Names the response of this message, if the reply is that the step was made.
fn decided<Request, F, E>(reply: &MailReply<Request, F, E>, id: u64) -> Wakes
    ensures named { reply.now ≡ MailReply.Done → IsNamed result (response_key id) }
    ensures waits { (key : ℕ) → result ≡ Wakes.Wait key → ⊥ }
    ensures one { (key : ℕ) → result ≡ Wakes.One key
        → (reply.now ≡ MailReply.Done) × (response_key id ≢ 2 ^ 64 - 1) × (response_key id ≡ key) }
    ensures unstalled { result ≡ Wakes.Unstalled → shared_from ≤ id }
    ensures all { result ≡ Wakes.All → ⊥ }
{
    match reply {
        MailReply::Done => one(response(id)),
        _ => Wakes::Nobody,
    }
}
