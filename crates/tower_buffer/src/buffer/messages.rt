//! The messages that are still known by their ids.
ghost use Rattle.std.specs.Prelude.{◌≡◌, ◌<◌, ◌≤◌, ◌+◌, ℕ, unwrap_or, Some, None, [], true, false, IsOk, OnOk};
ghost use Rattle.slab.specs.Slab.{get, slab_len, ContainsKey, Updates};
ghost use Rattle.tower_base.specs.Order.{has, without, first_or};
ghost use Rattle.tower_buffer.specs.Messages.{Ended, FailsTaken, Fits, fate_at, is_cancelled, is_queued, lost, taken_at};
ghost use Rattle.tower_buffer.specs.Mail.{Tells};
ghost use Rattle.tower_latch.specs.Waiters.{are_apart};
ghost use Rattle.tower_buffer.specs.declared.buffer.message.Fate.{Fate};
ghost use Rattle.tower_buffer.specs.declared.buffer.message.Message.{Message};

use crate::buffer::mail::{MailReply, MailStep};
use crate::buffer::message::{Fate, Message};
use std::alloc::{AllocError, Global};
use tower_base::links::Links;

type Linked<Request, F> = Links<Message<Request, F>>;

/// The messages that still have their ids, which are their keys, and the error that is the outcome of
/// those that failed.
///
/// A queued message is linked in the order of sending, and any other stands outside that order.
#[derive(Drop)]
pub(crate) struct Messages<Request, F, E> {
    links: Linked<Request, F>,
    stored: Option<E>,
    ghost differ: { are_apart links.order ≡ true },
    ghost linked: { (id : ℕ) → has links.order id ≡ is_queued (get links.entries id) },
    ghost sent: { (id : ℕ) (message : Message Request F) → get links.entries id ≡ Some message
        → Fits stored message },
}

impl<Request, F, E> Messages<Request, F, E> {
    ghost use Rattle.tower_buffer.specs.MessageSteps.{Becomes, Holds, Sends, capacity, len, queued, touches};

    pub(crate) fn new(alloc: Global) -> Messages<Request, F, E>
        ensures holds { Holds result.links [] }
        ensures stored { result.stored ≡ None }
        ensures capacity { capacity result ≡ 0 }
    {
        Messages {
            links: Links::new(alloc),
            stored: None,
        }
    }

    /// Returns how many messages are queued.
    pub(crate) fn queued(&self) -> usize
        ensures { result ≡ queued self.now }
    {
        self.links.len()
    }

    /// Returns how many messages fit without an allocation.
    pub(crate) fn capacity(&self) -> usize
        ensures { result ≡ capacity self.now }
    {
        self.links.capacity()
    }

    /// Returns the id of the oldest queued message.
    pub(crate) fn oldest(&self) -> Option<usize>
        ensures { result ≡ first_or self.now.links.order None }
    {
        self.links.front()
    }

    /// Makes room for `additional` more messages.
    pub(crate) fn reserve(&mut self, additional: usize) -> Result<(), AllocError>
        ensures room { OnOk result (len self.new + additional ≤ capacity self.new) }
        ensures succeeds { len self.old + additional ≤ capacity self.old → IsOk result }
        ensures capacity { capacity self.old ≤ capacity self.new }
        ensures follows { Becomes self.old (λ old new. new ≡ old) self.new }
        ensures same { (queued self.new ≡ queued self.old) × (len self.new ≡ len self.old)
            × (self.new.stored ≡ self.old.stored) }
        ensures touches { touches self.new ≡ touches self.old }
    {
        self.links.reserve(additional)
    }

    /// Queues a message behind all others and returns its id.
    pub(crate) fn push(&mut self, request: Request) -> u64
        requires { len self.old < capacity self.old }
        ensures follows { Becomes self.old (λ old new. Sends old request result new) self.new }
        ensures queued { queued self.new ≡ queued self.old + 1 }
        ensures room { (len self.new ≡ len self.old + 1) × (capacity self.new ≡ capacity self.old) }
        ensures stored { self.new.stored ≡ self.old.stored }
        ensures touches { touches self.new ≤ touches self.old + 2 }
    {
        let id = self.links.push_back(Message {
            request: Some(request),
            fate: Fate::Open,
        });
        id as u64
    }

    /// Returns whether this message has no outcome yet, and somebody waits for it. Counts no touch.
    pub(crate) fn is_open(&self, id: u64) -> bool
        ensures open { result ≡ true → (message : Message Request F)
            × (get self.now.links.entries id ≡ Some message) × (message.fate ≡ Fate.Open) }
        ensures exact { (message : Message Request F) → get self.now.links.entries id ≡ Some message
            → message.fate ≡ Fate.Open → result ≡ true }
    {
        match self.links.peek(id as usize) {
            Some(message) => matches!(message.fate, Fate::Open),
            None => false,
        }
    }

    /// Returns whether nobody waits for this message.
    pub(crate) fn is_cancelled(&mut self, id: usize) -> bool
        ensures cancelled { (message : Message Request F)
            → get self.old.links.entries id ≡ Some message → result ≡ is_cancelled message.fate }
        ensures order { self.new.links.order ≡ self.old.links.order }
        ensures entries { self.new.links.entries ≡ self.old.links.entries }
        ensures stored { self.new.stored ≡ self.old.stored }
        ensures touches { touches self.new ≤ touches self.old + 1 }
    {
        matches!(fate_of(&mut self.links, id), Some(Fate::Cancelled))
    }
}

impl<Request, F, E: Clone> Messages<Request, F, E> {
    /// Returns the reply of closed mail.
    pub(crate) fn shut(&self) -> MailReply<Request, F, E>
        requires { (x y : E) → E.is_clone x y → y ≡ x }
        ensures { Tells self.now.stored result }
    {
        match &self.stored {
            None => MailReply::Closed,
            Some(error) => match error.clone() {
                Ok(copy) => MailReply::Failed(copy),
                Err(AllocError) => MailReply::Memory,
            },
        }
    }
}

impl<Request: Drop, F: Drop, E: Drop> Messages<Request, F, E> {
    ghost use Rattle.tower_buffer.specs.Mail.{IsTaken, NoneWith, Settles, abandoned};
    ghost use Rattle.tower_buffer.specs.MessageSteps.{Becomes, Clears, Follows, KeepsRest, Opens, capacity, len, queued, touches};

    /// Removes the oldest queued message, which nobody waits for.
    pub(crate) fn clear(&mut self, id: usize)
        requires oldest { first_or self.old.links.order None ≡ Some id }
        requires cancelled { (message : Message Request F)
            → get self.old.links.entries id ≡ Some message → message.fate ≡ Fate.Cancelled }
        ensures follows { Becomes self.old Clears self.new }
        ensures queued { queued self.old ≡ queued self.new + 1 }
        ensures room { (len self.old ≡ len self.new + 1) × (capacity self.new ≡ capacity self.old) }
        ensures stored { self.new.stored ≡ self.old.stored }
        ensures touches { touches self.new ≤ touches self.old + 2 }
    {
        self.links.remove(id);
    }

    /// Takes the oldest queued message, which somebody waits for, out of the queue, and returns its request.
    pub(crate) fn open(&mut self, id: usize) -> Request
        requires oldest { first_or self.old.links.order None ≡ Some id }
        requires open { (message : Message Request F) → get self.old.links.entries id ≡ Some message
            → message.fate ≡ Fate.Open }
        ensures follows { Becomes self.old (λ old new. Opens old id result new) self.new }
        ensures queued { queued self.old ≡ queued self.new + 1 }
        ensures room { (len self.new ≡ len self.old) × (capacity self.new ≡ capacity self.old) }
        ensures stored { self.new.stored ≡ self.old.stored }
        ensures touches { touches self.new ≤ touches self.old + 3 }
    {
        self.links.unlink(id);
        let Message { request, fate: _ } = self.links.replace(id, out(Fate::Open));
        match request {
            Some(request) => request,
            None => unreachable!(),
        }
    }

    pub(crate) fn live(&mut self, id: u64) -> MailReply<Request, F, E>
        ensures follows { Follows self.old (MailStep.Live id) result self.new }
        ensures rest { KeepsRest self.old self.new }
        ensures touches { touches self.new ≤ touches self.old + 6 }
    {
        let Some(open) = taken(&mut self.links, id as usize) else {
            return MailReply::Unknown;
        };
        if open {
            return MailReply::Truth(true);
        }
        self.links.remove(id as usize);
        MailReply::Truth(false)
    }

    pub(crate) fn answer(&mut self, id: u64, future: F) -> MailReply<Request, F, E>
        ensures follows { Follows self.old (MailStep.Answer id future) result self.new }
        ensures rest { KeepsRest self.old self.new }
        ensures touches { touches self.new ≤ touches self.old + 6 }
    {
        let Some(open) = taken(&mut self.links, id as usize) else {
            return MailReply::Unknown;
        };
        if open {
            settle(&mut self.links, id as usize, Fate::Answered(future));
            return MailReply::Done;
        }
        self.links.remove(id as usize);
        MailReply::Back(future)
    }

    pub(crate) fn forget_message(&mut self, id: u64) -> MailReply<Request, F, E>
        ensures follows { Follows self.old (MailStep.Forget id) result self.new }
        ensures rest { KeepsRest self.old self.new }
        ensures touches { touches self.new ≤ touches self.old + 4 }
    {
        let Some(fate) = fate_of(&mut self.links, id as usize) else {
            return MailReply::Unknown;
        };
        match fate {
            Fate::Cancelled => MailReply::Unknown,
            Fate::Open => {
                settle(&mut self.links, id as usize, Fate::Cancelled);
                MailReply::Done
            }
            _ => {
                self.links.remove(id as usize);
                MailReply::Done
            }
        }
    }

    pub(crate) fn fail_stored(&mut self, id: u64) -> MailReply<Request, F, E>
        ensures follows { Follows self.old (MailStep.FailStored id) result self.new }
        ensures rest { KeepsRest self.old self.new }
        ensures touches { touches self.new ≤ touches self.old + 6 }
    {
        if self.stored.is_none() {
            return MailReply::Unknown;
        }
        if !fail_taken(&mut self.links, id as usize) {
            return MailReply::Unknown;
        }
        MailReply::Done
    }

    /// Returns whether the worker holds this message unsettled. If so, it stores the first error for
    /// good, and the message fails, or is removed if nobody waits for it.
    pub(crate) fn fail(&mut self, id: u64, error: E) -> bool
        ensures unknown { result ≡ false
            → Becomes self.old (λ old new. NoneWith IsTaken old id × (new ≡ old)) self.new
            × (self.new.stored ≡ self.old.stored) }
        ensures fails { result ≡ true → Becomes self.old (λ old new. Settles Fate.Failed old id new)
            self.new × (self.new.stored ≡ Some (unwrap_or self.old.stored error)) }
        ensures queued { queued self.new ≡ queued self.old }
        ensures room { (len self.new ≤ len self.old) × (capacity self.new ≡ capacity self.old) }
        ensures touches { touches self.new ≤ 4 + touches self.old }
    {
        if !fail_taken(&mut self.links, id as usize) {
            return false;
        }
        self.stored = Some(self.stored.take().unwrap_or(error));
        true
    }

    /// Ends the messages of a worker that is gone. Those without an outcome are lost, and those that
    /// nobody waits for are removed.
    pub(crate) fn abandon(&mut self)
        ensures follows { Becomes self.old (λ old new. new ≡ abandoned old) self.new }
        ensures queued { queued self.new ≡ 0 }
        ensures room { (len self.new ≤ len self.old) × (capacity self.new ≡ capacity self.old) }
        ensures stored { self.new.stored ≡ self.old.stored }
    {
        for id in 0..self.links.capacity() {
            lose_at(&mut self.links, id);
        }
    }
}

impl<Request: Drop, F: Drop, E: Clone> Messages<Request, F, E> {
    ghost use Rattle.std.specs.Prelude.{ℕ};
    ghost use Rattle.tower_buffer.specs.Mail.{is_waiting};
    ghost use Rattle.tower_buffer.specs.declared.buffer.message.Fate.{Fate};
    ghost use Rattle.tower_buffer.specs.MessageSteps.{Follows, KeepsRest, touches};

    pub(crate) fn outcome(&mut self, id: u64) -> MailReply<Request, F, E>
        requires { (x y : E) → E.is_clone x y → y ≡ x }
        ensures follows { Follows self.old (MailStep.Outcome id) result self.new }
        ensures told { (message : Message Request F) → get self.old.links.entries id ≡ Some message
            → message.fate ≡ Fate.Open → is_waiting result ≡ true }
        ensures rest { KeepsRest self.old self.new }
        ensures touches { touches self.new ≤ touches self.old + 6 }
    {
        let Some(fate) = fate_of(&mut self.links, id as usize) else {
            return MailReply::Unknown;
        };
        match fate {
            Fate::Cancelled => MailReply::Unknown,
            Fate::Open => MailReply::Waiting(id),
            Fate::Failed => self.tell_failure(id),
            _ => self.hand_out(id),
        }
    }

    // Returns the stored error. If allocation of its clone fails, the message stays.
    fn tell_failure(&mut self, id: u64) -> MailReply<Request, F, E>
        requires same { (x y : E) → E.is_clone x y → y ≡ x }
        requires failed { (message : Message Request F)
            × (get self.old.links.entries id ≡ Some message) × (message.fate ≡ Fate.Failed) }
        ensures follows { Follows self.old (MailStep.Outcome id) result self.new }
        ensures rest { KeepsRest self.old self.new }
        ensures touches { touches self.new ≤ touches self.old + 5 }
    {
        match self.shut() {
            MailReply::Memory => MailReply::Memory,
            reply => {
                self.links.remove(id as usize);
                reply
            }
        }
    }

    // Returns the future of a message that was answered, or that the message was lost.
    fn hand_out(&mut self, id: u64) -> MailReply<Request, F, E>
        requires ended { (message : Message Request F)
            × (get self.old.links.entries id ≡ Some message) × Ended message.fate }
        ensures follows { Follows self.old (MailStep.Outcome id) result self.new }
        ensures rest { KeepsRest self.old self.new }
        ensures touches { touches self.new ≤ touches self.old + 5 }
    {
        let Some(Message { request: _, fate }) = self.links.remove(id as usize) else {
            unreachable!();
        };
        match fate {
            Fate::Answered(future) => MailReply::Future(future),
            _ => MailReply::Lost,
        }
    }
}

// Returns whether someone still waits, if the worker holds this message unsettled, and otherwise `None`.
fn taken<Request, F>(links: &mut Linked<Request, F>, id: usize) -> Option<bool>
    ensures taken { result ≡ taken_at (get links.old.entries id) }
    ensures order { links.new.order ≡ links.old.order }
    ensures entries { links.new.entries ≡ links.old.entries }
    ensures touches { links.new.touches ≤ links.old.touches + 1 }
{
    links.get(id)?.taken()
}

// Returns what became of this message, without its future.
fn fate_of<Request, F>(links: &mut Linked<Request, F>, id: usize) -> Option<Fate<()>>
    ensures fate { result ≡ fate_at (get links.old.entries id) }
    ensures order { links.new.order ≡ links.old.order }
    ensures entries { links.new.entries ≡ links.old.entries }
    ensures touches { links.new.touches ≤ links.old.touches + 1 }
{
    Some(links.get(id)?.fate.bare())
}

// Creates a message that isn't queued.
fn out<Request, F>(fate: Fate<F>) -> Message<Request, F>
    ensures { result ≡ record { request = None; fate = fate } }
{
    Message {
        request: None,
        fate,
    }
}

// Gives this message an outcome.
fn settle<Request: Drop, F: Drop>(links: &mut Linked<Request, F>, id: usize, fate: Fate<F>)
    requires { ContainsKey links.old.entries id }
    ensures entries { (message : Message Request F) → get links.old.entries id ≡ Some message
        → Updates links.old.entries links.new.entries id (Some (record message { fate = fate })) }
    ensures order { links.new.order ≡ links.old.order }
    ensures len { slab_len links.new.entries ≡ slab_len links.old.entries }
    ensures capacity { links.new.entries.capacity ≡ links.old.entries.capacity }
    ensures touches { links.new.touches ≤ links.old.touches + 2 }
{
    let Message { request, fate: _ } = links.replace(id, out(Fate::Open));
    links.replace(id, Message { request, fate });
}

// Returns whether the worker holds this message unsettled. If so, the message fails, or is removed if
// nobody waits for it.
fn fail_taken<Request: Drop, F: Drop>(links: &mut Linked<Request, F>, id: usize) -> bool
    ensures unknown { result ≡ false → taken_at (get links.old.entries id) ≡ None }
    ensures kept { result ≡ false
        → (links.new.order ≡ links.old.order) × (links.new.entries ≡ links.old.entries) }
    ensures fails { result ≡ true → FailsTaken links.old id links.new }
    ensures len { slab_len links.new.entries ≤ slab_len links.old.entries }
    ensures capacity { links.new.entries.capacity ≡ links.old.entries.capacity }
    ensures touches { links.new.touches ≤ links.old.touches + 4 }
{
    let Some(open) = taken(links, id) else {
        return false;
    };
    if open {
        settle(links, id, Fate::Failed);
    } else {
        links.remove(id);
    }
    true
}

fn lose_at<Request: Drop, F: Drop>(links: &mut Linked<Request, F>, id: usize)
    ensures order { links.new.order ≡ without links.old.order id }
    ensures entries { Updates links.old.entries links.new.entries id
        (lost (get links.old.entries id)) }
    ensures len { slab_len links.new.entries ≤ slab_len links.old.entries }
    ensures capacity { links.new.entries.capacity ≡ links.old.entries.capacity }
{
    links.unlink(id);
    match fate_of(links, id) {
        Some(Fate::Open) => {
            links.replace(id, out(Fate::Lost));
        }
        Some(Fate::Cancelled) => {
            links.remove(id);
        }
        _ => {}
    }
}
