//! Mail: the messages on their way to a worker, and the line for places.
ghost use Rattle.std.specs.Prelude.{◌≡◌, ◌≢◌, ◌⊎◌, ◌<◌, ◌≤◌, ◌+◌, ◌-◌, ◌^◌, Some, None, true, false};
ghost use Rattle.slab.specs.Slab.{get};
ghost use Rattle.tower_base.specs.Order.{first_or};
ghost use Rattle.tower_latch.specs.Wakes.{OneGoesOn, StallsOn};
ghost use Rattle.tower_latch.specs.WaitQueue.{granted, room, size, stalls as queue_stalls, ungranted};
ghost use Rattle.tower_buffer.specs.MessageSteps.{capacity, len, queued};
ghost use Rattle.tower_buffer.specs.declared.buffer.message.Fate.{Fate};
ghost use Rattle.tower_buffer.specs.declared.buffer.message.Message.{Message};

use crate::buffer::keys::{SHARED, WORKER, named, ticket};
use crate::buffer::mail::{MailReply, MailStep};
use crate::buffer::messages::Messages;
use std::alloc::{AllocError, Global};
use tower_latch::Wakes;
use tower_latch::wait_queue::{WaitQueue, WaitState};

/// The reserved places, the queue of those who wait for places, and the messages that still have their
/// ids, which are their keys.
///
/// Each reserved place and each waiter has room for its message.
#[derive(Drop)]
pub(crate) struct Mailbox<Request, F, E> {
    alloc: Global,
    bound: usize,
    reserved: usize,
    queue: WaitQueue,
    pub(crate) messages: Messages<Request, F, E>,
    buffers: u64,
    closed: bool,
    has_worker: bool,
    ghost limit: { bound < 2 ^ 64 },
    ghost fits: { reserved + queued messages + granted queue ≤ bound },
    // Nobody waits without a place while one is free.
    ghost full: { 0 < ungranted queue → reserved + queued messages + granted queue ≡ bound },
    ghost room: { len messages + reserved + size queue ≤ capacity messages },
}

impl<Request, F, E> Mailbox<Request, F, E> {
    ghost use Rattle.std.specs.Prelude.{false, ℕ, nat_eq, ◌&&◌, ◌||◌};
    ghost use Rattle.tower_buffer.specs.Mail.{is_waiting};
    ghost use Rattle.tower_buffer.specs.MailKeys.{key_of};
    ghost use Rattle.tower_buffer.specs.MailWakes.{NamesAtMost, NamesPlaces, Stalls, Waiter, WaitsWell, is_over, stalls};
    ghost use Rattle.tower_buffer.specs.Mail.{initial};
    ghost use Rattle.tower_buffer.specs.Mailbox.{Follows, StandsFor, touches};

    pub(crate) fn new(alloc: Global, bound: usize) -> Mailbox<Request, F, E>
        ensures { StandsFor result (initial bound) }
    {
        Mailbox {
            alloc,
            bound,
            reserved: 0,
            queue: WaitQueue::new(alloc),
            messages: Messages::new(alloc),
            buffers: 1,
            closed: false,
            has_worker: true,
        }
    }

    pub(crate) fn bound(&self) -> usize
        ensures { result ≡ self.now.bound }
    {
        self.bound
    }

    pub(crate) fn join(&mut self) -> MailReply<Request, F, E>
        ensures follows { Follows self.old MailStep.Join result self.new }
        ensures names { NamesPlaces self.old self.new Wakes.Nobody }
        ensures touches { touches self.new ≤ touches self.old + 6 }
    {
        if self.buffers == u64::MAX {
            return MailReply::Memory;
        }
        self.buffers += 1;
        MailReply::Done
    }

    pub(crate) fn part(&mut self) -> (MailReply<Request, F, E>, Wakes)
        ensures follows { Follows self.old MailStep.Part result.0 self.new }
        ensures names { NamesPlaces self.old self.new result.1 }
        ensures pending { WaitsWell self.new result.1 }
        ensures one { OneGoesOn stalls self.new result.1 }
        ensures most { NamesAtMost self.old MailStep.Part result.0 self.new result.1 }
        ensures touches { touches self.new ≤ touches self.old + 6 }
    {
        if self.buffers == 0 {
            return (MailReply::Unknown, Wakes::Nobody);
        }
        self.buffers -= 1;
        (MailReply::Done, self.ended())
    }

    // Returns whether no further message will be queued.
    fn is_over(&self) -> bool
        ensures { result
            ≡ (nat_eq self.now.reserved 0 && (self.now.closed || nat_eq self.now.buffers 0)) }
    {
        self.reserved == 0 && (self.closed || self.buffers == 0)
    }

    // Names the worker, if no further message will be queued.
    fn ended(&self) -> Wakes
        ensures named { is_over self.now ≡ true → result ≡ Wakes.One 0 }
        ensures waits { (key : ℕ) → result ≡ Wakes.Wait key → ⊥ }
        ensures one { (key : ℕ) → result ≡ Wakes.One key → (is_over self.now ≡ true) × (0 ≡ key) }
        ensures most { (result ≡ Wakes.Nobody)
            ⊎ ((is_over self.now ≡ true) × (result ≡ Wakes.One 0)) }
    {
        if self.is_over() {
            return Wakes::One(WORKER);
        }
        Wakes::Nobody
    }

    // Returns whether the worker would be told to wait for a message.
    fn lacks_message(&self) -> bool
        ensures stalls { result ≡ true → Stalls self.now Waiter.worker }
        ensures exact { Stalls self.now Waiter.worker → result ≡ true }
    {
        self.messages.queued() == 0 && !self.is_over()
    }

    // Returns whether the ticket would be told to wait for its place.
    fn lacks_place(&self, key: u64) -> bool
        ensures stalls { result ≡ true → Stalls self.now (Waiter.ticket key) }
        ensures exact { Stalls self.now (Waiter.ticket key) → result ≡ true }
    {
        !self.closed && self.queue.is_waiting(key)
    }

    /// Returns whether whoever waits at this key would still be told to wait. Of those who share a key,
    /// it returns `false`.
    pub(crate) fn is_stalled(&self, key: usize) -> bool
        ensures stalls { result ≡ true → stalls self.now key }
        ensures exact { key ≢ 2 ^ 64 - 1 → stalls self.now key → result ≡ true }
    {
        if key == WORKER {
            return self.lacks_message();
        }
        if key == SHARED {
            return false;
        }
        if key % 2 == 1 {
            return self.lacks_place(key as u64 / 2);
        }
        self.messages.is_open(key as u64 / 2 - 1)
    }

    // Returns how many places are free.
    fn free(&self) -> usize
        ensures { result + (self.now.reserved + queued self.now.messages + granted self.now.queue)
            ≡ self.now.bound }
    {
        self.bound - (self.reserved + self.messages.queued() + self.queue.granted())
    }

    pub(crate) fn cancel(&mut self, key: u64) -> (MailReply<Request, F, E>, Wakes)
        ensures follows { Follows self.old (MailStep.Cancel key) result.0 self.new }
        ensures names { NamesPlaces self.old self.new result.1 }
        ensures pending { WaitsWell self.new result.1 }
        ensures one { OneGoesOn stalls self.new result.1 }
        ensures most { NamesAtMost self.old (MailStep.Cancel key) result.0 self.new result.1 }
        ensures touches { touches self.new ≤ touches self.old + 6 }
    {
        if self.closed {
            return (MailReply::Done, Wakes::Nobody);
        }
        let (has_left, left) = self.queue.leave(key);
        let wakes = named(left);
        if has_left {
            return (MailReply::Done, wakes);
        }
        (MailReply::Unknown, wakes)
    }

    pub(crate) fn unreserve(&mut self) -> (MailReply<Request, F, E>, Wakes)
        ensures follows { Follows self.old MailStep.Unreserve result.0 self.new }
        ensures names { NamesPlaces self.old self.new result.1 }
        ensures pending { WaitsWell self.new result.1 }
        ensures one { OneGoesOn stalls self.new result.1 }
        ensures most { NamesAtMost self.old MailStep.Unreserve result.0 self.new result.1 }
        ensures touches { touches self.new ≤ touches self.old + 6 }
    {
        if self.reserved == 0 {
            return (MailReply::Unknown, Wakes::Nobody);
        }
        self.reserved -= 1;
        let wakes = named(self.queue.admit());
        (MailReply::Done, wakes.and(self.ended()))
    }

    // Adds a waiter, since no place is free. There is room for its message.
    fn queue_up(&mut self) -> (MailReply<Request, F, E>, Wakes)
        requires closed { self.old.closed ≡ false }
        requires full { self.old.bound
            ≤ self.old.reserved + queued self.old.messages + granted self.old.queue }
        requires room { len self.old.messages + self.old.reserved + size self.old.queue
            < capacity self.old.messages }
        ensures follows { Follows self.old MailStep.Reserve result.0 self.new }
        ensures names { NamesPlaces self.old self.new result.1 }
        ensures pending { WaitsWell self.new result.1 }
        ensures one { OneGoesOn stalls self.new result.1 }
        ensures most { NamesAtMost self.old MailStep.Reserve result.0 self.new result.1 }
        ensures waits { is_waiting result.0 ≡ true
            → result.1 ≡ Wakes.Wait (key_of MailStep.Reserve result.0) }
        ensures excused { result.0 ≡ MailReply.Memory → room self.old.queue ≤ size self.old.queue }
        ensures touches { touches self.new ≤ touches self.old + 6 }
    {
        match self.queue.wait() {
            Ok(key) => (MailReply::Waiting(key), Wakes::Wait(ticket(key))),
            Err(AllocError) => (MailReply::Memory, Wakes::Nobody),
        }
    }
}

impl<Request: Drop, F, E: Clone> Mailbox<Request, F, E> {
    ghost use Rattle.std.specs.Prelude.{false};
    ghost use Rattle.tower_buffer.specs.Mail.{is_waiting};
    ghost use Rattle.tower_buffer.specs.MailKeys.{key_of};
    ghost use Rattle.tower_buffer.specs.Mailbox.{Follows, HasRoom, touches};
    ghost use Rattle.tower_buffer.specs.MailWakes.{NamesAtMost, NamesPlaces, Stalls, Waiter, WaitsWell, stalls};

    #[inline(always)]
    pub(crate) fn reserve(&mut self) -> (MailReply<Request, F, E>, Wakes)
        requires { (x y : E) → E.is_clone x y → y ≡ x }
        ensures follows { Follows self.old MailStep.Reserve result.0 self.new }
        ensures names { NamesPlaces self.old self.new result.1 }
        ensures pending { WaitsWell self.new result.1 }
        ensures one { OneGoesOn stalls self.new result.1 }
        ensures most { NamesAtMost self.old MailStep.Reserve result.0 self.new result.1 }
        ensures waits { is_waiting result.0 ≡ true
            → result.1 ≡ Wakes.Wait (key_of MailStep.Reserve result.0) }
        ensures excused { result.0 ≡ MailReply.Memory → self.old.closed ≡ false
            → ¬ (HasRoom self.old) }
        ensures touches { touches self.new ≤ touches self.old + 6 }
    {
        if self.closed {
            return (self.messages.shut(), Wakes::Nobody);
        }
        // No more messages are promised room than there is.
        prove!(self.reserved <= self.messages.capacity());
        let promised = self.reserved + self.queue.granted() + self.queue.ungranted();
        if promised == usize::MAX {
            return (MailReply::Memory, Wakes::Nobody);
        }
        let Ok(()) = self.messages.reserve(promised + 1) else {
            return (MailReply::Memory, Wakes::Nobody);
        };
        if 0 < self.free() {
            self.reserved += 1;
            return (MailReply::Place, Wakes::Nobody);
        }
        self.queue_up()
    }

    pub(crate) fn look(&mut self, key: u64) -> (MailReply<Request, F, E>, Wakes)
        requires { (x y : E) → E.is_clone x y → y ≡ x }
        ensures follows { Follows self.old (MailStep.Look key) result.0 self.new }
        ensures names { NamesPlaces self.old self.new result.1 }
        ensures pending { WaitsWell self.new result.1 }
        ensures one { OneGoesOn stalls self.new result.1 }
        ensures most { NamesAtMost self.old (MailStep.Look key) result.0 self.new result.1 }
        ensures waits { is_waiting result.0 ≡ true
            → result.1 ≡ Wakes.Wait (key_of (MailStep.Look key) result.0) }
        ensures told { Stalls self.old (Waiter.ticket key) → is_waiting result.0 ≡ true }
        ensures touches { touches self.new ≤ touches self.old + 6 }
    {
        if self.closed {
            return (self.messages.shut(), Wakes::Nobody);
        }
        match self.queue.look(key) {
            WaitState::Granted => {
                self.reserved += 1;
                (MailReply::Place, Wakes::Nobody)
            }
            WaitState::Waiting => (MailReply::Waiting(key), Wakes::Wait(ticket(key))),
            WaitState::Unknown => (MailReply::Unknown, Wakes::Nobody),
        }
    }

    #[inline(always)]
    pub(crate) fn send(&mut self, request: Request) -> (MailReply<Request, F, E>, Wakes)
        requires { (x y : E) → E.is_clone x y → y ≡ x }
        ensures follows { Follows self.old (MailStep.Send request) result.0 self.new }
        ensures names { NamesPlaces self.old self.new result.1 }
        ensures pending { WaitsWell self.new result.1 }
        ensures one { OneGoesOn stalls self.new result.1 }
        ensures most { NamesAtMost self.old (MailStep.Send request) result.0 self.new result.1 }
        ensures touches { touches self.new ≤ touches self.old + 6 }
    {
        if self.reserved == 0 {
            return (MailReply::Unknown, Wakes::Nobody);
        }
        if !self.has_worker {
            return self.refuse(request);
        }
        let id = self.messages.push(request);
        self.reserved -= 1;
        (MailReply::Sent(id), Wakes::One(WORKER))
    }

    // Refuses the request, since the worker is gone. The place is given back, unless the reply is `Memory`.
    fn refuse(&mut self, request: Request) -> (MailReply<Request, F, E>, Wakes)
        requires same { (x y : E) → E.is_clone x y → y ≡ x }
        requires reserved { 0 < self.old.reserved }
        requires gone { self.old.has_worker ≡ false }
        ensures follows { Follows self.old (MailStep.Send request) result.0 self.new }
        ensures names { NamesPlaces self.old self.new result.1 }
        ensures pending { WaitsWell self.new result.1 }
        ensures one { OneGoesOn stalls self.new result.1 }
        ensures most { NamesAtMost self.old (MailStep.Send request) result.0 self.new result.1 }
        ensures touches { touches self.new ≤ touches self.old + 6 }
    {
        match self.messages.shut() {
            MailReply::Memory => (MailReply::Memory, Wakes::Nobody),
            reply => {
                self.reserved -= 1;
                let wakes = named(self.queue.admit());
                (reply, wakes.and(self.ended()))
            }
        }
    }
}

impl<Request: Drop, F: Drop, E: Drop> Mailbox<Request, F, E> {
    ghost use Rattle.tower_buffer.specs.Mail.{ClearsOldest, TakesOldest, is_waiting};
    ghost use Rattle.tower_buffer.specs.MailKeys.{key_of};
    ghost use Rattle.std.specs.Prelude.{ℕ};
    ghost use Rattle.tower_buffer.specs.Mailbox.{Changes, FewEach, Follows, touches};
    ghost use Rattle.tower_buffer.specs.MailWakes.{NamesAtMost, NamesOneTicket, NamesPlaces, NamesTickets, Stalls, TicketGoesOn, Waiter, WaitsWell, is_over, stalls};

    pub(crate) fn take(&mut self) -> (MailReply<Request, F, E>, Wakes)
        ensures follows { Follows self.old MailStep.Take result.0 self.new }
        ensures names { NamesPlaces self.old self.new result.1 }
        ensures pending { WaitsWell self.new result.1 }
        ensures one { OneGoesOn stalls self.new result.1 }
        ensures most { NamesAtMost self.old MailStep.Take result.0 self.new result.1 }
        ensures waits { is_waiting result.0 ≡ true
            → result.1 ≡ Wakes.Wait (key_of MailStep.Take result.0) }
        ensures told { Stalls self.old Waiter.worker → is_waiting result.0 ≡ true }
        ensures few { FewEach self.old self.new }
    {
        let mut wakes = Wakes::Nobody;
        let mut cleared = false;
        'clearing: while let Some(first) = self.messages.oldest() {
            if !self.messages.is_cancelled(first) {
                let (reply, admitted) = self.take_first(first);
                return (reply, wakes.and(admitted));
            }
            wakes = wakes.and(self.clear_first(first));
            cleared = true;
        }
        if cleared {
            return (MailReply::Cleared, wakes);
        }
        if self.is_over() {
            return (MailReply::End, Wakes::Nobody);
        }
        (MailReply::Empty, Wakes::Wait(WORKER))
    }

    // Removes the oldest queued message, which nobody waits for.
    fn clear_first(&mut self, id: usize) -> Wakes
        requires oldest { first_or self.old.messages.links.order None ≡ Some id }
        requires cancelled { (message : Message Request F) → get self.old.messages.links.entries id
            ≡ Some message → message.fate ≡ Fate.Cancelled }
        ensures clears { Changes ClearsOldest self.old self.new }
        ensures same { (is_over self.new ≡ is_over self.old) × (self.new.closed ≡ self.old.closed) }
        ensures tickets { NamesTickets self.old self.new result }
        ensures one { TicketGoesOn self.new.queue result }
        ensures most { NamesOneTicket self.old.queue result }
        ensures stalls { StallsOn queue_stalls self.new.queue self.old.queue }
        ensures waits { (key : ℕ) → result ≡ Wakes.Wait key → ⊥ }
        ensures fewer { queued self.new.messages + 1 ≡ queued self.old.messages }
        ensures few { touches self.new ≤ touches self.old + 4 }
    {
        self.messages.clear(id);
        named(self.queue.admit())
    }

    // Takes the oldest queued message, which somebody waits for.
    fn take_first(&mut self, id: usize) -> (MailReply<Request, F, E>, Wakes)
        requires oldest { first_or self.old.messages.links.order None ≡ Some id }
        requires open { (message : Message Request F)
            → get self.old.messages.links.entries id ≡ Some message → message.fate ≡ Fate.Open }
        ensures takes { (request : Request) × (result.0 ≡ MailReply.Message id request)
            × Changes (λ old new. TakesOldest old id request new) self.old self.new }
        ensures tickets { NamesTickets self.old self.new result.1 }
        ensures one { TicketGoesOn self.new.queue result.1 }
        ensures most { NamesOneTicket self.old.queue result.1 }
        ensures stalls { StallsOn queue_stalls self.new.queue self.old.queue }
        ensures waits { (key : ℕ) → result.1 ≡ Wakes.Wait key → ⊥ }
        ensures fewer { queued self.new.messages + 1 ≡ queued self.old.messages }
        ensures few { touches self.new ≤ touches self.old + 5 }
    {
        let request = self.messages.open(id);
        (
            MailReply::Message(id as u64, request),
            named(self.queue.admit()),
        )
    }

    pub(crate) fn fail(&mut self, id: u64, error: E) -> (MailReply<Request, F, E>, Wakes)
        ensures follows { Follows self.old (MailStep.Fail id error) result.0 self.new }
        ensures all { result.0 ≡ MailReply.Done → result.1 ≡ Wakes.Unstalled }
        ensures names { NamesPlaces self.old self.new result.1 }
        ensures pending { WaitsWell self.new result.1 }
        ensures one { OneGoesOn stalls self.new result.1 }
        ensures most { NamesAtMost self.old (MailStep.Fail id error) result.0 self.new result.1 }
        ensures touches { touches self.new ≤ touches self.old + 6 }
    {
        if !self.messages.fail(id, error) {
            return (MailReply::Unknown, Wakes::Nobody);
        }
        self.queue = WaitQueue::new(self.alloc);
        self.closed = true;
        (MailReply::Done, Wakes::Unstalled)
    }

    pub(crate) fn worker_gone(&mut self) -> (MailReply<Request, F, E>, Wakes)
        ensures follows { Follows self.old MailStep.WorkerGone result.0 self.new }
        ensures all { result.0 ≡ MailReply.Done → result.1 ≡ Wakes.All }
        ensures names { NamesPlaces self.old self.new result.1 }
        ensures pending { WaitsWell self.new result.1 }
        ensures one { OneGoesOn stalls self.new result.1 }
        ensures most { NamesAtMost self.old MailStep.WorkerGone result.0 self.new result.1 }
    {
        self.messages.abandon();
        self.queue = WaitQueue::new(self.alloc);
        self.closed = true;
        self.has_worker = false;
        (MailReply::Done, Wakes::All)
    }
}
