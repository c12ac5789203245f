//! The core of a semaphore: who holds a permit, and who waits for one.
ghost use Rattle.std.specs.Prelude.{◌≡◌, ◌<◌, ◌≤◌, ◌+◌, ◌^◌};
ghost use Rattle.tower_latch.specs.WaitQueue.{granted, ungranted};

use std::alloc::{AllocError, Global};
use tower_latch::wait_queue::{WaitQueue, WaitState};
use tower_latch::{Core, Wakes};

/// A step of a `LineCore`.
#[derive(Clone, Copy, Debug, PartialEq, Eq)]
pub enum LineStep {
    /// Takes a permit, or a place in the line.
    Join,
    /// Checks whether this key has got its permit. The key ends once the reply is `Granted`.
    Look(u64),
    /// Cancels the wait of this key, granted or not.
    Cancel(u64),
    /// Gives a permit back.
    Release,
    /// Counts the free permits.
    Free,
}

/// The reply of a `LineCore` to a step.
#[derive(Clone, Copy, Debug, PartialEq, Eq)]
pub enum LineReply {
    /// The caller holds a permit.
    Granted,
    /// The caller waits under this key, which no other waiter has.
    Waiting(u64),
    /// The holder or the waiter has left the line.
    Left,
    /// The number of free permits.
    Count(usize),
    /// No waiter has this key, or nobody holds a permit. The line is unchanged.
    Unknown,
    /// There is no room for a further waiter, or no further key. The line is unchanged.
    Memory,
}

/// The line of permits: the number of holders, and the queue of waiters.
#[derive(Drop)]
pub struct LineCore {
    max: usize,
    held: usize,
    queue: WaitQueue,
    ghost limit: { max < 2 ^ 64 },
    ghost fits: { held + granted queue ≤ max },
    // Nobody waits without a grant while a permit is free.
    ghost full: { 0 < ungranted queue → held + granted queue ≡ max },
}

impl LineCore {
    ghost use Rattle.std.specs.Prelude.{false, true};
    ghost use Rattle.tower_latch.specs.Wakes.{NamesAll, NamesOnly, OneGoesOn};
    ghost use Rattle.tower_latch.specs.WaitQueue.{stalls};
    ghost use Rattle.tower_limit.specs.Line.{initial, is_waiting, key_of};
    ghost use Rattle.tower_limit.specs.LineCore.{Follows, StandsFor};

    /// Creates a line of `max` permits, all free. Any number is allowed, including 0.
    pub fn new(alloc: Global, max: usize) -> LineCore
        ensures { StandsFor result (initial max) }
    {
        LineCore {
            max,
            held: 0,
            queue: WaitQueue::new(alloc),
        }
    }

    #[inline(always)]
    fn join(&mut self) -> (LineReply, Wakes)
        ensures follows { Follows self.old LineStep.Join result.0 self.new }
        ensures waits { is_waiting result.0 ≡ true → result.1 ≡ Wakes.Wait (key_of result.0) }
        ensures names { NamesAll stalls self.old.queue self.new.queue result.1 }
        ensures one { OneGoesOn stalls self.new.queue result.1 }
        ensures only { NamesOnly stalls self.old.queue self.new.queue result.1 }
    {
        if self.held + self.queue.granted() < self.max {
            self.held += 1;
            return (LineReply::Granted, Wakes::Nobody);
        }
        match self.queue.wait() {
            Ok(key) => (LineReply::Waiting(key), Wakes::Wait(key as usize)),
            Err(AllocError) => (LineReply::Memory, Wakes::Nobody),
        }
    }

    #[inline(never)]
    fn look(&mut self, key: u64) -> (LineReply, Wakes)
        ensures follows { Follows self.old (LineStep.Look key) result.0 self.new }
        ensures waits { is_waiting result.0 ≡ true → result.1 ≡ Wakes.Wait (key_of result.0) }
        ensures names { NamesAll stalls self.old.queue self.new.queue result.1 }
        ensures one { OneGoesOn stalls self.new.queue result.1 }
        ensures only { NamesOnly stalls self.old.queue self.new.queue result.1 }
        ensures told { stalls self.old.queue key → is_waiting result.0 ≡ true }
    {
        match self.queue.look(key) {
            WaitState::Granted => {
                self.held += 1;
                (LineReply::Granted, Wakes::Nobody)
            }
            WaitState::Waiting => (LineReply::Waiting(key), Wakes::Wait(key as usize)),
            WaitState::Unknown => (LineReply::Unknown, Wakes::Nobody),
        }
    }

    #[inline(never)]
    fn cancel(&mut self, key: u64) -> (LineReply, Wakes)
        ensures follows { Follows self.old (LineStep.Cancel key) result.0 self.new }
        ensures answers { is_waiting result.0 ≡ false }
        ensures names { NamesAll stalls self.old.queue self.new.queue result.1 }
        ensures one { OneGoesOn stalls self.new.queue result.1 }
        ensures only { NamesOnly stalls self.old.queue self.new.queue result.1 }
    {
        let (has_left, wakes) = self.queue.leave(key);
        if has_left {
            return (LineReply::Left, wakes);
        }
        (LineReply::Unknown, wakes)
    }

    #[inline(always)]
    fn release(&mut self) -> (LineReply, Wakes)
        ensures follows { Follows self.old LineStep.Release result.0 self.new }
        ensures answers { is_waiting result.0 ≡ false }
        ensures names { NamesAll stalls self.old.queue self.new.queue result.1 }
        ensures one { OneGoesOn stalls self.new.queue result.1 }
        ensures only { NamesOnly stalls self.old.queue self.new.queue result.1 }
    {
        if self.held == 0 {
            return (LineReply::Unknown, Wakes::Nobody);
        }
        self.held -= 1;
        (LineReply::Left, self.queue.admit())
    }

    fn free(&self) -> usize
        ensures { Follows self.now LineStep.Free (LineReply.Count result) self.now }
    {
        self.max - (self.held + self.queue.granted())
    }
}

impl Core for LineCore {
    type Step = LineStep;

    type Reply = LineReply;

    type Terms = usize;

    ghost use Rattle.std.specs.Prelude.{ℕ, true};
    ghost use Rattle.tower_latch.specs.Latch.{StepsAs};
    ghost use Rattle.tower_latch.specs.Wakes.{NamesAll, NamesOnly, OneGoesOn};
    ghost use Rattle.tower_limit.specs.Line.{Asks, LineSteps, is_waiting, key_of};
    ghost use Rattle.tower_latch.specs.WaitQueue.{stalls as queue_stalls};
    ghost use Rattle.tower_limit.specs.LineCore.{Opens, StandsFor, touches};
    ghost use Rattle.tower_limit.specs.LineTokens.{paid, gained};
    ghost use Rattle.tower_limit.specs.LineTokensLemmas.{starts, counts};

    ghost opens = { Opens };

    ghost terms = { λ core. core.max };

    // A token shows that its holder holds a permit.
    ghost size = { λ max. max };

    ghost out = { λ core. core.held };

    ghost paid = { paid };

    ghost gained = { gained };

    ghost starts = { starts };

    ghost counts = { counts };

    ghost steps = { StepsAs StandsFor LineSteps };

    ghost is_wait = { is_waiting };

    ghost key_of = { λ _ reply. key_of reply };

    ghost asks = { Asks };

    // Who waits without a grant is told to wait.
    ghost stalls = { λ core key. queue_stalls core.queue key };

    /// Makes a step, which reaches at most six entries of the queue. Names at most one waiter: one that may
    /// look again, or one that left. Each step names only whoever waited without a grant before it, and
    /// doesn't after it.
    #[inline(always)]
    fn step(&mut self, step: LineStep) -> (LineReply, Wakes)
        ensures steps { StepsAs StandsFor LineSteps self.old step result.0 self.new }
        ensures waits { is_waiting result.0 ≡ true → result.1 ≡ Wakes.Wait (key_of result.0) }
        ensures names { NamesAll queue_stalls self.old.queue self.new.queue result.1 }
        ensures one { OneGoesOn queue_stalls self.new.queue result.1 }
        ensures only { NamesOnly queue_stalls self.old.queue self.new.queue result.1 }
        ensures told { (key : ℕ) → Asks step key → queue_stalls self.old.queue key
            → is_waiting result.0 ≡ true }
        ensures touches { touches self.new ≤ touches self.old + 6 }
    {
        match step {
            LineStep::Join => self.join(),
            LineStep::Look(key) => self.look(key),
            LineStep::Cancel(key) => self.cancel(key),
            LineStep::Release => self.release(),
            LineStep::Free => (LineReply::Count(self.free()), Wakes::Nobody),
        }
    }

    fn terms(&self) -> usize {
        self.max
    }
}
