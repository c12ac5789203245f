//! A queue of those who wait for grants, in the order of asking.
ghost use Rattle.std.specs.Prelude.{◌≡◌, ◌<◌, ◌≤◌, ◌+◌, IsOk, IfOk, length, true};
ghost use Rattle.slab.specs.Slab.{slab_len};
ghost use Rattle.tower_base.specs.Order.{has};
ghost use Rattle.tower_latch.specs.Waiters.{IsPresent, are_apart, outside};

use crate::Wakes;
use std::alloc::{AllocError, Global};
use tower_base::links::Links;

/// The state of a waiter.
#[derive(Clone, Copy, Debug, PartialEq, Eq)]
pub enum WaitState {
    /// The waiter got its grant and left the queue. Its key has ended.
    Granted,
    /// The waiter still waits.
    Waiting,
    /// No waiter has the key.
    Unknown,
}

/// A queue of waiters, each under a key of its own. Grants go to waiters in the order of asking, and a
/// waiter learns of its grant when it looks.
///
/// A waiter without a grant is linked in the order of asking. A waiter that was granted, but hasn't seen
/// its grant, stands outside that order. No operation searches.
#[derive(Drop)]
pub struct WaitQueue {
    granted: usize,
    waiters: Links<()>,
    ghost apart: { are_apart waiters.order ≡ true },
    ghost present: { IsPresent waiters },
    ghost count: { length (outside waiters) ≡ granted },
    ghost places: { slab_len waiters.entries ≡ granted + length waiters.order },
}

impl WaitQueue {
    ghost use Rattle.tower_latch.specs.WaitList.{Admits, Enters, Leaves, Looks, empty};
    ghost use Rattle.tower_latch.specs.WaitQueue.{Follows, StandsFor, granted, room, size, stalls, touches, ungranted};
    ghost use Rattle.tower_latch.specs.Wakes.{FreesOne, NamesAll, NamesOnly, OneGoesOn, StallsOn};

    /// Creates an empty queue. It allocates nothing until the first `wait`.
    pub fn new(alloc: Global) -> WaitQueue
        ensures stands { StandsFor result empty }
        ensures room { room result ≡ 0 }
        ensures touches { touches result ≡ 0 }
    {
        WaitQueue {
            granted: 0,
            waiters: Links::new(alloc),
        }
    }

    /// Returns how many waiters were granted and haven't seen their grant.
    #[inline(always)]
    pub fn granted(&self) -> usize
        ensures { result ≡ granted self.now }
    {
        self.granted
    }

    /// Returns how many waiters have no grant.
    #[inline(always)]
    pub fn ungranted(&self) -> usize
        ensures { result ≡ ungranted self.now }
    {
        self.waiters.len()
    }

    /// Returns whether the waiter with this key has no grant, so that `look` would tell it to wait. It
    /// reaches one entry, which isn't counted.
    #[inline(always)]
    pub fn is_waiting(&self, key: u64) -> bool
        ensures { result ≡ has self.now.waiters.order key }
    {
        self.waiters.peek_linked(key as usize)
    }

    /// Adds a waiter behind all others, and returns its key. Returns an error if allocation fails.
    #[inline(always)]
    pub fn wait(&mut self) -> Result<u64, AllocError>
        ensures follows { Follows self.old (λ old new. Enters old result new) self.new }
        ensures succeeds { size self.old < room self.old → IsOk result }
        ensures stalls { IfOk result (λ key. stalls self.new key) }
        ensures names { StallsOn stalls self.old self.new }
        ensures room { room self.old ≤ room self.new }
        ensures touches { touches self.new ≤ touches self.old + 2 }
    {
        self.waiters.reserve(1)?;
        Ok(self.waiters.push_back(()) as u64)
    }

    /// Returns the state of the waiter with this key. If it is granted, it leaves the queue, and its key
    /// ends.
    #[inline(always)]
    pub fn look(&mut self, key: u64) -> WaitState
        ensures follows { Follows self.old (λ old new. Looks old key result new) self.new }
        ensures stalls { result ≡ WaitState.Waiting → stalls self.new key }
        ensures told { stalls self.old key → result ≡ WaitState.Waiting }
        ensures names { StallsOn stalls self.old self.new }
        ensures room { room self.new ≡ room self.old }
        ensures touches { touches self.new ≤ touches self.old + 4 }
    {
        if self.waiters.is_linked(key as usize) {
            return WaitState::Waiting;
        }
        let Some(()) = self.waiters.remove(key as usize) else {
            return WaitState::Unknown;
        };
        self.granted -= 1;
        WaitState::Granted
    }

    /// Removes the waiter with this key, granted or not. If it had a grant, that goes to the next
    /// waiter. Returns whether there was such a waiter, and names the one that left, or the one that got
    /// its grant.
    #[inline(always)]
    pub fn leave(&mut self, key: u64) -> (bool, Wakes)
        ensures follows { Follows self.old (λ old new. Leaves old key result.0 new) self.new }
        ensures names { NamesAll stalls self.old self.new result.1 }
        ensures one { OneGoesOn stalls self.new result.1 }
        ensures only { NamesOnly stalls self.old self.new result.1 }
        ensures most { FreesOne stalls self.old self.new result.1 }
        ensures room { room self.new ≡ room self.old }
        ensures touches { touches self.new ≤ touches self.old + 5 }
    {
        let waiting = self.waiters.len();
        let Some(()) = self.waiters.remove(key as usize) else {
            return (false, Wakes::Nobody);
        };
        if self.waiters.len() == waiting {
            self.granted -= 1;
            return (true, self.admit());
        }
        (true, Wakes::One(key as usize))
    }

    /// Gives a grant to the first waiter that has none, if there is one, and names it.
    #[inline(always)]
    pub fn admit(&mut self) -> Wakes
        ensures follows { Follows self.old Admits self.new }
        ensures names { NamesAll stalls self.old self.new result }
        ensures one { OneGoesOn stalls self.new result }
        ensures only { NamesOnly stalls self.old self.new result }
        ensures most { FreesOne stalls self.old self.new result }
        ensures fewer { StallsOn stalls self.new self.old }
        ensures room { room self.new ≡ room self.old }
        ensures touches { touches self.new ≤ 2 + touches self.old }
    {
        let Some(first) = self.waiters.front() else {
            return Wakes::Nobody;
        };
        prove!(self.granted < self.waiters.capacity());
        self.waiters.unlink(first);
        self.granted += 1;
        Wakes::One(first)
    }
}
