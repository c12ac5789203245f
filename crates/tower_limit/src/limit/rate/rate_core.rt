//! The call moments of a rate limit.
ghost use Rattle.std.specs.Prelude.{◌≡◌, ◌≤◌, ◌<◌, ℕ, true, false, length, nat_eq, nat_le, IfOk, IsErr};
ghost use Rattle.tower_limit.specs.Rate.{RateCoreView, Calls, StandsFor, Stands, initial, is_limited, admits, may_call, after_poll, after_call};

use crate::limit::rate::Rate;
use circular_buffer::HeapCircularBuffer;
use std::alloc::{AllocError, Global};
use std::marker::Model;

/// The greatest number of moments that may be allocated: 8 bytes each, and `2^63 - 1` bytes in all.
const MOST_KEPT: u64 = 1_152_921_504_606_846_975;

/// The moments of the last `num` calls, in nanoseconds, and whether the last poll admits a call. It
/// allocates when it is created, and never later.
#[derive(Drop)]
pub struct RateCore {
    rate: Rate,
    // The newest is in front.
    moments: HeapCircularBuffer<u64>,
    admitted: bool,
}

impl Model for RateCore {
    ghost Value = { RateCoreView };

    ghost view = { λ c. record {
      num = c.rate.num;
      per = c.rate.per;
      kept = c.moments.items;
      admitted = c.admitted;
    } };

    // There is room for the last `num` moments, and no more of them are kept.
    ghost invariant = { λ c. (c.moments.capacity ≡ c.rate.num)
        × (length c.moments.items ≤ c.rate.num) };
}

impl RateCore {
    /// Creates a core without calls. Returns `AllocError` if allocation of `num` moments of 8 bytes
    /// fails, and also, without trying it, if these are more than `2^63 - 1` bytes.
    pub fn new(alloc: Global, rate: Rate) -> Result<RateCore, AllocError>
        ensures made { IfOk result (λ core. StandsFor core (initial rate.num rate.per)) }
        ensures refused { 1152921504606846975 < rate.num → IsErr result }
    {
        if rate.num > MOST_KEPT {
            return Err(AllocError);
        }
        let moments = HeapCircularBuffer::with_capacity(alloc, rate.num as usize)?;
        Ok(RateCore {
            rate,
            moments,
            admitted: false,
        })
    }

    /// Returns whether `num` or more calls were made. If so, each further call needs a poll that returns
    /// `true`.
    pub fn limited(&self) -> bool
        ensures full { result ≡ nat_eq (length self.now.kept) self.now.num }
        ensures limited { (plain : Calls) → StandsFor self.now plain → result ≡ is_limited plain }
        ensures stands { Stands self.now (λ plain. Unit {0}) }
        ensures may { result ≡ false → Stands self.now (λ plain. may_call plain ≡ true) }
    {
        self.moments.len() as u64 == self.rate.num
    }

    /// Returns the moment from which on a poll admits a call. It is 0 if fewer than `num` calls were made.
    pub fn opens(&self) -> u128
        ensures { (plain : Calls) → StandsFor self.now plain
            → (moment : ℕ) → admits plain moment ≡ nat_le result moment }
    {
        match self.moments.get((self.rate.num - 1) as usize) {
            Some(call) => *call as u128 + self.rate.per as u128,
            None => 0,
        }
    }

    // Returns whether the `num`-th last call, if there is one, was at least a period before this moment.
    fn is_free_at(&self, moment: u64) -> bool
        ensures { (plain : Calls) → StandsFor self.now plain → result ≡ admits plain moment }
    {
        self.opens() <= moment as u128
    }

    /// Returns whether a call may be made after a poll at this moment: if fewer than `num` calls were
    /// made, or if the `num`-th last one was at least a period ago.
    #[tactic(auto, using(crate::proofs::RateStands::open_may))]
    pub fn poll(&mut self, moment: u64) -> bool
        ensures admits { (plain : Calls) → StandsFor self.old plain → result ≡ admits plain moment }
        ensures admission { (plain : Calls) → StandsFor self.old plain
            → StandsFor self.new (after_poll plain moment) }
        ensures may { result ≡ true → Stands self.new (λ plain. may_call plain ≡ true) }
        ensures noted { self.new ≡ record self.old { admitted = result } }
    {
        self.admitted = self.is_free_at(moment);
        self.admitted
    }

    /// Counts a call. No poll has admitted the next one.
    pub fn call(&mut self, moment: u64)
        requires { Stands self.old (λ plain. may_call plain ≡ true) }
        ensures { (plain : Calls) → StandsFor self.old plain
            → StandsFor self.new (after_call plain moment) }
    {
        let _oldest = self.moments.push_front(moment);
        self.admitted = false;
    }
}
