//! The ten slots of a budget, and the only functions that write them.
ghost use Rattle.std.specs.Prelude.{◌≡◌, ◌+◌, ◌<◌, ◌≤◌, IfOk, ◌%◌, pos, replicate, vec_len};
ghost use Rattle.tower_retry.specs.Slots.{Shifted, kept_sum};

use std::alloc::{AllocError, Global};
use tower_base::counter::GhostCounter;

/// A ring of the amounts of the ten generations before the present one. The slot at the index has the
/// oldest, that of ten generations back.
#[derive(Drop)]
pub struct Slots {
    amounts: Vec<i128>,
    index: usize,
    writes: GhostCounter,
    ghost ten: { vec_len amounts ≡ 10 },
    ghost within: { index < 10 },
}

impl Slots {
    pub fn new(alloc: Global) -> Result<Slots, AllocError>
        ensures { IfOk result (λ slots. slots.amounts.items ≡ replicate 10 (pos 0)) }
    {
        let amounts = vec![in alloc; 0i128; 10]?;
        Ok(Slots {
            amounts,
            index: 0,
            writes: GhostCounter::new(),
        })
    }

    /// Writes the amount of the present generation to the slot at the index, and clears the slots of the
    /// generations between that one and the new one, at most all ten. The slot at the new index then has
    /// the amount of ten generations before the new one.
    pub fn advance(&mut self, present: i128, generations: u64)
        requires { 0 < generations }
        ensures moves { Shifted generations present self.old.index self.old.amounts.items
            self.new.index self.new.amounts.items }
        ensures writes { self.new.writes.count ≤ self.old.writes.count + 11 }
    {
        self.put(present);
        for past in 1..generations.min(11) {
            self.put(0);
        }
        self.move_on(generations.saturating_sub(11));
    }

    /// Returns the sum of the reserve and all ten slots, added newest first.
    pub fn sum(&self, reserve: i128) -> i128
        ensures { result ≡ kept_sum reserve self.now.index self.now.amounts.items 10 }
    {
        let mut sum = reserve;
        for back in 0..10 {
            sum = sum.saturating_add(self.amounts[(self.index + 9 - back) % 10]);
        }
        sum
    }

    // Goes one generation further: writes the slot at the index, and moves the index on.
    fn put(&mut self, amount: i128)
        ensures moves { Shifted 1 amount self.old.index self.old.amounts.items self.new.index
            self.new.amounts.items }
        ensures writes { self.new.writes.count ≡ self.old.writes.count + 1 }
    {
        self.writes.tick();
        self.amounts[self.index] = amount;
        self.move_on(1);
    }

    // Moves the index on, and writes no slot.
    fn move_on(&mut self, generations: u64)
        ensures index { self.new.index ≡ (self.old.index + generations % 10) % 10 }
        ensures amounts { self.new.amounts ≡ self.old.amounts }
        ensures writes { self.new.writes.count ≡ self.old.writes.count }
    {
        self.index = (self.index + (generations % 10) as usize) % 10;
    }
}
