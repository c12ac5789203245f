//! The core of a budget.
ghost use Rattle.std.specs.Prelude.{◌≡◌, ◌≢◌, ℕ, pos, ◌≤◌, ◌<◌, ◌+◌, ◌^◌, IfOk, IsTrue, nat_lt};
ghost use Rattle.tower_retry.specs.Budget.{Fits, generation_at, terms_of};
ghost use Rattle.tower_retry.specs.BudgetAmounts.{AreSmall};
ghost use Rattle.tower_retry.specs.Slots.{kept_sum, slot};

use crate::retry::budget::slots::Slots;
use crate::retry::budget::steps::{BudgetReply, BudgetStep, Terms};
use std::alloc::{AllocError, Global};
use tower_base::service::Fraction;
use tower_latch::{Core, Wakes};

/// The core of a budget: the amount of the present generation, and those of the ten before it.
#[derive(Drop)]
pub struct BudgetCore {
    terms: Terms,
    made: u64,
    generation: u64,
    // The last moment of the present generation.
    last: u64,
    present: i128,
    // The sum of the reserve and the slots.
    older: i128,
    slots: Slots,
    ghost windows: { terms.window ≢ 0 },
    ghost small: { terms.reserve < 2 ^ 127 },
    ghost summed: { older ≡ kept_sum (pos terms.reserve) slots.index slots.amounts.items 10 },
    // The moments after `last` are exactly those of later generations.
    ghost ends: { (moment : ℕ) → moment < 2 ^ 64
        → nat_lt last moment ≡ nat_lt generation (generation_at made terms.window moment) },
    // Nothing was added before the first generation.
    ghost begun: { (back : ℕ) → generation < back → back ≤ 10
        → slot slots.index slots.amounts.items back ≡ pos 0 },
}

impl BudgetCore {
    ghost use Rattle.std.specs.Prelude.{int_le, pos, ◌↔◌};
    ghost use Rattle.tower_retry.specs.Budget.{Fits, Ledger, Withdraws, added, advanced, initial, terms_of};
    ghost use Rattle.tower_retry.specs.BudgetCore.{Changes, Opens, StandsFor, kept_balance, writes};

    /// Creates a budget at `moment`, with room for all that it will keep. Times are in nanoseconds.
    /// Requires what `fits` tests. Returns an error if allocation fails.
    pub fn new(
        alloc: Global,
        ttl: u64,
        min_per_sec: u32,
        fraction: Fraction,
        moment: u64,
    ) -> Result<BudgetCore, AllocError>
        requires { Fits ttl min_per_sec fraction }
        ensures made { IfOk result
            (λ core. StandsFor core (initial (terms_of ttl min_per_sec fraction) moment)) }
        ensures opens { IfOk result Opens }
        ensures small { IfOk result (λ core. AreSmall core.terms) }
    {
        let slots = Slots::new(alloc)?;
        let terms = terms(ttl, min_per_sec, fraction);
        Ok(BudgetCore {
            terms,
            made: moment,
            generation: 0,
            last: moment.saturating_add(terms.window - 1),
            present: 0,
            older: slots.sum(terms.reserve as i128),
            slots,
        })
    }

    /// Returns `true` if the arguments are in the ranges that `new` requires: `ttl` is 1 to 60 seconds,
    /// `min_per_sec` is below 2147483647, and `fraction` is at most 1000.
    pub fn fits(ttl: u64, min_per_sec: u32, fraction: Fraction) -> bool
        ensures { IsTrue result ↔ Fits ttl min_per_sec fraction }
    {
        ttl >= 1_000_000_000
            && ttl <= 60_000_000_000
            && min_per_sec < 2147483647
            && fraction.numerator as u64 <= 1000 * fraction.divisor as u64
    }

    #[inline(always)]
    fn advance(&mut self, moment: u64)
        ensures changes { Changes (λ ledger. advanced ledger moment) self.old self.new }
        ensures terms { self.new.terms ≡ self.old.terms }
        ensures writes { writes self.new ≤ writes self.old + 11 }
    {
        if moment > self.last {
            self.expire(moment);
        }
    }

    // Advances to a later generation.
    #[cold]
    #[inline(never)]
    fn expire(&mut self, moment: u64)
        requires { self.old.last < moment }
        ensures changes { Changes (λ ledger. advanced ledger moment) self.old self.new }
        ensures terms { self.new.terms ≡ self.old.terms }
        ensures writes { writes self.new ≤ writes self.old + 11 }
    {
        let since = moment - self.made;
        let generation = since / self.terms.window;
        self.slots
            .advance(self.present, generation - self.generation);
        self.older = self.slots.sum(self.terms.reserve as i128);
        self.present = 0;
        self.generation = generation;
        let begins = moment - since % self.terms.window;
        self.last = begins.saturating_add(self.terms.window - 1);
    }

    #[inline(always)]
    fn add(&mut self, amount: i128)
        ensures changes { Changes (λ ledger. added ledger amount) self.old self.new }
        ensures writes { writes self.new ≡ writes self.old }
    {
        self.present = self.present.saturating_add(amount);
    }

    #[inline(always)]
    fn affords(&self) -> bool
        ensures { result ≡ int_le (pos self.now.terms.withdrawal) (kept_balance self.now) }
    {
        self.older.saturating_add(self.present) >= self.terms.withdrawal as i128
    }

    #[inline(always)]
    fn deposit(&mut self, moment: u64)
        ensures changes { Changes
            (λ ledger. added (advanced ledger moment) (pos ledger.terms.deposit))
            self.old self.new }
        ensures writes { writes self.new ≤ writes self.old + 11 }
    {
        self.advance(moment);
        self.add(self.terms.deposit as i128);
    }

    #[inline(always)]
    fn withdraw(&mut self, moment: u64) -> bool
        ensures withdraws { (ledger : Ledger) → StandsFor self.old ledger → (next : Ledger)
            × Withdraws (advanced ledger moment) result next × StandsFor self.new next }
        ensures writes { writes self.new ≤ writes self.old + 11 }
    {
        self.advance(moment);
        if !self.affords() {
            return false;
        }
        self.add(-(self.terms.withdrawal as i128));
        true
    }
}

// Returns the terms of a budget. The ranges of the arguments keep the numbers small.
fn terms(ttl: u64, min_per_sec: u32, fraction: Fraction) -> Terms
    requires { Fits ttl min_per_sec fraction }
    ensures terms { result ≡ terms_of ttl min_per_sec fraction }
    ensures small { AreSmall result }
{
    let p = fraction.numerator as u64;
    let q = fraction.divisor as u64;
    let (deposit, withdrawal) = if p == 0 {
        (0, 1)
    } else if p <= q {
        (1, q / p)
    } else {
        (1000, 1000 * q / p)
    };
    Terms {
        deposit,
        withdrawal,
        reserve: min_per_sec as u128 * (ttl / 1_000_000_000) as u128 * withdrawal as u128,
        window: ttl / 10,
    }
}

impl Core for BudgetCore {
    type Step = BudgetStep;

    type Reply = BudgetReply;

    type Terms = Terms;

    ghost use Rattle.std.specs.Prelude.{false};
    ghost use Rattle.tower_latch.specs.Latch.{StepsAs};
    ghost use Rattle.tower_retry.specs.Budget.{Steps};
    ghost use Rattle.tower_retry.specs.BudgetCore.{Opens, StandsFor, writes};
    ghost use Rattle.tower_latch.specs.LatchLemmas.{none_held, no_places};
    ghost use Rattle.tower_retry.specs.BudgetTermsLemmas.{keeps_terms};

    ghost opens = { Opens };

    ghost steps = { StepsAs StandsFor Steps };

    ghost is_wait = { λ _. false };

    ghost terms = { λ core. core.terms };

    ghost starts = { none_held _ };

    ghost counts = { no_places _ _ keeps_terms };

    // Makes the step. Writes at most eleven slots.
    fn step(&mut self, step: BudgetStep) -> (BudgetReply, Wakes)
        ensures steps { StepsAs StandsFor Steps self.old step result.0 self.new }
        ensures writes { writes self.new ≤ writes self.old + 11 }
    {
        match step {
            BudgetStep::Deposit(moment) => {
                self.deposit(moment);
                (BudgetReply::Done, Wakes::Nobody)
            }
            BudgetStep::Withdraw(moment) => {
                (BudgetReply::Allowed(self.withdraw(moment)), Wakes::Nobody)
            }
        }
    }

    fn terms(&self) -> Terms {
        self.terms
    }
}
