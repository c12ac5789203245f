//! A budget over a clock.
ghost use Rattle.std.specs.Prelude.{◌≡◌, Err, IfErr, IfOk, IsTrue, MatchResult, ◌↔◌};
ghost use Rattle.tower_retry.specs.Budget.{Fits, terms_of};
ghost use Rattle.tower_retry.specs.BudgetAmounts.{AreSmall};
ghost use Rattle.tower_retry.specs.TpsBudget.{TpsBudgetView, Deposited, Withdrew, IsClone};

use crate::retry::budget::{Budget, BudgetCore, BudgetReply, BudgetStep};
use std::alloc::{AllocError, Global};
use std::marker::Model;
use std::sync::Wait;
use tower_base::service::{Clock, Fraction};
use tower_latch::{Guarded, Latch};

/// A budget that allows a number of retries a second and, besides, a fraction of the successes: the Rust's
/// `tower::retry::budget::TpsBudget`. Its clones share one core.
#[derive(Drop)]
pub struct TpsBudget<L: Latch<BudgetCore>, C> {
    latch: L,
    clock: C,
}

impl<L: Latch<BudgetCore>, C> Model for TpsBudget<L, C> {
    ghost Value = { TpsBudgetView L C };

    ghost view = { λ budget. record { latch = budget.latch; clock = budget.clock } };
}

impl<R: Wait + Copy, C: Clock> TpsBudget<Guarded<BudgetCore, R>, C> {
    /// Creates a budget. A deposit counts for ten windows at least and less than eleven, each a tenth
    /// of `ttl` nanoseconds, rounded down. The reserve covers `min_per_sec` retries for each whole second of
    /// `ttl`; besides it a success pays for `retries` retries, but the price of a retry is rounded down
    /// (2/3 is as 1/1). Requires what `fits` tests. Reads the clock once.
    ///
    /// Returns an error and drops the clock if allocating the core fails.
    pub fn new(
        rt: R,
        alloc: Global,
        ttl: u64,
        min_per_sec: u32,
        retries: Fraction,
        mut clock: C,
    ) -> Result<Self, AllocError>
        requires { Fits ttl min_per_sec retries }
        ensures clock { IfOk result (λ budget. C.read clock budget.clock) }
        ensures terms { IfOk result (λ budget. ⟦<Guarded<BudgetCore, R> as Latch<BudgetCore>>⟧.terms
            budget.latch ≡ terms_of ttl min_per_sec retries) }
        ensures small { IfOk result (λ budget.
            AreSmall (⟦<Guarded<BudgetCore, R> as Latch<BudgetCore>>⟧.terms budget.latch)) }
    {
        let core = BudgetCore::new(alloc, ttl, min_per_sec, retries, clock.now())?;
        let latch = Guarded::new(rt, alloc, core)?;
        Ok(TpsBudget { latch, clock })
    }

    /// Creates a budget with a `ttl` of ten seconds, ten retries a second and one retry for five
    /// requests: the Rust's `default`. Returns an error if `new` does.
    pub fn with_clock(rt: R, alloc: Global, clock: C) -> Result<Self, AllocError>
        ensures clock { IfOk result (λ budget. C.read clock budget.clock) }
        ensures terms { IfOk result
            (λ budget. ⟦<Guarded<BudgetCore, R> as Latch<BudgetCore>>⟧.terms budget.latch
            ≡ record { deposit = 1; withdrawal = 5; reserve = 500; window = 1000000000 }) }
    {
        TpsBudget::new(rt, alloc, 10_000_000_000, 10, Fraction::new(1, 5), clock)
    }

    /// Returns `true` if the arguments are in the ranges that `new` requires: `ttl` is 1 to 60 seconds,
    /// `min_per_sec` is below 2147483647, and `retries` is at most 1000.
    pub fn fits(ttl: u64, min_per_sec: u32, retries: Fraction) -> bool
        ensures { IsTrue result ↔ Fits ttl min_per_sec retries }
    {
        BudgetCore::fits(ttl, min_per_sec, retries)
    }
}

impl<L: Latch<BudgetCore>, C: Clock> TpsBudget<L, C> {
    /// Creates a budget over the given latch. Doesn't read the clock.
    pub fn with_latch(latch: L, clock: C) -> TpsBudget<L, C>
        ensures { result ≡ record { latch = latch; clock = clock } }
    {
        TpsBudget { latch, clock }
    }
}

impl<L: Latch<BudgetCore>, C: Clock> Budget for TpsBudget<L, C> {
    ghost deposited = { Deposited L.gave C.Clock };

    ghost withdrew = { Withdrew L.gave C.Clock };

    #[inline(always)]
    fn deposit(&mut self) {
        let moment = self.clock.now();
        match self.latch.step(BudgetStep::Deposit(moment)) {
            BudgetReply::Done => {}
            BudgetReply::Allowed(_) => unreachable!(),
        }
    }

    #[inline(always)]
    fn withdraw(&mut self) -> bool {
        let moment = self.clock.now();
        match self.latch.step(BudgetStep::Withdraw(moment)) {
            BudgetReply::Allowed(allowed) => allowed,
            BudgetReply::Done => unreachable!(),
        }
    }
}

/// A clone shares the core and the clock. Cloning fails if the latch refuses its share.
impl<L: Latch<BudgetCore>, C: Clock> Clone for TpsBudget<L, C> {
    ghost is_clone = { IsClone L.gave L.shares C.Clock };

    fn clone(&self) -> Result<TpsBudget<L, C>, AllocError>
        ensures cases { MatchResult result (IsClone L.gave L.shares C.Clock self.now) (λ _. ¬ ⊥) }
        ensures refused { IfErr result (λ e. L.shares self.now.latch (Err e)) }
    {
        let latch = self.latch.share()?;
        Ok(TpsBudget {
            latch,
            clock: self.clock.share(),
        })
    }
}
