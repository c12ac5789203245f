//! Stacks under retries.
ghost use Rattle.std.specs.Prelude.{⊤};

use crate::inner::{Echo, Pace};
use crate::rounds::rounds;
use futures::future::{Ready, ready};
use futures::task::{Context, Poll};
use std::alloc::{AllocError, AllocGlobal};
use std::cell::Cell;
use std::sync::Wait;
use tower::Service;
use tower::retry::budget::{Budget, TpsBudget};
use tower::retry::{Policy, Retry};
use tower::service::Fraction;

/// Pays for retries by what comes in for each response.
pub struct Paying<B> {
    budget: B,
}

impl<B: Drop> Drop for Paying<B> {
    #[inline(always)]
    fn drop(self) {
        let Paying { budget: _ } = self;
    }
}

impl<B> Paying<B> {
    /// Pays by this budget.
    pub fn new(budget: B) -> Paying<B> {
        Paying { budget }
    }
}

impl<B: Budget> Policy<u64, u64, u64> for Paying<B> {
    type Future = Ready<()>;

    ghost decided = { λ _ _ _ _ _ _ _. ⊤ };

    ghost cloned = { λ _ _ _ _. ⊤ };

    #[inline(always)]
    fn retry(&mut self, _request: &mut u64, outcome: &mut Result<u64, u64>) -> Option<Ready<()>> {
        if outcome.is_ok() {
            self.budget.deposit();
            return None;
        }
        if self.budget.withdraw() {
            return Some(ready(()));
        }
        None
    }

    fn clone_request(&mut self, request: &u64) -> Option<u64> {
        Some(*request)
    }
}

impl<B: Clone> Clone for Paying<B> {
    fn clone(&self) -> Result<Paying<B>, AllocError> {
        Ok(Paying {
            budget: self.budget.clone()?,
        })
    }
}

/// Fails every other call, counted through its clones.
#[derive(Drop)]
struct Failing<'a> {
    fails: &'a Cell<bool>,
}

impl<'a> Service<u64> for Failing<'a> {
    type Response = u64;

    type Error = u64;

    type Future = Ready<Result<u64, u64>>;

    ghost ready = { λ _. ⊤ };

    ghost polled = { λ _ _ _. ⊤ };

    ghost called = { λ _ _ _ _. ⊤ };

    ghost readies = { λ _ _ _. tt };

    fn poll_ready(&mut self, _cx: &mut Context<'_>) -> Poll<Result<(), u64>> {
        Poll::Ready(Ok(()))
    }

    fn call(&mut self, request: u64) -> Ready<Result<u64, u64>> {
        let fails = self.fails.get();
        self.fails.set(!fails);
        ready(if fails { Err(request) } else { Ok(request) })
    }
}

impl<'a> Clone for Failing<'a> {
    fn clone(&self) -> Result<Failing<'a>, AllocError> {
        Ok(Failing { fails: self.fails })
    }
}

/// Rounds over a service that never fails.
pub fn paid<R: Wait + AllocGlobal + Copy>(
    rt: R,
    cx: &mut Context<'_>,
    pace: &Pace,
    count: u64,
) -> Result<u64, AllocError> {
    let part = Fraction::new(1, 5);
    let budget = TpsBudget::new(rt, rt.alloc(), 10_000_000_000, 10, part, pace.clock())?;
    Ok(rounds(cx, Retry::new(Paying { budget }, Echo), pace, count))
}

/// Rounds of which each has one retry.
pub fn retried<R: Wait + AllocGlobal + Copy>(
    rt: R,
    cx: &mut Context<'_>,
    pace: &Pace,
    count: u64,
) -> Result<u64, AllocError> {
    let whole = Fraction::new(1, 1);
    let budget = TpsBudget::new(rt, rt.alloc(), 10_000_000_000, 10, whole, pace.clock())?;
    let fails = Cell::new(true);
    let service = Failing { fails: &fails };
    Ok(rounds(cx, Retry::new(Paying { budget }, service), pace, count))
}
