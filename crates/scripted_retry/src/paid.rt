//! `retry_budget TTL MIN NUMERATOR DIVISOR`: with a policy that makes a failed request again at once, while the budget of these numbers pays for it. Each
//! other answer is a deposit.
//!
//! `retry_backoff LEAST MOST NUMERATOR DIVISOR WORD`: with a policy that makes each failed request again, after the next wait of its backoff.
ghost use Rattle.std.specs.Prelude.{⊤};

use crate::budget::fraction_at;
use crate::rising::Rising;
use futures::future::{Ready, ready};
use scripted::report::Report;
use scripted::script::Script;
use std::alloc::AllocError;
use std::sync::Wait;
use tower_base::service::{Clock, Sleep};
use tower_base::util::rng::Rng;
use tower_latch::Latch;
use tower_retry::retry::backoff::{
    Backoff, ExponentialBackoff, ExponentialBackoffMaker, MakeBackoff,
};
use tower_retry::retry::budget::{Budget, BudgetCore, TpsBudget};
use tower_retry::retry::{Policy, Retry};

/// Retries errors while the budget pays.
#[derive(Clone, Drop)]
struct Paying<B> {
    budget: B,
}

impl<B: Budget> Policy<u8, u8, u8> for Paying<B> {
    type Future = Ready<()>;

    ghost decided = { λ _ _ _ _ _ _ _. ⊤ };

    ghost cloned = { λ _ _ _ _. ⊤ };

    fn retry(&mut self, _request: &mut u8, outcome: &mut Result<u8, u8>) -> Option<Ready<()>> {
        if outcome.is_ok() {
            self.budget.deposit();
            return None;
        }
        if !self.budget.withdraw() {
            return None;
        }
        Some(ready(()))
    }

    fn clone_request(&mut self, request: &u8) -> Option<u8> {
        Some(*request)
    }
}

/// Retries each error after the next wait.
#[derive(Clone, Drop)]
struct Patient<W> {
    backoff: W,
}

impl<G: Rng, C: Clock> Policy<u8, u8, u8> for Patient<ExponentialBackoff<G, C>> {
    type Future = Sleep<C>;

    ghost decided = { λ _ _ _ _ _ _ _. ⊤ };

    ghost cloned = { λ _ _ _ _. ⊤ };

    fn retry(&mut self, _request: &mut u8, outcome: &mut Result<u8, u8>) -> Option<Sleep<C>> {
        if outcome.is_ok() {
            return None;
        }
        Some(self.backoff.next_backoff())
    }

    fn clone_request(&mut self, request: &u8) -> Option<u8> {
        Some(*request)
    }
}

fn play_paid<L: Latch<BudgetCore>, C: Clock>(
    script: &Script<'_>,
    report: &mut Report<'_>,
    made: Result<TpsBudget<L, C>, AllocError>,
) -> Result<(), AllocError> {
    let Ok(budget) = made else {
        return script.over(report, "out of memory");
    };
    let retry = Retry::new(Paying { budget }, script.service('s'));
    script.play(report, retry)
}

pub fn play_budget<R: Wait + Copy>(
    rt: R,
    script: &Script<'_>,
    report: &mut Report<'_>,
) -> Result<(), AllocError> {
    match (script.number(0), script.number(1), fraction_at(script, 2)) {
        (Some(ttl), Some(least), Some(retries))
            if least < 4294967296 && BudgetCore::fits(ttl, least as u32, retries) => {
            let clock = script.clock();
            let made = TpsBudget::new(rt, script.alloc(), ttl, least as u32, retries, clock);
            play_paid(script, report, made)
        }
        _ => script.unread(report),
    }
}

fn play_waiting<G: Rng + Clone, C: Clock>(
    script: &Script<'_>,
    report: &mut Report<'_>,
    mut maker: ExponentialBackoffMaker<G, C>,
) -> Result<(), AllocError> {
    let Ok(backoff) = maker.make_backoff() else {
        return script.over(report, "out of memory");
    };
    drop(maker);
    let retry = Retry::new(Patient { backoff }, script.service('s'));
    script.play(report, retry)
}

pub fn play_backoff(script: &Script<'_>, report: &mut Report<'_>) -> Result<(), AllocError> {
    let (Some(least), Some(most), Some(jitter), Some(word)) = (
        script.number(0),
        script.number(1),
        fraction_at(script, 2),
        script.number(4),
    ) else {
        return script.unread(report);
    };
    let words = Rising::new(script.stage().log, word);
    match ExponentialBackoffMaker::new(least, most, jitter, words, script.clock()) {
        Ok(maker) => play_waiting(script, report, maker),
        Err(_) => script.unread(report),
    }
}
