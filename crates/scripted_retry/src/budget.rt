//! `budget TTL MIN NUMERATOR DIVISOR`, in nanoseconds and retries a second: over a latch whose steps are noted. `usual_budget`: over a lock.
//! `deposit` and `withdraw` are asked of it, `withdraw of a clone` of a clone, which is dropped; `spend` withdraws until that is refused, and tells how often it was allowed, 1400 at most.
ghost use Rattle.tower_retry.specs.Budget.{Fits};

use scripted::party::Party;
use scripted::report::Report;
use scripted::script::Script;
use std::alloc::{AllocError, Global};
use std::cell::Cell;
use std::sync::Wait;
use tests_support::clock::Hand;
use tests_support::latch::Noting;
use tower_base::service::{Clock, Fraction};
use tower_latch::{Guarded, Latch};
use tower_retry::retry::budget::{Budget, BudgetCore, TpsBudget};

// A budget until the end of its script.
#[derive(Drop)]
struct Asked<B> {
    alloc: Global,
    budget: Option<B>,
}

// How many withdrawals are allowed, 1400 at most.
fn spend<B: Budget>(budget: &mut B) -> usize {
    for count in 0..1400usize {
        if !budget.withdraw() {
            return count;
        }
    }
    1400
}

fn told(is_allowed: bool) -> &'static str {
    if is_allowed { "allowed" } else { "refused" }
}

impl<B: Budget + Clone> Party for Asked<B> {
    fn act(&mut self, words: &str) -> Result<Option<String>, AllocError> {
        let Some(budget) = &mut self.budget else {
            return Ok(None);
        };
        match words {
            "deposit" => {
                budget.deposit();
                Ok(Some(String::new(self.alloc)))
            }
            "withdraw" => Ok(Some(told(budget.withdraw()).to_string(self.alloc)?)),
            "withdraw of a clone" => {
                let answer = match budget.clone() {
                    Ok(mut copy) => told(copy.withdraw()),
                    Err(AllocError) => "out of memory",
                };
                Ok(Some(answer.to_string(self.alloc)?))
            }
            "spend" => Ok(Some(spend(budget).to_string(self.alloc)?)),
            _ => Ok(None),
        }
    }

    fn end(&mut self) {
        self.budget = None;
    }
}

fn played<L: Latch<BudgetCore>, C: Clock>(
    script: &Script<'_>,
    report: &mut Report<'_>,
    budget: TpsBudget<L, C>,
) -> Result<(), AllocError> {
    let mut asked = Asked {
        alloc: script.alloc(),
        budget: Some(budget),
    };
    script.play_party(report, &mut asked)
}

// The part at these places of the first line.
pub fn fraction_at(script: &Script<'_>, place: usize) -> Option<Fraction> {
    let numerator = script.number(place)?;
    let divisor = script.number(place.saturating_add(1))?;
    if numerator < 4294967296 && 0 < divisor && divisor < 4294967296 {
        return Some(Fraction::new(numerator as u32, divisor as u32));
    }
    None
}

pub fn play<R: Wait + Copy>(
    rt: R,
    script: &Script<'_>,
    report: &mut Report<'_>,
) -> Result<(), AllocError> {
    match (script.number(0), script.number(1), fraction_at(script, 2)) {
        (Some(ttl), Some(least), Some(retries))
            if least < 4294967296 && BudgetCore::fits(ttl, least as u32, retries) => {
            let mut clock = script.clock();
            let moment = clock.now();
            let made = locked(rt, script.alloc(), ttl, least as u32, retries, moment);
            over_latch(script, report, made, clock)
        }
        _ => script.unread(report),
    }
}

// A lock around the core of a budget of these numbers.
fn locked<R: Wait + Copy>(
    rt: R,
    alloc: Global,
    ttl: u64,
    least: u32,
    retries: Fraction,
    moment: u64,
) -> Result<Guarded<BudgetCore, R>, AllocError>
    requires { Fits ttl least retries }
{
    let core = BudgetCore::new(alloc, ttl, least, retries, moment)?;
    Guarded::new(rt, alloc, core)
}

fn over_latch<L: Latch<BudgetCore>>(
    script: &Script<'_>,
    report: &mut Report<'_>,
    made: Result<L, AllocError>,
    clock: Hand<'_>,
) -> Result<(), AllocError> {
    let Ok(latch) = made else {
        drop(clock);
        return script.over(report, "out of memory");
    };
    let shares = Cell::new(u8::MAX);
    let latch = Noting::new(script.stage().log, &shares, latch);
    played(script, report, TpsBudget::with_latch(latch, clock))
}

pub fn play_usual<R: Wait + Copy>(
    rt: R,
    script: &Script<'_>,
    report: &mut Report<'_>,
) -> Result<(), AllocError> {
    match TpsBudget::with_clock(rt, script.alloc(), script.clock()) {
        Ok(budget) => played(script, report, budget),
        Err(AllocError) => script.over(report, "out of memory"),
    }
}
