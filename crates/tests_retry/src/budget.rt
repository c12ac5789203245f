//! `tower::retry::budget`: a core by hand, the lock's writes, and one step for each.

use std::alloc::AllocGlobal;
use std::cell::Cell;
use std::process::Abort;
use std::sync::Wait;
use std::test::Fail;
use tests_support::checks::Checks;
use tests_support::clock::Hand;
use tests_support::latch::Noting;
use tests_support::log::Log;
use tower_base::service::{Clock, Fraction};
use tower_latch::{Core, Guarded, Latch};
use tower_retry::retry::budget::{Budget, BudgetCore, BudgetReply, BudgetStep, TpsBudget};

const MS: u64 = 1_000_000;

const SECOND: u64 = 1000 * MS;

// At that moment a deposit, or a withdrawal with its answer.
#[derive(Clone, Copy, Debug)]
enum Play {
    Put(u64),
    Take(u64, bool),
}

use Play::{Put, Take};

// A generic body.
fn act<B: Budget>(rt: &impl Abort, moment: &Cell<u64>, budget: &mut B, plays: &[Play]) {
    for play in plays {
        match *play {
            Put(at) => {
                moment.set(at);
                budget.deposit();
            }
            Take(at, answer) => {
                moment.set(at);
                let given = budget.withdraw();
                assert!(rt; given == answer, "at {play:?}");
            }
        }
    }
}

// Plays on a new budget behind a lock.
fn plays<R: Wait + Abort + AllocGlobal + Copy>(
    rt: R,
    made: u64,
    ttl: u64,
    min_per_sec: u32,
    retries: Fraction,
    all: &[Play],
) -> Result<(), Fail> {
    let (moment, log) = (Cell::new(made), Log::new(rt.alloc())?);
    if !BudgetCore::fits(ttl, min_per_sec, retries) {
        return Err("out of range".into());
    }
    let clock = Hand::new(&log, &moment);
    let mut budget = TpsBudget::new(rt, rt.alloc(), ttl, min_per_sec, retries, clock)?;
    act(&rt, &moment, &mut budget, all);
    Ok(())
}

// A deposit in each of eleven generations counts, and then goes with its own.
#[test]
fn eleven_generations_count(rt: HostRuntime) -> Result<(), Fail> {
    let checks = Checks::new(rt.alloc());
    let alloc = rt.alloc();
    let mut core = BudgetCore::new(alloc, 10 * SECOND, 0, Fraction::new(1, 11), 0)?;
    for second in 0..11u64 {
        let full = core.step(BudgetStep::Withdraw(second * SECOND)).0;
        assert_eq!(rt; full, BudgetReply::Allowed(false), "at {second}");
        core.step(BudgetStep::Deposit(second * SECOND));
    }
    let mut late = BudgetCore::new(alloc, 10 * SECOND, 0, Fraction::new(1, 11), 0)?;
    for second in 0..11u64 {
        late.step(BudgetStep::Deposit(second * SECOND));
    }
    let in_time = core.step(BudgetStep::Withdraw(10 * SECOND)).0;
    checks.same(&in_time, &BudgetReply::Allowed(true));
    let too_late = late.step(BudgetStep::Withdraw(11 * SECOND)).0;
    checks.same(&too_late, &BudgetReply::Allowed(false));
    checks.verdict()
}

#[test]
fn guarded_keeps_its_writes(rt: HostRuntime) -> Result<(), Fail> {
    let all = [
        Take(0, true),
        Take(0, true),
        Take(0, true),
        Take(0, true),
        Take(0, true),
        Take(0, false),
    ];
    plays(rt, 0, SECOND, 5, Fraction::new(1, 1), &all)
}

// How many withdrawals are allowed at this moment, 1400 at most.
fn allowed<B: Budget>(moment: &Cell<u64>, budget: &mut B, at: u64) -> usize {
    moment.set(at);
    for count in 0..1400usize {
        if !budget.withdraw() {
            return count;
        }
    }
    1400
}

#[test]
fn ranges(rt: HostRuntime) {
    for (ttl, min_per_sec, p, q, want) in [
        (SECOND, 2147483646, 1000, 1, true),
        (60 * SECOND, 0, 0, 1, true),
        (SECOND - 1, 0, 0, 1, false),
        (60 * SECOND + 1, 0, 0, 1, false),
        (SECOND, 2147483647, 0, 1, false),
        (SECOND, 0, 2001, 2, false),
    ] {
        let retries = Fraction::new(p, q);
        let fits = TpsBudget::<Guarded<BudgetCore, HostRuntime>, Hand<'_>>::fits(
            ttl,
            min_per_sec,
            retries,
        );
        assert_eq!(rt; fits, want, "{ttl} {min_per_sec} {p} {q}");
    }
}

#[test]
fn a_core_steps(rt: HostRuntime) -> Result<(), Fail> {
    let mut core = BudgetCore::new(rt.alloc(), SECOND, 0, Fraction::new(1, 2), 0)?;
    for (step, reply) in [
        (BudgetStep::Deposit(0), BudgetReply::Done),
        (BudgetStep::Withdraw(0), BudgetReply::Allowed(false)),
        (BudgetStep::Deposit(200 * MS), BudgetReply::Done),
        (BudgetStep::Withdraw(1000 * MS), BudgetReply::Allowed(true)),
        (BudgetStep::Withdraw(1000 * MS), BudgetReply::Allowed(false)),
    ] {
        assert_eq!(rt; core.step(step).0, reply, "at {step:?}");
    }
    Ok(())
}

fn each_is_a_reading_and_a_step<L: Latch<BudgetCore>, C: Clock>(
    rt: &HostRuntime,
    log: &Log,
    moment: &Cell<u64>,
    latch: L,
    clock: C,
) -> Result<(), Fail> {
    let checks = Checks::new(rt.alloc());
    let mut budget = TpsBudget::with_latch(latch, clock);
    checks.told(log, "");
    checks.same(&allowed(moment, &mut budget, 3), &100);
    let mut want = String::new(rt.alloc());
    for _ in 0..101 {
        want.push_str("clock read 3;latch stepped Withdraw(3);")?;
    }
    checks.told(log, want.as_str());
    let mut other = budget.clone()?;
    checks.told(log, "latch shared;clock shared;");
    moment.set(4);
    checks.holds(!other.withdraw());
    other.deposit();
    checks.told(
        log,
        "clock read 4;latch stepped Withdraw(4);clock read 4;latch stepped Deposit(4);",
    );
    checks.holds(budget.clone().is_err());
    checks.told(log, "latch refused;");
    checks.verdict()
}

// Each reads the clock, and then makes one step at the latch.
#[test]
fn one_latch_step_each(rt: HostRuntime) -> Result<(), Fail> {
    let alloc = rt.alloc();
    let (moment, log, shares) = (Cell::new(3), Log::new(alloc)?, Cell::new(1));
    let core = BudgetCore::new(alloc, 10 * SECOND, 10, Fraction::new(1, 5), 3)?;
    let latch = Noting::new(&log, &shares, Guarded::new(rt, alloc, core)?);
    each_is_a_reading_and_a_step(&rt, &log, &moment, latch, Hand::new(&log, &moment))
}
