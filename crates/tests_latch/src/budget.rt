//! A retry budget behind a logged latch, from threads.
ghost use Rattle.std.specs.Prelude.{◌≡◌, Some};
ghost use Rattle.tower_retry.specs.BudgetCore.{Opens};

use crate::run::{Run, ended, last_apart};
use std::alloc::{AllocError, Global};
use std::marker::Brand;
use std::process::Abort;
use std::sync::Wait;
use std::sync::ledger::Blank;
use std::test::Fail;
use std::thread;
use std::thread::Threads;
use tower_base::service::Fraction;
use tower_latch::{Log, LogTable, Logged, Pass};
use tower_retry::retry::budget::{BudgetCore, BudgetReply, BudgetStep};

const MADE: u64 = 7;

const TAKES: u32 = 1000;

fn withdraw_all<K: Log<BudgetCore>, R: Wait + Drop>(
    log: &Logged<BudgetCore, K, R>,
    mut pass: Pass<BudgetCore, K>,
) -> Result<Pass<BudgetCore, K>, AllocError> {
    for _ in 0..TAKES {
        log.step(&mut pass, BudgetStep::Withdraw(MADE))?;
    }
    Ok(pass)
}

// The withdrawals that were made, by a plain list of their amounts. The reserve is 500, and a withdrawal takes 5.
fn replay(alloc: Global, entries: &[(BudgetStep, BudgetReply)]) -> Result<usize, Fail> {
    let mut amounts: Vec<u32> = Vec::new(alloc);
    for (step, reply) in entries {
        let mut taken = 0u32;
        for amount in &amounts {
            taken = taken.saturating_add(*amount);
        }
        let allowed = taken <= 495;
        if *step != BudgetStep::Withdraw(MADE) || *reply != BudgetReply::Allowed(allowed) {
            return Err("the plain list has another reply".into());
        }
        if allowed {
            amounts.push(5)?;
        }
    }
    Ok(amounts.len())
}

// 8,000 withdrawals, of which 100 were made.
fn hundred_made(alloc: Global, entries: &[(BudgetStep, BudgetReply)]) -> Result<(), Fail> {
    let made = BudgetReply::Allowed(true);
    let allowed = entries.iter().filter(|entry| entry.1 == made).count();
    if (entries.len(), replay(alloc, entries)?, allowed) != (8000, 100, 100) {
        return Err("not a hundred of 8,000".into());
    }
    Ok(())
}

fn one_budget<K: Log<BudgetCore> + Send + Sync, R: Threads + Wait + Abort + Copy + Send + Sync>(
    rt: R,
    alloc: Global,
    blank: Blank,
    table: LogTable<BudgetStep, BudgetReply>,
    budget: BudgetCore,
) -> Result<Run<BudgetStep, BudgetReply>, Fail>
    requires name { blank.name ≡ K.name }
    requires parts { (blank.parts ≡ K.parts) × (blank.parts ≡ 9) }
    requires opening { K.opening ≡ Some budget }
    requires opens { Opens budget }
    requires table { table ≡ K.table }
{
    let (log, passes) = Logged::<BudgetCore, K, R>::open(rt, alloc, blank, table, budget, 9)?;
    let (last, passes) = last_apart(alloc, passes)?;
    let shared = &log;
    let answers = thread::map_vec(&rt, passes, &|(_number, pass)| withdraw_all(shared, pass))?;
    ended(alloc, log, answers, last, None)
}

#[test]
fn eight_threads_one_budget(rt: HostRuntime) -> Result<(), Fail> {
    let alloc = rt.alloc();
    let part = Fraction {
        numerator: 1,
        divisor: 5,
    };
    let budget = BudgetCore::new(alloc, 10_000_000_000, 10, part, MADE)?;
    let table = LogTable::new(alloc)?;
    let run = one_budget::<Brand, _>(rt, alloc, Blank::new(9), table, budget)?;
    hundred_made(alloc, run.history.entries())
}
