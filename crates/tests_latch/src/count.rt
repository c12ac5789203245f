//! The count of pending requests behind a logged latch, from threads.
ghost use Rattle.std.specs.Prelude.{◌≡◌, Some};
ghost use Rattle.tower_limit.specs.CountCore.{Opens};

use crate::run::{Run, closed, ended, last_apart};
use std::alloc::{AllocError, Global};
use std::marker::Brand;
use std::process::Abort;
use std::sync::Wait;
use std::sync::ledger::Blank;
use std::test::Fail;
use std::thread;
use std::thread::Threads;
use tower_latch::{Log, LogTable, Logged, Pass};
use tower_limit::load::pending_requests::{CountCore, CountReply, CountStep};

const ROUNDS: u32 = 500;

fn take_and_give<K: Log<CountCore>, R: Wait + Drop>(
    log: &Logged<CountCore, K, R>,
    mut pass: Pass<CountCore, K>,
) -> Result<Pass<CountCore, K>, AllocError> {
    for _ in 0..ROUNDS {
        log.step(&mut pass, CountStep::Take)?;
        log.step(&mut pass, CountStep::Give)?;
    }
    Ok(pass)
}

// How many hold a part in the end, by a plain list of the places at which they took it.
fn replay(alloc: Global, entries: &[(CountStep, CountReply)]) -> Result<usize, Fail> {
    let mut holders = Vec::new(alloc);
    for (place, (step, reply)) in entries.iter().enumerate() {
        let fits = match (*step, *reply) {
            (CountStep::Take, CountReply::Counted) => {
                holders.push(place)?;
                true
            }
            (CountStep::Give, CountReply::Done) => holders.pop().is_some(),
            (CountStep::Load, CountReply::Count(load)) => load == holders.len(),
            _ => false,
        };
        if !fits {
            return Err("the plain list has another reply".into());
        }
    }
    Ok(holders.len())
}

// Nobody holds a part after 8,000 steps, and the last step's reply says so.
fn none_is_left(alloc: Global, entries: &[(CountStep, CountReply)]) -> Result<(), Fail> {
    let is_told = entries.get(8000) == Some(&(CountStep::Load, CountReply::Count(0)));
    if (entries.len(), replay(alloc, entries)?, is_told) != (8001, 0, true) {
        return Err("a part is left".into());
    }
    Ok(())
}

fn one_count<K: Log<CountCore> + Send + Sync, R: Threads + Wait + Abort + Copy + Send + Sync>(
    rt: R,
    alloc: Global,
    blank: Blank,
    table: LogTable<CountStep, CountReply>,
    count: CountCore,
) -> Result<Run<CountStep, CountReply>, Fail>
    requires name { blank.name ≡ K.name }
    requires parts { (blank.parts ≡ K.parts) × (blank.parts ≡ 9) }
    requires opening { K.opening ≡ Some count }
    requires opens { Opens count }
    requires table { table ≡ K.table }
{
    let (log, passes) = Logged::<CountCore, K, R>::open(rt, alloc, blank, table, count, 9)?;
    let (last, passes) = last_apart(alloc, passes)?;
    let shared = &log;
    let answers = thread::map_vec(&rt, passes, &|(_number, pass)| take_and_give(shared, pass))?;
    ended(alloc, log, answers, last, Some(CountStep::Load))
}

#[test]
fn eight_threads_one_count(rt: HostRuntime) -> Result<(), Fail> {
    let alloc = rt.alloc();
    let table = LogTable::new(alloc)?;
    let run = one_count::<Brand, _>(rt, alloc, Blank::new(9), table, CountCore::new())?;
    none_is_left(alloc, run.history.entries())
}

// So many steps through each of 200 passes.
const TAKES: usize = 600;

fn many_passes<K: Log<CountCore>, R: Wait + Abort + Copy>(
    rt: R,
    alloc: Global,
    blank: Blank,
    table: LogTable<CountStep, CountReply>,
    count: CountCore,
) -> Result<Run<CountStep, CountReply>, Fail>
    requires name { blank.name ≡ K.name }
    requires parts { (blank.parts ≡ K.parts) × (blank.parts ≡ 200) }
    requires opening { K.opening ≡ Some count }
    requires opens { Opens count }
    requires table { table ≡ K.table }
{
    let (log, mut passes) = Logged::<CountCore, K, R>::open(rt, alloc, blank, table, count, 200)?;
    for pass in passes.iter_mut() {
        for _ in 0..TAKES {
            log.step(pass, CountStep::Take)?;
        }
    }
    closed(alloc, log, passes)
}

#[test]
fn history_of_120000_steps(rt: HostRuntime) -> Result<(), Fail> {
    let alloc = rt.alloc();
    let table = LogTable::new(alloc)?;
    let run = many_passes::<Brand, _>(rt, alloc, Blank::new(200), table, CountCore::new())?;
    assert_eq!(rt; replay(alloc, run.history.entries())?, 120_000);
    Ok(())
}
