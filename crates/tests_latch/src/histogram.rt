//! A rotating histogram behind a logged latch, from threads.
ghost use Rattle.std.specs.Prelude.{◌≡◌, Some};
ghost use Rattle.tower_limit.specs.HistoCore.{Opens};

use crate::run::{Run, ended, last_apart};
use std::alloc::{AllocError, Global};
use std::marker::Brand;
use std::process::Abort;
use std::sync::Wait;
use std::sync::ledger::Blank;
use std::test::Fail;
use std::thread;
use std::thread::Threads;
use tower_latch::{Log, LogTable, Logged, Pass};
use tower_limit::hedge::rotating_histogram::{HistoCore, HistoReply, HistoStep};

const PERIOD: u64 = 10;

const RECORDS: u32 = 1000;

fn record_all<K: Log<HistoCore>, R: Wait + Drop>(
    log: &Logged<HistoCore, K, R>,
    mut pass: Pass<HistoCore, K>,
) -> Result<Pass<HistoCore, K>, AllocError> {
    for _ in 0..RECORDS {
        log.step(&mut pass, HistoStep::Record(0, 1))?;
    }
    Ok(pass)
}

// How many points there are in the end, by a plain list of the periods in which they are read.
fn replay(alloc: Global, entries: &[(HistoStep, HistoReply)]) -> Result<usize, Fail> {
    let mut points: Vec<u64> = Vec::new(alloc);
    let mut present = 0u64;
    for (step, reply) in entries {
        let fits = match (*step, *reply) {
            (HistoStep::Record(moment, 1), HistoReply::Done) => {
                present = present.max(moment / PERIOD);
                points.push(present.saturating_add(1))?;
                true
            }
            (HistoStep::Points(moment), HistoReply::Count(count)) => {
                present = present.max(moment / PERIOD);
                count == points.iter().filter(|period| **period == present).count() as u64
            }
            _ => false,
        };
        if !fits {
            return Err("the plain list has another reply".into());
        }
    }
    Ok(points.len())
}

// All 8,000 points are read in the next period, and the last step's reply says so.
fn all_are_read(alloc: Global, entries: &[(HistoStep, HistoReply)]) -> Result<(), Fail> {
    let is_told = entries.get(8000) == Some(&(HistoStep::Points(PERIOD), HistoReply::Count(8000)));
    if (entries.len(), replay(alloc, entries)?, is_told) != (8001, 8000, true) {
        return Err("a point is lost".into());
    }
    Ok(())
}

fn one_histogram<K: Log<HistoCore> + Send + Sync, R: Threads + Wait + Abort + Copy + Send + Sync>(
    rt: R,
    alloc: Global,
    blank: Blank,
    table: LogTable<HistoStep, HistoReply>,
    histogram: HistoCore,
) -> Result<Run<HistoStep, HistoReply>, Fail>
    requires name { blank.name ≡ K.name }
    requires parts { (blank.parts ≡ K.parts) × (blank.parts ≡ 9) }
    requires opening { K.opening ≡ Some histogram }
    requires opens { Opens histogram }
    requires table { table ≡ K.table }
{
    let (log, passes) = Logged::<HistoCore, K, R>::open(rt, alloc, blank, table, histogram, 9)?;
    let (last, passes) = last_apart(alloc, passes)?;
    let shared = &log;
    let answers = thread::map_vec(&rt, passes, &|(_number, pass)| record_all(shared, pass))?;
    ended(alloc, log, answers, last, Some(HistoStep::Points(PERIOD)))
}

#[test]
fn eight_threads_one_histogram(rt: HostRuntime) -> Result<(), Fail> {
    let alloc = rt.alloc();
    let table = LogTable::new(alloc)?;
    let run = one_histogram::<Brand, _>(
        rt,
        alloc,
        Blank::new(9),
        table,
        HistoCore::new(alloc, PERIOD, 0),
    )?;
    all_are_read(alloc, run.history.entries())
}
