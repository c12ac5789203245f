//! Threads that ask for permits of one logged line at once.
ghost use Rattle.std.specs.Prelude.{◌≡◌, Some};
ghost use Rattle.tower_limit.specs.LineCore.{Opens};

use crate::fixtures::{LOOKS, rest};
use crate::plain_line::PlainLine;
use crate::run::{Run, ended, last_apart};
use std::alloc::{AllocError, Global};
use std::marker::Brand;
use std::process::Abort;
use std::sync::Wait;
use std::sync::ledger::Blank;
use std::test::Fail;
use std::thread;
use std::thread::Threads;
use std::time::Clock;
use tower_latch::{Log, LogTable, Logged, Pass};
use tower_limit::limit::concurrency::{LineCore, LineReply, LineStep};

const ROUNDS: u32 = 1000;

// Waits for a permit, asks how many are free, and gives back what it has. Whether it had a permit.
fn round<K: Log<LineCore>, R: Clock + Wait + Drop>(
    rt: &R,
    log: &Logged<LineCore, K, R>,
    pass: &mut Pass<LineCore, K>,
) -> Result<bool, AllocError> {
    let mut reply = log.step(pass, LineStep::Join)?.reply;
    for _ in 0..LOOKS {
        let LineReply::Waiting(key) = reply else {
            break;
        };
        rest(rt);
        reply = log.step(pass, LineStep::Look(key))?.reply;
    }
    if reply != LineReply::Granted {
        return Ok(false);
    }
    log.step(pass, LineStep::Free)?;
    log.step(pass, LineStep::Release)?;
    Ok(true)
}

// All rounds, or those before the first that gave up.
fn all_rounds<K: Log<LineCore>, R: Clock + Wait + Drop>(
    rt: &R,
    log: &Logged<LineCore, K, R>,
    mut pass: Pass<LineCore, K>,
) -> Result<Pass<LineCore, K>, AllocError> {
    for _ in 0..ROUNDS {
        if !round(rt, log, &mut pass)? {
            return Ok(pass);
        }
    }
    Ok(pass)
}

// How often a permit was got, or none if more are free than there are.
fn granted(entries: &[(LineStep, LineReply)]) -> Result<u32, Fail> {
    let mut granted = 0u32;
    for (step, reply) in entries {
        match (*step, *reply) {
            (LineStep::Free, LineReply::Count(free)) if free > 3 => {
                return Err("more permits are free than there are".into());
            }
            (LineStep::Join | LineStep::Look(_), LineReply::Granted) => {
                granted = granted.saturating_add(1);
            }
            _ => {}
        }
    }
    Ok(granted)
}

// Each thread got a permit in each round, and all are free in the end.
fn all_came(alloc: Global, entries: &[(LineStep, LineReply)]) -> Result<(), Fail> {
    let is_told = entries.last() == Some(&(LineStep::Free, LineReply::Count(3)));
    let free = PlainLine::replay(alloc, 3, entries)?.free();
    if (is_told, free, granted(entries)?) != (true, 3, 8 * ROUNDS) {
        return Err("a permit is held, or wasn't got".into());
    }
    Ok(())
}

fn three_permits<
    K: Log<LineCore> + Send + Sync,
    R: Threads + Clock + Wait + Abort + Copy + Send + Sync,
>(
    rt: R,
    alloc: Global,
    blank: Blank,
    table: LogTable<LineStep, LineReply>,
    line: LineCore,
) -> Result<Run<LineStep, LineReply>, Fail>
    requires name { blank.name ≡ K.name }
    requires parts { (blank.parts ≡ K.parts) × (blank.parts ≡ 9) }
    requires opening { K.opening ≡ Some line }
    requires opens { Opens line }
    requires table { table ≡ K.table }
{
    let (log, passes) = Logged::<LineCore, K, R>::open(rt, alloc, blank, table, line, 9)?;
    let (last, passes) = last_apart(alloc, passes)?;
    let shared = &log;
    let answers = thread::map_vec(
        &rt,
        passes,
        &|(_number, pass)| all_rounds(&rt, shared, pass),
    )?;
    ended(alloc, log, answers, last, Some(LineStep::Free))
}

#[test]
fn eight_threads_three_permits(rt: HostRuntime) -> Result<(), Fail> {
    let alloc = rt.alloc();
    let table = LogTable::new(alloc)?;
    let run = three_permits::<Brand, _>(rt, alloc, Blank::new(9), table, LineCore::new(alloc, 3))?;
    all_came(alloc, run.history.entries())
}
