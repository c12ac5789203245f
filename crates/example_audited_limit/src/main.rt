//! Two threads and `main` share a line of permits. How many were granted is computed from its history.
#![tactic(auto)]

ghost use Rattle.std.specs.Prelude.{◌≡◌, ◌≤◌, Some, IfOk};
ghost use Rattle.tower_limit.specs.Line.{initial};
ghost use Rattle.tower_limit.specs.LineCore.{StandsFor};

mod audit;

use audit::{Audit, audited};
use std::alloc::{AllocError, Global};
use std::marker::Brand;
use std::sync::Wait;
use std::sync::ledger::Blank;
use std::thread::Threads;
use std::{io, thread};
use tower_latch::{Log, LogTable, Logged, Pass};
use tower_limit::limit::concurrency::{LineCore, LineReply, LineStep, law};

const MAX: usize = 2;

// Takes a permit and gives it back, ten times.
fn rounds<K: Log<LineCore>, R: Wait + Copy>(
    rt: R,
    log: &Logged<LineCore, K, R>,
    mut pass: Pass<LineCore, K>,
) -> Result<Pass<LineCore, K>, AllocError> {
    for _ in 0..10u8 {
        let mut reply = log.step(&mut pass, LineStep::Join)?.reply;
        for _ in rt.forever() {
            let LineReply::Waiting(key) = reply else {
                break;
            };
            thread::yield_now();
            reply = log.step(&mut pass, LineStep::Look(key))?.reply;
        }
        if reply == LineReply::Granted {
            log.step(&mut pass, LineStep::Release)?;
        }
    }
    Ok(pass)
}

/// Shares a line of `max` permits between two threads, while the caller holds one. Its history shows that
/// there were never more than `max` out.
fn shared<K: Log<LineCore> + Send + Sync, R: Threads + Wait + Copy + Send + Sync>(
    rt: R,
    alloc: Global,
    new_log: Blank,
    table: LogTable<LineStep, LineReply>,
    line: LineCore,
    max: usize,
) -> Result<Audit, AllocError>
    requires name { new_log.name ≡ K.name }
    requires parts { (new_log.parts ≡ K.parts) × (new_log.parts ≡ 3) }
    requires opening { K.opening ≡ Some line }
    requires line { StandsFor line (initial max) }
    requires table { table ≡ K.table }
    ensures { IfOk result (λ audit. audit.most ≤ max) }
{
    let (log, mut passes) = Logged::<LineCore, K, R>::open(rt, alloc, new_log, table, line, 3)?;
    let mut held = passes.pop().unwrap();
    let a = passes.pop().unwrap();
    let b = passes.pop().unwrap();
    log.step(&mut held, LineStep::Join)?;
    let (a, b) = thread::join(&rt, || rounds(rt, &log, a), || rounds(rt, &log, b));
    log.step(&mut held, LineStep::Release)?;
    passes.push(held).map_err(AllocError::from)?;
    passes.push(a?).map_err(AllocError::from)?;
    passes.push(b?).map_err(AllocError::from)?;
    law();
    let history = log.close(passes).unwrap();
    Ok(audited(history.entries()))
}

fn main(rt: HostRuntime) -> io::Result<()> {
    let alloc = rt.alloc();
    let table = LogTable::new(alloc)?;
    let line = LineCore::new(alloc, MAX);
    let audit = shared::<Brand, _>(rt, alloc, Blank::new(3), table, line, MAX)?;
    println!(rt; "granted {}", audit.granted)?;
    println!(rt; "returned {}", audit.returned)?;
    println!(rt; "at most {} out at once, of {MAX}", audit.most)?;
    Ok(())
}
