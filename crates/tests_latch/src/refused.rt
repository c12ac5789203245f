//! Refused memory: a step of a logged line that is refused wasn't made.
ghost use Rattle.std.specs.Prelude.{◌≡◌, Some};
ghost use Rattle.tower_limit.specs.LineCore.{Opens};

use std::alloc::{AllocError, Global};
use std::marker::Brand;
use std::process::Abort;
use std::sync::Wait;
use std::sync::ledger::Blank;
use std::test::Fail;
use tower_latch::{Log, LogTable, Logged, Pass};
use tower_limit::limit::concurrency::{LineCore, LineReply, LineStep};

// What six steps answer, at the places 0 to 5.
const WANT: [(LineStep, LineReply); 6] = [
    (LineStep::Join, LineReply::Granted),
    (LineStep::Free, LineReply::Count(1)),
    (LineStep::Join, LineReply::Granted),
    (LineStep::Free, LineReply::Count(0)),
    (LineStep::Release, LineReply::Left),
    (LineStep::Free, LineReply::Count(1)),
];

// One step. Where it is refused it wasn't made, and the pass is as it was.
fn one_step<K: Log<LineCore>, R: Wait + Abort + Copy>(
    rt: R,
    log: &Logged<LineCore, K, R>,
    pass: &mut Pass<LineCore, K>,
    step: LineStep,
    again: bool,
) -> Result<(usize, LineReply), AllocError> {
    let before = pass.receipts().len();
    match log.step(pass, step) {
        Ok(receipt) => Ok((receipt.place, receipt.reply)),
        Err(AllocError) => {
            assert_eq!(rt; pass.receipts().len(), before);
            if !again {
                return Err(AllocError);
            }
            let receipt = log.step(pass, step)?;
            Ok((receipt.place, receipt.reply))
        }
    }
}

#[test]
fn refused_growths_make_no_step(rt: HostRuntime) -> Result<(), Fail> {
    let alloc = rt.alloc();
    let table = match LogTable::new(alloc) {
        Ok(table) => table,
        Err(AllocError) => LogTable::new(alloc)?,
    };
    six_steps::<Brand, _>(
        rt,
        alloc,
        Blank::new(1),
        table,
        LineCore::new(alloc, 2),
        true,
    )
}

#[test]
fn ample_growths(rt: HostRuntime) -> Result<(), Fail> {
    let alloc = rt.alloc();
    let table = LogTable::new(alloc)?;
    six_steps::<Brand, _>(
        rt,
        alloc,
        Blank::new(1),
        table,
        LineCore::new(alloc, 2),
        false,
    )
}

// Six steps through one pass. What is refused is made again, or ends the test. A log that finds no room isn't open.
fn six_steps<K: Log<LineCore>, R: Wait + Abort + Copy>(
    rt: R,
    alloc: Global,
    blank: Blank,
    table: LogTable<LineStep, LineReply>,
    line: LineCore,
    again: bool,
) -> Result<(), Fail>
    requires name { blank.name ≡ K.name }
    requires parts { (blank.parts ≡ K.parts) × (blank.parts ≡ 1) }
    requires opening { K.opening ≡ Some line }
    requires opens { Opens line }
    requires table { table ≡ K.table }
{
    let (log, mut passes) = match Logged::<LineCore, K, R>::open(rt, alloc, blank, table, line, 1) {
        Ok(opened) => opened,
        Err(AllocError) if again => return Ok(()),
        Err(AllocError) => return Err("the log didn't open".into()),
    };
    let mut pass = passes.pop().ok_or("a pass")?;
    for (place, (step, reply)) in WANT.iter().enumerate() {
        let answer = one_step(rt, &log, &mut pass, *step, again)?;
        assert_eq!(rt; answer, (place, *reply));
    }
    for (place, receipt) in pass.receipts().iter().enumerate() {
        assert_eq!(rt; receipt.0, place);
        assert_eq!(rt; WANT.get(place), Some(&(receipt.1, receipt.2)));
    }
    passes.push(pass)?;
    let history = log.close(passes).map_err(|_| "a pass is missing")?;
    assert!(rt; history.entries() == &WANT[..]);
    Ok(())
}
