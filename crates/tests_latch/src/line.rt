//! A line of permits behind a logged latch: its history, and what is missing of it.

use crate::plain_line::PlainLine;
use crate::run::{Served, one_pass_is_missing, two_passes_run};
use std::marker::Brand;
use std::sync::ledger::Blank;
use std::test::Fail;
use tower_latch::LogTable;
use tower_limit::limit::concurrency::{LineCore, LineReply, LineStep};

// Two ask for one permit. The first of all who wait has the key 0.
const FOUR_STEPS: [Served<LineStep, LineReply>; 4] = [
    (0, LineStep::Join, LineReply::Granted),
    (1, LineStep::Join, LineReply::Waiting(0)),
    (0, LineStep::Release, LineReply::Left),
    (1, LineStep::Look(0), LineReply::Granted),
];

#[test]
fn four_steps_of_two_passes(rt: HostRuntime) -> Result<(), Fail> {
    let alloc = rt.alloc();
    let table = LogTable::new(alloc)?;
    let line = LineCore::new(alloc, 1);
    let blank = Blank::new(2);
    let run = two_passes_run::<LineCore, Brand, _>(rt, alloc, blank, table, line, &FOUR_STEPS[..])?;
    let plain = PlainLine::replay(alloc, 1, run.history.entries())?;
    assert_eq!(rt; plain.free(), 0);
    Ok(())
}

#[test]
fn a_pass_is_missing(rt: HostRuntime) -> Result<(), Fail> {
    let alloc = rt.alloc();
    let table = LogTable::new(alloc)?;
    let line = LineCore::new(alloc, 1);
    let blank = Blank::new(2);
    one_pass_is_missing::<LineCore, Brand, _>(rt, alloc, blank, table, line, &FOUR_STEPS[..])
}
