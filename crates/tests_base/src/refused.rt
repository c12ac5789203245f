//! Refused memory: a run by `drive`. Here and in the other crates of tests, `refused_..` pass whichever one allocation is refused, and
//! `ample_..`, which make the same calls, if none is. `scripts/refused.py` refuses one after another.

use futures::task::Solo;
use std::alloc::{AllocError, AllocGlobal, Global};
use std::random::RandomSource;
use std::test::Fail;
use tests_support::log::Log;
use tests_support::refused::{desk, judged};
use tests_support::script::Script;
use tests_support::service::Scripted;
use tower_base::drive::{Event, drive};

// A run of four events: how many entries it has, or none if it is refused.
fn entries_of(alloc: Global, solo: &Solo, log: &Log) -> Result<usize, AllocError> {
    let script = Script::new(log);
    let events = vec![in alloc;
        Event::Turn(7u8),
        Event::Poll,
        Event::Call(6),
        Event::Future(0),
    ]?;
    let mut cx = solo.begin();
    let run = drive(
        alloc,
        &mut cx,
        Scripted::new(&script, 's'),
        events,
        |act: u8| {
            log.note("turned");
            act
        },
    );
    cx.cancel();
    match run {
        Ok(transcript) => Ok(transcript.entries.len()),
        Err(AllocError) => Ok(0),
    }
}

// If the run is refused all is dropped: no room for an entry is found before anything is done, and none for a future before
// the call.
fn four_events<R: RandomSource + AllocGlobal>(rt: &R, again: bool) -> Result<bool, AllocError> {
    let alloc = rt.alloc();
    let (log, solo) = desk(rt)?;
    let entries = entries_of(alloc, &solo, &log)?;
    let told = log.told(alloc)?;
    Ok(match told.as_str() {
        "s dropped;" | "turned;s ready;s dropped;" => again && entries == 0,
        "turned;s ready;s called 6;s(6) ready;s dropped;s(6) dropped;" => entries == 4,
        _ => false,
    })
}

#[test]
fn refused_run_drops_all(rt: HostRuntime) -> Result<(), Fail> {
    judged(four_events(&rt, true), true)
}

#[test]
fn ample_run(rt: HostRuntime) -> Result<(), Fail> {
    judged(four_events(&rt, false), false)
}
