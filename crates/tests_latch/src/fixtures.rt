//! The receipts of passes, and how they are compared with a history.

use std::alloc::{AllocError, Global};
use std::test::Fail;
use std::thread;
use std::time::{Clock, Duration};
use tower_latch::{Core, Log, Pass};

/// So often does one look for what it waits for, before it gives up and the test fails.
pub const LOOKS: u32 = 100_000;

/// Between two looks.
pub fn rest<R: Clock>(rt: &R) {
    thread::sleep(rt, Duration::from_micros(100));
}

// The receipts of each pass.
pub type Told<S, R> = Vec<Vec<(usize, S, R)>>;

pub fn told<C: Core, K: Log<C>>(
    alloc: Global,
    passes: &[Pass<C, K>],
) -> Result<Told<C::Step, C::Reply>, AllocError>
where
    C::Step: Copy,
    C::Reply: Copy,
{
    let mut told = Vec::new(alloc);
    for pass in passes {
        told.push(Vec::from_slice(alloc, pass.receipts())?)?;
    }
    Ok(told)
}

// Each receipt is what the history has at its place, places rise through a pass, and each place has one receipt.
pub fn compare<S: Copy + PartialEq, R: Copy + PartialEq>(
    alloc: Global,
    entries: &[(S, R)],
    told: &Told<S, R>,
) -> Result<(), Fail> {
    let mut seen = Vec::new(alloc);
    for _ in entries {
        seen.push(false)?;
    }
    for receipts in told {
        let mut last = None;
        for (place, step, reply) in receipts {
            if Some(*place) <= last {
                return Err("places don't rise".into());
            }
            last = Some(*place);
            match entries.get(*place) {
                Some((made, gave)) if *made == *step && *gave == *reply => {}
                _ => return Err("the history has another step or reply".into()),
            }
            match seen.get_mut(*place) {
                Some(slot) if !*slot => *slot = true,
                _ => return Err("a place has two receipts".into()),
            }
        }
    }
    if seen.iter().any(|slot| !*slot) {
        return Err("a place has no receipt".into());
    }
    Ok(())
}
