//! Refused memory: what each test of it begins with, and how it ends.

use crate::log::Log;
use crate::run::task;
use futures::task::Solo;
use std::alloc::{AllocError, AllocGlobal};
use std::random::RandomSource;
use std::test::Fail;

/// A log and a task.
pub fn desk<R: RandomSource + AllocGlobal>(rt: &R) -> Result<(Log, Solo), AllocError> {
    let log = Log::new(rt.alloc())?;
    match task(rt) {
        Ok(solo) => Ok((log, solo)),
        Err(_) => Err(AllocError),
    }
}

/// A run passes if all came as it should, or if it ended for want of memory where that is refused.
pub fn judged(run: Result<bool, AllocError>, is_refused: bool) -> Result<(), Fail> {
    match run {
        Ok(true) => Ok(()),
        Ok(false) => Err("something else came".into()),
        Err(AllocError) if is_refused => Ok(()),
        Err(AllocError) => Err("no room for the test".into()),
    }
}
