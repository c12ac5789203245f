//! What the parts of a test share.

use crate::log::Log;
use crate::script::Script;
use std::cell::Cell;

/// What the parts of a test look at: a script for its services, one for others (a second side, what a maker makes), and a moment.
#[derive(Drop)]
pub struct Stage<'a> {
    pub log: &'a Log,
    pub script: Script<'a>,
    pub others: Script<'a>,
    pub moment: Cell<u64>,
}

impl<'a> Stage<'a> {
    /// The clock stands at 0, and services are ready and answer at once.
    pub fn new(log: &'a Log) -> Stage<'a> {
        Stage {
            log,
            script: Script::new(log),
            others: Script::new(log),
            moment: Cell::new(0),
        }
    }
}
