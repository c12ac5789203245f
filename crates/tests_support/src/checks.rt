//! What a test found wrong, told at its end.
//!
//! After an `assert!` the prover carries on with one fact more, and looks through all that follows with it: a test of
//! ten takes some minutes. A check is a call of which nothing is known afterwards.

use crate::log::Log;
use std::alloc::Global;
use std::cell::{Cell, RefCell};
use std::fmt::{Debug, Write};
use std::test::Fail;

/// The checks of a test. A check that doesn't hold is noted, and the test goes on.
#[derive(Drop)]
pub struct Checks {
    alloc: Global,
    done: Cell<u32>,
    failed: Cell<bool>,
    wrong: RefCell<String>,
}

impl Checks {
    pub fn new(alloc: Global) -> Checks {
        Checks {
            alloc,
            done: Cell::new(0),
            failed: Cell::new(false),
            wrong: RefCell::new(String::new(alloc)),
        }
    }

    /// This holds.
    pub fn holds(&self, holds: bool) {
        self.same(&holds, &true);
    }

    /// These two are equal.
    pub fn same<T: PartialEq + Debug>(&self, left: &T, right: &T) {
        let done = self.done.get().saturating_add(1);
        self.done.set(done);
        if *left == *right {
            return;
        }
        self.failed.set(true);
        if let Ok(mut wrong) = self.wrong.try_borrow_mut() {
            let _ = write!(wrong, "check {done}: {left:?} is not {right:?}; ");
        }
    }

    /// This was noted since the last look.
    pub fn told(&self, log: &Log, wanted: &str) {
        match log.told(self.alloc) {
            Ok(told) => self.same(&told.as_str(), &wanted),
            Err(_) => self.holds(false),
        }
    }

    /// The end of a test: all held, or which didn't, counted from 1.
    pub fn verdict(&self) -> Result<(), Fail> {
        if !self.failed.get() {
            return Ok(());
        }
        match self.wrong.try_borrow() {
            Ok(wrong) => Err(Fail::new(wrong.as_str())),
            Err(_) => Err(Fail::new("a check failed")),
        }
    }
}
