//! The faults of a run, each with its text and its status.
ghost use Rattle.std.specs.Prelude.{◌≡◌};
ghost use Rattle.tower_run.specs.Fault.{status_of, OfWords};

use std::io::ErrorKind;

/// A reason why there is no transcript.
#[derive(Debug, Drop, thiserror::Error)]
pub enum Fault {
    /// The number, counted from 1, of the first line that isn't a line of a script.
    #[error("line {0}: bad line")]
    BadLine(usize),
    #[error("script too long")]
    TooLong,
    #[error("usage: tower-run STACK | tower-run storm T N M")]
    Usage,
    #[error("out of memory")]
    Memory,
    #[error("cannot read")]
    CannotRead,
    #[error("cannot write")]
    CannotWrite,
    #[error("cannot start a thread")]
    CannotStart,
}

impl Fault {
    /// Returns the fault of arguments that can't be had, by the kind of error: allocation failed, or one of them isn't text.
    pub(crate) fn of_words(kind: ErrorKind) -> Fault
        ensures { OfWords kind result }
    {
        if kind == ErrorKind::OutOfMemory {
            Fault::Memory
        } else {
            Fault::Usage
        }
    }

    /// Returns the status that the program ends with.
    pub fn status(&self) -> u8
        ensures { result ≡ status_of self.now }
    {
        match self {
            Fault::BadLine(_) | Fault::TooLong | Fault::Usage => 2,
            Fault::Memory => 1,
            Fault::CannotRead | Fault::CannotWrite | Fault::CannotStart => 3,
        }
    }
}
