//! The faults of the program, each with its text and its status.

/// A reason why not all lines were copied.
#[derive(Debug, Drop, thiserror::Error)]
pub enum Fault {
    #[error("usage: example_paced_lines N P")]
    Usage,
    #[error("out of memory")]
    Memory,
    #[error("cannot read")]
    CannotRead,
    #[error("cannot write")]
    CannotWrite,
    /// A line wasn't written within 10 seconds.
    #[error("request timed out")]
    TimedOut,
}

impl Fault {
    /// Returns the status that the program ends with.
    pub fn status(&self) -> u8 {
        match self {
            Fault::Usage => 2,
            Fault::Memory => 1,
            Fault::CannotRead | Fault::CannotWrite | Fault::TimedOut => 3,
        }
    }
}
