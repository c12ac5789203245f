//! Why a paused loop failed.

use std::io;
use tower_spawn::BesideError;

/// Why a `PausedLoop` couldn't be created, or didn't end a run.
#[derive(Clone, Copy, Debug, PartialEq, Eq, thiserror::Error)]
pub enum PausedError {
    /// There was no memory for the loop, or for a task.
    #[error("out of memory")]
    NoMemory,
    /// The system gave no random number, by which the loop tells its sources from those of other executors.
    #[error("no random number")]
    NoRandomness,
    /// No task can go on, and none waits for a moment. So each waits for another thread, or for something that
    /// never comes.
    #[error("deadlock at {moment} ns: no task can go on, and none waits for a moment \
        ({tasks} spawned tasks are unfinished, the loop has {clocks} clocks)")]
    Deadlock {
        /// The loop's moment, in nanoseconds.
        moment: u64,
        /// How many tasks of the run's spawner haven't ended. None of a run without a spawner.
        tasks: usize,
        /// How many clocks of the loop there are, and with them how many tasks may have waited for a moment.
        clocks: usize,
    },
    /// Another run has the tasks of the spawner.
    #[error("the tasks are run elsewhere")]
    Elsewhere,
}

impl From<BesideError> for PausedError {
    fn from(error: BesideError) -> PausedError {
        match error {
            BesideError::Memory => PausedError::NoMemory,
            BesideError::Elsewhere => PausedError::Elsewhere,
        }
    }
}

/// The text of a deadlock is too long for an `io::Error`, which has a shorter one without numbers.
impl From<PausedError> for io::Error {
    fn from(error: PausedError) -> io::Error {
        match error {
            PausedError::NoMemory => io::Error::from(io::ErrorKind::OutOfMemory),
            PausedError::NoRandomness => io::Error::other("no random number"),
            PausedError::Deadlock { .. } => {
                io::Error::other("deadlock: no task can go on, and none waits for a moment")
            }
            PausedError::Elsewhere => io::Error::other("the tasks are run elsewhere"),
        }
    }
}
