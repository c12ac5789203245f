//! Tasks that are handed to whatever runs them: an event loop, a set of futures or another runtime.
#![tactic(auto)]

mod beside;
mod fresh;
mod spawner;

pub use beside::Beside;
pub use spawner::{BesideError, Spawned, Spawner};
