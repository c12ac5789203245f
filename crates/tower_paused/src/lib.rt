//! An event loop for tests, whose time stands still while a task can go on and jumps to the next deadline
//! once all wait; and its clock.
#![tactic(auto)]

mod advance;
mod clock;
mod error;
mod hand;
mod jumps;
mod paused_loop;

pub use advance::Advance;
pub use clock::PausedClock;
pub use error::PausedError;
pub use hand::HandClock;
pub use paused_loop::PausedLoop;
