//! The parts that all tests share. Each notes what happens to it in one list.
#![tactic(auto)]

pub mod checks;
pub mod clock;
pub mod echo;
pub mod future;
pub mod latch;
pub mod log;
pub mod plain;
pub mod refused;
pub mod run;
pub mod script;
pub mod service;
pub mod slots;
pub mod story;
pub mod stream;
pub mod task_slot;
