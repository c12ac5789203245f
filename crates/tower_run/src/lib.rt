//! The program `tower-run` as a library: a stack of services that a script drives, and storms of threads. The
//! crate `tower_run_cli` has its `main`.
#![tactic(auto)]

mod fault;
mod program;
mod refusal;
mod rounds;
mod script;
mod scripted;
pub mod stacks;
pub mod storm;
mod transcript;
pub mod words;

pub use fault::Fault;
pub use program::{report, run, words_of};
