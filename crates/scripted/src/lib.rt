//! Tests as scripts: what is asked of a service, what it answers and what its parts noted, a line each.
#![tactic(auto)]

mod callable;
pub mod command;
mod copies;
pub mod flow;
mod handles;
mod lone;
pub mod party;
pub mod player;
mod plays;
pub mod program;
pub mod report;
pub mod script;
pub mod step;
pub mod stream;
mod turn;
pub mod worker;
