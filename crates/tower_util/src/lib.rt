//! Small services, combinators for services, and services that make services.
#![tactic(auto)]

pub mod make;
pub mod util;
