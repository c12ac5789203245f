//! Services that make requests again: retries and hedges.
#![tactic(auto)]

pub mod hedge;
pub mod retry;
