//! Limits on calls, discovery, load, and latencies.
#![tactic(auto)]

pub mod discover;
pub mod hedge;
pub mod limit;
pub mod load;
