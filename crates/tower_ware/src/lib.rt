//! Middleware without shared state, and streams of calls.
#![tactic(auto)]

pub mod filter;
pub mod load_shed;
pub mod reconnect;
pub mod steer;
pub mod timeout;
pub mod util;
