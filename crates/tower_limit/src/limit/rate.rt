//! A limit on the calls in a time: the Rust's `tower::limit::rate`.
//!
//! It keeps the moments of the last `num` calls. After `num` calls a further one waits until the oldest
//! of them is a period ago. So, unless the clock goes back, each half-open interval as long as the period
//! has at most `num` calls.

mod laws;
mod layer;
mod number;
mod rate_core;
pub mod run;
mod service;

pub use laws::law;
pub use layer::RateLimitLayer;
pub use number::Rate;
pub use rate_core::RateCore;
pub use run::drive_within_rate;
pub use service::RateLimit;
