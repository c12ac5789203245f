//! Limits: the Rust's `tower::limit`.

pub mod concurrency;
pub mod rate;

pub use concurrency::{ConcurrencyLimit, ConcurrencyLimitLayer, GlobalConcurrencyLimitLayer};
pub use rate::{RateLimit, RateLimitLayer};
