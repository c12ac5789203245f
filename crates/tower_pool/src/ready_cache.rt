//! Endpoints that are ready, and those that aren't yet: the Rust's `tower::ready_cache`.

pub mod cache;
pub mod error;
mod iter;
mod pending;

pub use cache::ReadyCache;
pub use iter::IterReady;
