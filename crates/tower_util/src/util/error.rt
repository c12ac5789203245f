//! The errors of these services. The Rust's `tower::util::error`.

pub mod future_service;

pub use super::optional::error as optional;
