//! The errors of balancers and their makers.

use std::fmt::Display;

/// The error of a `Balance`, in place of the Rust's boxed one. `Discover` is the Rust's
/// `tower::balance::error::Discover`.
#[derive(Clone, Debug, Drop, PartialEq, Eq, thiserror::Error)]
#[error_bound(E: Display, D: Display)]
pub enum Error<E, D> {
    /// The endpoint's own error.
    #[error(transparent)]
    Inner(E),
    /// The discovery's error.
    #[error("load balancer discovery error: {0}")]
    Discover(D),
    /// Allocation failed for one more endpoint. No endpoint is lost.
    #[error("out of memory")]
    Memory,
}

/// The error of a `MakeBalance`.
#[derive(Clone, Debug, Drop, PartialEq, Eq, thiserror::Error)]
#[error_bound(E: Display)]
pub enum MakeError<E> {
    /// The maker's own error.
    #[error(transparent)]
    Inner(E),
    /// The generator couldn't be cloned at the call.
    #[error("out of memory")]
    Memory,
}
