//! The error of a `Retry`.
use std::fmt::Display;

/// The error of a `Retry`, in place of the Rust's boxed one.
#[derive(Clone, Debug, Drop, PartialEq, Eq, thiserror::Error)]
#[error_bound(E: Display)]
pub enum Error<E> {
    /// The inner service's own error.
    #[error(transparent)]
    Inner(E),
    /// Cloning the policy or the service failed at the call. The inner future was dropped.
    #[error("out of memory")]
    Memory,
}
