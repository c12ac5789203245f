//! The error of a `Delay`.
use std::fmt::Display;

/// The error of a `Delay`, in place of the Rust's boxed one.
#[derive(Clone, Debug, Drop, PartialEq, Eq, thiserror::Error)]
#[error_bound(E: Display)]
pub enum Error<E> {
    /// The service's own error.
    #[error(transparent)]
    Inner(E),
    /// Allocating a clone of the service failed at the call.
    #[error("out of memory")]
    Memory,
}
