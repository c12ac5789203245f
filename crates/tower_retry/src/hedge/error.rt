//! The error of a `Hedge`.
use std::fmt::Display;

/// The error of a `Hedge`, in place of the Rust's boxed one.
#[derive(Clone, Debug, Drop, PartialEq, Eq, thiserror::Error)]
#[error_bound(E: Display)]
pub enum Error<E> {
    /// The inner service's own error, of the first call or of the second.
    #[error(transparent)]
    Inner(E),
    /// A clone that the second call needs was refused.
    #[error("out of memory")]
    Memory,
}
