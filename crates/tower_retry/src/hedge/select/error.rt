//! The error of a `Select`.
use std::fmt::Display;

/// The error of a `Select`, in place of the Rust's boxed one.
#[derive(Clone, Debug, Drop, PartialEq, Eq, thiserror::Error)]
#[error_bound(A: Display, B: Display)]
pub enum Error<A, B> {
    /// The first service's own error.
    #[error(transparent)]
    First(A),
    /// The second service's own error.
    #[error(transparent)]
    Second(B),
}
