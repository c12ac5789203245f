//! The errors of a `Timeout`.

use std::fmt::Display;

/// The error of a response that takes too long: the Rust's `tower::timeout::error::Elapsed`.
#[derive(Clone, Copy, Debug, Default, PartialEq, Eq, thiserror::Error)]
#[error("request timed out")]
pub struct Elapsed;

impl Elapsed {
    /// Creates an `Elapsed`.
    pub fn new() -> Elapsed {
        Elapsed
    }
}

/// The error of a `Timeout`, in place of the Rust's boxed one.
#[derive(Clone, Debug, Drop, PartialEq, Eq, thiserror::Error)]
#[error_bound(E: Display)]
pub enum Error<E> {
    /// The inner service's own error.
    #[error(transparent)]
    Inner(E),
    /// The response was still pending at a moment at or past its deadline.
    #[error("request timed out")]
    Elapsed,
}
