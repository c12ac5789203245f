//! The errors of a `LoadShed`.

use std::fmt::Display;

/// The error of a call that is refused because the inner service wasn't ready: the Rust's
/// `tower::load_shed::error::Overloaded`.
#[derive(Clone, Copy, Debug, Default, PartialEq, Eq, thiserror::Error)]
#[error("service overloaded")]
pub struct Overloaded;

impl Overloaded {
    /// Creates an `Overloaded`.
    pub fn new() -> Overloaded {
        Overloaded
    }
}

/// The error of a `LoadShed`, in place of the Rust's boxed one.
#[derive(Clone, Debug, Drop, PartialEq, Eq, thiserror::Error)]
#[error_bound(E: Display)]
pub enum Error<E> {
    /// The inner service's own error.
    #[error(transparent)]
    Inner(E),
    /// The inner service wasn't ready at the call.
    #[error("service overloaded")]
    Overloaded,
}
