//! The error of the filters.

use std::fmt::Display;

/// The error of a filter, in place of the Rust's boxed one.
#[derive(Clone, Debug, Drop, PartialEq, Eq, thiserror::Error)]
#[error_bound(E: Display, P: Display)]
pub enum Error<E, P> {
    /// The inner service's own error.
    #[error(transparent)]
    Inner(E),
    /// The predicate's error. The inner service wasn't called with the request.
    #[error(transparent)]
    Rejected(P),
    /// The inner service couldn't be cloned at the call. Only `AsyncFilter` returns it.
    #[error("out of memory")]
    Memory,
}
