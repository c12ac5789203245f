//! The error of an optional service.

use std::fmt::Display;

/// The error of an `Optional`. It replaces the Rust's boxed error.
#[derive(Clone, Debug, Drop, PartialEq, Eq, thiserror::Error)]
#[error_bound(E: Display)]
pub enum Error<E> {
    /// The service's own error.
    #[error(transparent)]
    Inner(E),
    /// There is no service.
    #[error("None")]
    None,
}
