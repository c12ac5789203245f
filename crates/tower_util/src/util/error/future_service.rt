//! The error of a service that a future returns.

use std::fmt::Display;

/// The error of a `FutureService`.
#[derive(Clone, Debug, Drop, PartialEq, Eq, thiserror::Error)]
#[error_bound(E: Display)]
pub enum Error<E> {
    /// The service's own error, or the error of the future, which is returned once.
    #[error(transparent)]
    Inner(E),
    /// The future failed earlier.
    #[error("service is gone")]
    Gone,
}
