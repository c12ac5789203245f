//! The error of a stream of calls.

use std::fmt::Display;

/// The error that a stream of calls yields in place of a response.
#[derive(Clone, Debug, Drop, PartialEq, Eq, thiserror::Error)]
#[error_bound(E: Display)]
pub enum Error<E> {
    /// The service's own error, of a response or of its readiness. The latter ends the requests.
    #[error(transparent)]
    Inner(E),
    /// Allocating room for a call failed. The request is kept, and a later poll calls the service with it.
    #[error("out of memory")]
    Memory,
}
