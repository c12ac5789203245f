//! The errors of a `Buffer`.

use std::fmt::Display;
use std::{error, fmt};

/// The error of the service's readiness, which every caller gets: the Rust's `tower::buffer::error::ServiceError`.
#[derive(Clone, Debug, Drop, PartialEq, Eq, thiserror::Error)]
#[error_bound(E: Display)]
#[error("buffered service failed: {error}")]
pub struct ServiceError<E> {
    pub error: E,
}

/// The error of a `Buffer` that is closed or whose worker is gone: the Rust's
/// `tower::buffer::error::Closed`.
#[derive(Clone, Copy, Debug, PartialEq, Eq)]
pub struct Closed;

impl Display for Closed {
    fn fmt<W: fmt::Write>(&self, f: &mut fmt::Formatter<W>) -> fmt::Result {
        f.write_str("buffer's worker closed unexpectedly")
    }
}

impl error::Error for Closed {}

/// The error of a `Buffer`, in place of the Rust's boxed one.
#[derive(Clone, Debug, Drop, PartialEq, Eq, thiserror::Error)]
#[error_bound(E: Display)]
pub enum Error<E> {
    /// The error of the call's own future.
    #[error(transparent)]
    Inner(E),
    /// The service failed to become ready, for this message or an earlier one.
    #[error(transparent)]
    Service(ServiceError<E>),
    /// The buffer is closed without an error, or the message was lost with the worker.
    #[error("buffer's worker closed unexpectedly")]
    Closed,
    /// Allocation failed for a share, a place, or a clone of the service's error.
    #[error("out of memory")]
    Memory,
    /// The executor gave the worker back.
    #[error("task was not spawned")]
    NotSpawned,
}
