//! The error of a `SpawnReady`, for responses and readiness.

use std::fmt::Display;

/// The error of a `SpawnReady`, in place of the Rust's boxed one.
#[derive(Clone, Debug, Drop, PartialEq, Eq, thiserror::Error)]
#[error_bound(E: Display)]
pub enum Error<E> {
    /// The service's own error. If it failed in its task, only one poll returns the error.
    #[error(transparent)]
    Inner(E),
    /// Allocation failed for the task's share of the slot. The service is kept.
    #[error("out of memory")]
    Memory,
    /// The service failed in the task earlier, or the task was dropped before the service was ready.
    #[error("service is gone")]
    Gone,
    /// The executor gave the task back. The service is kept.
    #[error("task was not spawned")]
    NotSpawned,
}
