//! The errors of a cache's polls.

use std::fmt::Display;

/// The error of an endpoint that failed, with the endpoint's key. It is displayed as that error. The
/// Rust's `tower::ready_cache::error::Failed`.
#[derive(Clone, Debug, Drop, PartialEq, Eq, thiserror::Error)]
#[error_bound(E: Display)]
#[error("{1}")]
pub struct Failed<K, E>(pub K, pub E);

/// Why a poll of the pending endpoints stopped.
#[derive(Clone, Debug, Drop, PartialEq, Eq, thiserror::Error)]
#[error_bound(E: Display)]
pub enum Error<K, E> {
    /// An endpoint failed and left the cache. The fields are its key and its error.
    #[error("{1}")]
    Failed(K, E),
    /// There was no room for one more ready endpoint. The endpoint that was to be polled next is still
    /// pending.
    #[error("out of memory")]
    Memory,
}
