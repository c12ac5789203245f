//! The error of a discovery that counts requests.

use std::fmt::Display;

/// The error of a `PendingRequestsDiscover`. The Rust has the inner discovery's error instead.
#[derive(Clone, Debug, Drop, PartialEq, Eq, thiserror::Error)]
#[error_bound(E: Display)]
pub enum Error<E> {
    /// The inner discovery's error.
    #[error(transparent)]
    Inner(E),
    /// Allocation failed for the count of a further service. The inner discovery wasn't polled.
    #[error("out of memory")]
    Memory,
}
