//! The error of a `Reconnect`.

use std::fmt::Display;

/// The error of a `Reconnect` over a maker with errors `M`, in place of the Rust's boxed one.
#[derive(Clone, Debug, Drop, PartialEq, Eq, thiserror::Error)]
#[error_bound(E: Display, M: Display)]
pub enum Error<E, M> {
    /// The connection's own error. Only a response returns it.
    #[error(transparent)]
    Inner(E),
    /// The maker's error. A poll returns that of the maker's readiness, and a response that of a connect.
    #[error(transparent)]
    Make(M),
    /// The target couldn't be cloned. Only a poll returns it.
    #[error("out of memory")]
    Memory,
}
