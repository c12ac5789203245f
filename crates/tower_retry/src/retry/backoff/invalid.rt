//! The error of a maker of backoffs.
/// The error of invalid parameters of a backoff: the Rust's `tower::retry::backoff::InvalidBackoff`, as an
/// enum.
#[derive(Clone, Copy, Debug, PartialEq, Eq, thiserror::Error)]
pub enum InvalidBackoff {
    /// The greatest wait is below the least one.
    #[error("invalid backoff: maximum must not be less than minimum")]
    MaximumBelowMinimum,
    /// The greatest wait is 0.
    #[error("invalid backoff: maximum must be non-zero")]
    MaximumIsZero,
    /// The jitter is above 100 times the wait.
    #[error("invalid backoff: jitter must not be greater than 100")]
    JitterAbove100,
}
