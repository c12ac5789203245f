//! The error of a `ConcurrencyLimit`.
ghost use Rattle.std.specs.Prelude.{◌≡◌};
ghost use Rattle.tower_base.specs.Answers.{answered};

use futures::task::Poll;
use std::fmt::Display;

/// The error of a `ConcurrencyLimit`. The Rust has the inner service's error instead.
#[derive(Clone, Debug, Drop, PartialEq, Eq, thiserror::Error)]
#[error_bound(E: Display)]
pub enum Error<E> {
    /// The inner service's error.
    #[error(transparent)]
    Inner(E),
    /// Allocation failed in a poll for a permit. The line is unchanged, and no permit is held.
    #[error("out of memory")]
    Memory,
}

pub(crate) fn outward<T, E>(answer: Poll<Result<T, E>>) -> Poll<Result<T, Error<E>>>
    ensures { result ≡ answered Error.Inner answer }
{
    match answer {
        Poll::Ready(Ok(value)) => Poll::Ready(Ok(value)),
        Poll::Ready(Err(error)) => Poll::Ready(Err(Error::Inner(error))),
        Poll::Pending => Poll::Pending,
    }
}
