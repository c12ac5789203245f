//! What an error of a stack says: which middleware refused, or what the service's own error is.
//!
//! The Rust's users write `error.is::<Elapsed>()` and `error.downcast_ref::<Lost>()` at a boxed error.
#![tactic(auto)]

ghost use Rattle.std.specs.Prelude.{◌≡◌};
ghost use Rattle.std.specs.Option.{option_copied};
ghost use Rattle.tower_refusal.specs.Cause.{cause_copied, refusal_of, error_of};
ghost use Rattle.tower_refusal.specs.declared.Cause.{Cause as CauseOf};

mod buffer;
mod ends;
mod limit;
mod pool;
mod retry;
mod util;
mod ware;

pub use ends::{Never, Own};

/// How a middleware refused.
#[derive(Clone, Copy, Debug, PartialEq, Eq, thiserror::Error)]
pub enum Refusal {
    /// A `Timeout`: the response took too long.
    #[error("request timed out")]
    Elapsed,
    /// A `LoadShed`: the service below wasn't ready.
    #[error("service overloaded")]
    Overloaded,
    /// A `Buffer` is closed, or its worker is gone.
    #[error("buffer's worker closed unexpectedly")]
    Closed,
    /// The predicate of a `Filter` or an `AsyncFilter` refused the request.
    #[error("request rejected")]
    Rejected,
    /// The maker of a `Reconnect` returned an error.
    #[error("service was not made")]
    Make,
    /// The discovery of a `Balance` returned an error.
    #[error("discovery failed")]
    Discover,
    /// An `Optional` has no service.
    #[error("no service")]
    NoService,
    /// A `SpawnReady`'s service failed, or its task is gone; or a `FutureService`'s future failed.
    #[error("service is gone")]
    Gone,
    /// The executor of a `Buffer` or of a `SpawnReady` gave the task back.
    #[error("task was not spawned")]
    NotSpawned,
    /// Allocation failed in a middleware.
    #[error("out of memory")]
    Memory,
}

/// Where an error comes from.
#[derive(Clone, Copy, Debug, Drop, PartialEq, Eq)]
pub enum Cause<E> {
    /// A middleware refused.
    Refused(Refusal),
    /// The service's own error.
    Service(E),
}

/// The error of a stack, at any depth: each middleware's error names its refusal, or passes on what is inside.
///
/// An error of your own ends the chain:
///
/// ```text
/// ghost use Rattle.tower.specs.Refusal.{own};
///
/// impl StackError for Lost {
///     type ServiceError = Lost;
///
///     ghost cause = { own };
///
///     fn cause(&self) -> Cause<&Lost> {
///         Cause::Service(self)
///     }
/// }
/// ```
pub trait StackError {
    /// The error of the service below all middleware.
    type ServiceError;

    /// Where the error comes from.
    ghost cause: { Self → CauseOf Self.ServiceError };

    /// Returns the refusal of the middleware that refused, or a reference to the service's own error.
    fn cause(&self) -> Cause<&Self::ServiceError>
        ensures { cause_copied result ≡ cause self.now };

    /// Returns the refusal, or `None` if the error is the service's own.
    final fn refusal(&self) -> Option<Refusal>
        ensures { result ≡ refusal_of (cause self.now) }
    {
        match self.cause() {
            Cause::Refused(refusal) => Some(refusal),
            Cause::Service(_) => None,
        }
    }

    /// Returns the service's own error, or `None` if a middleware refused.
    final fn service_error(&self) -> Option<&Self::ServiceError>
        ensures { option_copied result ≡ error_of (cause self.now) }
    {
        match self.cause() {
            Cause::Refused(_) => None,
            Cause::Service(error) => Some(error),
        }
    }
}
