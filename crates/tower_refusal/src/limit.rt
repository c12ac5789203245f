//! The errors of `tower_limit`.
ghost use Rattle.tower_refusal.specs.declared.Cause.TheVariants.{Refused};

use crate::{Cause, Refusal, StackError};
use tower_limit::limit::concurrency;
use tower_limit::load;

impl<E: StackError> StackError for concurrency::Error<E> {
    ghost use Rattle.tower_limit.specs.declared.limit.concurrency.error.Error.TheVariants.{Inner, Memory as IsMemory};
    ghost use Rattle.tower_refusal.specs.declared.Refusal.TheVariants.{Memory};

    type ServiceError = E::ServiceError;

    ghost cause = { elim [ Inner error ↦ E.cause error | IsMemory ↦ Refused Memory ] };

    fn cause(&self) -> Cause<&E::ServiceError> {
        match self {
            concurrency::Error::Inner(error) => error.cause(),
            concurrency::Error::Memory => Cause::Refused(Refusal::Memory),
        }
    }
}

impl<E: StackError> StackError for load::Error<E> {
    ghost use Rattle.tower_limit.specs.declared.load.error.Error.TheVariants.{Inner, Memory as IsMemory};
    ghost use Rattle.tower_refusal.specs.declared.Refusal.TheVariants.{Memory};

    type ServiceError = E::ServiceError;

    ghost cause = { elim [ Inner error ↦ E.cause error | IsMemory ↦ Refused Memory ] };

    fn cause(&self) -> Cause<&E::ServiceError> {
        match self {
            load::Error::Inner(error) => error.cause(),
            load::Error::Memory => Cause::Refused(Refusal::Memory),
        }
    }
}
