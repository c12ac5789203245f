//! The errors of `tower_retry`.
ghost use Rattle.tower_refusal.specs.declared.Cause.TheVariants.{Refused};

use crate::{Cause, Refusal, StackError};
use tower_retry::hedge::{self, delay, select};
use tower_retry::retry;

impl<E: StackError> StackError for retry::Error<E> {
    ghost use Rattle.tower_retry.specs.declared.retry.error.Error.TheVariants.{Inner, Memory as IsMemory};
    ghost use Rattle.tower_refusal.specs.declared.Refusal.TheVariants.{Memory};

    type ServiceError = E::ServiceError;

    ghost cause = { elim [ Inner error ↦ E.cause error | IsMemory ↦ Refused Memory ] };

    fn cause(&self) -> Cause<&E::ServiceError> {
        match self {
            retry::Error::Inner(error) => error.cause(),
            retry::Error::Memory => Cause::Refused(Refusal::Memory),
        }
    }
}

impl<E: StackError> StackError for delay::Error<E> {
    ghost use Rattle.tower_retry.specs.declared.hedge.delay.error.Error.TheVariants.{Inner, Memory as IsMemory};
    ghost use Rattle.tower_refusal.specs.declared.Refusal.TheVariants.{Memory};

    type ServiceError = E::ServiceError;

    ghost cause = { elim [ Inner error ↦ E.cause error | IsMemory ↦ Refused Memory ] };

    fn cause(&self) -> Cause<&E::ServiceError> {
        match self {
            delay::Error::Inner(error) => error.cause(),
            delay::Error::Memory => Cause::Refused(Refusal::Memory),
        }
    }
}

impl<E: StackError> StackError for hedge::Error<E> {
    ghost use Rattle.tower_retry.specs.declared.hedge.error.Error.TheVariants.{Inner, Memory as IsMemory};
    ghost use Rattle.tower_refusal.specs.declared.Refusal.TheVariants.{Memory};

    type ServiceError = E::ServiceError;

    ghost cause = { elim [ Inner error ↦ E.cause error | IsMemory ↦ Refused Memory ] };

    fn cause(&self) -> Cause<&E::ServiceError> {
        match self {
            hedge::Error::Inner(error) => error.cause(),
            hedge::Error::Memory => Cause::Refused(Refusal::Memory),
        }
    }
}

impl<A: StackError, B: StackError<ServiceError = A::ServiceError>> StackError
    for select::Error<A, B> {
    ghost use Rattle.tower_retry.specs.declared.hedge.select.error.Error.TheVariants.{First, Second};

    type ServiceError = A::ServiceError;

    ghost cause = { elim [ First error ↦ A.cause error | Second error ↦ B.cause error ] };

    fn cause(&self) -> Cause<&A::ServiceError> {
        match self {
            select::Error::First(error) => error.cause(),
            select::Error::Second(error) => error.cause(),
        }
    }
}
