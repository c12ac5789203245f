//! The errors of `tower_ware`.
ghost use Rattle.tower_refusal.specs.declared.Cause.TheVariants.{Refused};

use crate::{Cause, Refusal, StackError};
use tower_ware::util::call_all;
use tower_ware::{filter, load_shed, reconnect, timeout};

impl<E: StackError> StackError for timeout::Error<E> {
    ghost use Rattle.tower_ware.specs.declared.timeout.error.Error.TheVariants.{Inner, Elapsed as IsElapsed};
    ghost use Rattle.tower_refusal.specs.declared.Refusal.TheVariants.{Elapsed};

    type ServiceError = E::ServiceError;

    ghost cause = { elim [ Inner error ↦ E.cause error | IsElapsed ↦ Refused Elapsed ] };

    fn cause(&self) -> Cause<&E::ServiceError> {
        match self {
            timeout::Error::Inner(error) => error.cause(),
            timeout::Error::Elapsed => Cause::Refused(Refusal::Elapsed),
        }
    }
}

impl<E: StackError> StackError for load_shed::Error<E> {
    ghost use Rattle.tower_ware.specs.declared.load_shed.error.Error.TheVariants.{Inner, Overloaded as IsOverloaded};
    ghost use Rattle.tower_refusal.specs.declared.Refusal.TheVariants.{Overloaded};

    type ServiceError = E::ServiceError;

    ghost cause = { elim [ Inner error ↦ E.cause error | IsOverloaded ↦ Refused Overloaded ] };

    fn cause(&self) -> Cause<&E::ServiceError> {
        match self {
            load_shed::Error::Inner(error) => error.cause(),
            load_shed::Error::Overloaded => Cause::Refused(Refusal::Overloaded),
        }
    }
}

impl<E: StackError, P> StackError for filter::Error<E, P> {
    ghost use Rattle.tower_ware.specs.declared.filter.error.Error.TheVariants.{Inner, Rejected as IsRejected, Memory as IsMemory};
    ghost use Rattle.tower_refusal.specs.declared.Refusal.TheVariants.{Rejected, Memory};

    type ServiceError = E::ServiceError;

    ghost cause = { elim [
      | Inner error ↦ E.cause error
      | IsRejected _ ↦ Refused Rejected
      | IsMemory ↦ Refused Memory
    ] };

    fn cause(&self) -> Cause<&E::ServiceError> {
        match self {
            filter::Error::Inner(error) => error.cause(),
            filter::Error::Rejected(_) => Cause::Refused(Refusal::Rejected),
            filter::Error::Memory => Cause::Refused(Refusal::Memory),
        }
    }
}

impl<E: StackError, M> StackError for reconnect::Error<E, M> {
    ghost use Rattle.tower_ware.specs.declared.reconnect.error.Error.TheVariants.{Inner, Make as IsMake, Memory as IsMemory};
    ghost use Rattle.tower_refusal.specs.declared.Refusal.TheVariants.{Make, Memory};

    type ServiceError = E::ServiceError;

    ghost cause = { elim [
      | Inner error ↦ E.cause error
      | IsMake _ ↦ Refused Make
      | IsMemory ↦ Refused Memory
    ] };

    fn cause(&self) -> Cause<&E::ServiceError> {
        match self {
            reconnect::Error::Inner(error) => error.cause(),
            reconnect::Error::Make(_) => Cause::Refused(Refusal::Make),
            reconnect::Error::Memory => Cause::Refused(Refusal::Memory),
        }
    }
}

impl<E: StackError> StackError for call_all::Error<E> {
    ghost use Rattle.tower_ware.specs.declared.util.call_all.error.Error.TheVariants.{Inner, Memory as IsMemory};
    ghost use Rattle.tower_refusal.specs.declared.Refusal.TheVariants.{Memory};

    type ServiceError = E::ServiceError;

    ghost cause = { elim [ Inner error ↦ E.cause error | IsMemory ↦ Refused Memory ] };

    fn cause(&self) -> Cause<&E::ServiceError> {
        match self {
            call_all::Error::Inner(error) => error.cause(),
            call_all::Error::Memory => Cause::Refused(Refusal::Memory),
        }
    }
}
