//! The errors of `tower_util`.
ghost use Rattle.tower_refusal.specs.declared.Cause.TheVariants.{Refused};

use crate::{Cause, Refusal, StackError};
use std::convert::Infallible;
use tower_util::make::shared;
use tower_util::util::error::{future_service, optional};

impl<E: StackError> StackError for optional::Error<E> {
    ghost use Rattle.tower_util.specs.declared.util.optional.error.Error.TheVariants.{Inner, None as IsEmpty};
    ghost use Rattle.tower_refusal.specs.declared.Refusal.TheVariants.{NoService};

    type ServiceError = E::ServiceError;

    ghost cause = { elim [ Inner error ↦ E.cause error | IsEmpty ↦ Refused NoService ] };

    fn cause(&self) -> Cause<&E::ServiceError> {
        match self {
            optional::Error::Inner(error) => error.cause(),
            optional::Error::None => Cause::Refused(Refusal::NoService),
        }
    }
}

impl<E: StackError> StackError for future_service::Error<E> {
    ghost use Rattle.tower_util.specs.declared.util.error.future_service.Error.TheVariants.{Inner, Gone as IsGone};
    ghost use Rattle.tower_refusal.specs.declared.Refusal.TheVariants.{Gone};

    type ServiceError = E::ServiceError;

    ghost cause = { elim [ Inner error ↦ E.cause error | IsGone ↦ Refused Gone ] };

    fn cause(&self) -> Cause<&E::ServiceError> {
        match self {
            future_service::Error::Inner(error) => error.cause(),
            future_service::Error::Gone => Cause::Refused(Refusal::Gone),
        }
    }
}

impl StackError for shared::Error {
    ghost use Rattle.tower_util.specs.declared.make.shared.Error.TheVariants.{Memory as IsMemory};
    ghost use Rattle.tower_refusal.specs.declared.Refusal.TheVariants.{Memory};

    type ServiceError = Infallible;

    ghost cause = { elim [ IsMemory ↦ Refused Memory ] };

    fn cause(&self) -> Cause<&Infallible> {
        match self {
            shared::Error::Memory => Cause::Refused(Refusal::Memory),
        }
    }
}
