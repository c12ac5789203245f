//! The errors of `tower_buffer`.
ghost use Rattle.tower_refusal.specs.declared.Cause.TheVariants.{Refused};

use crate::{Cause, Refusal, StackError};
use tower_buffer::buffer;

impl<E: StackError> StackError for buffer::Error<E> {
    ghost use Rattle.tower_buffer.specs.declared.buffer.error.Error.TheVariants.{Inner, Service, Closed as IsClosed, Memory as IsMemory, NotSpawned as IsNotSpawned};
    ghost use Rattle.tower_refusal.specs.declared.Refusal.TheVariants.{Closed, Memory, NotSpawned};

    type ServiceError = E::ServiceError;

    ghost cause = { elim [
      | Inner error ↦ E.cause error
      | Service failed ↦ E.cause failed.error
      | IsClosed ↦ Refused Closed
      | IsMemory ↦ Refused Memory
      | IsNotSpawned ↦ Refused NotSpawned
    ] };

    fn cause(&self) -> Cause<&E::ServiceError> {
        match self {
            buffer::Error::Inner(error) => error.cause(),
            buffer::Error::Service(error) => error.cause(),
            buffer::Error::Closed => Cause::Refused(Refusal::Closed),
            buffer::Error::Memory => Cause::Refused(Refusal::Memory),
            buffer::Error::NotSpawned => Cause::Refused(Refusal::NotSpawned),
        }
    }
}

impl<E: StackError> StackError for buffer::error::ServiceError<E> {
    type ServiceError = E::ServiceError;

    ghost cause = { λ failed. E.cause failed.error };

    fn cause(&self) -> Cause<&E::ServiceError> {
        self.error.cause()
    }
}
