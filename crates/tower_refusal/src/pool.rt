//! The errors of `tower_pool`.
ghost use Rattle.tower_refusal.specs.declared.Cause.TheVariants.{Refused};

use crate::{Cause, Refusal, StackError};
use tower_pool::{balance, ready_cache, spawn_ready};

impl<E: StackError, D> StackError for balance::Error<E, D> {
    ghost use Rattle.tower_pool.specs.declared.balance.error.Error.TheVariants.{Inner, Discover as IsDiscover, Memory as IsMemory};
    ghost use Rattle.tower_refusal.specs.declared.Refusal.TheVariants.{Discover, Memory};

    type ServiceError = E::ServiceError;

    ghost cause = { elim [
      | Inner error ↦ E.cause error
      | IsDiscover _ ↦ Refused Discover
      | IsMemory ↦ Refused Memory
    ] };

    fn cause(&self) -> Cause<&E::ServiceError> {
        match self {
            balance::Error::Inner(error) => error.cause(),
            balance::Error::Discover(_) => Cause::Refused(Refusal::Discover),
            balance::Error::Memory => Cause::Refused(Refusal::Memory),
        }
    }
}

impl<E: StackError> StackError for balance::MakeError<E> {
    ghost use Rattle.tower_pool.specs.declared.balance.error.MakeError.TheVariants.{Inner, Memory as IsMemory};
    ghost use Rattle.tower_refusal.specs.declared.Refusal.TheVariants.{Memory};

    type ServiceError = E::ServiceError;

    ghost cause = { elim [ Inner error ↦ E.cause error | IsMemory ↦ Refused Memory ] };

    fn cause(&self) -> Cause<&E::ServiceError> {
        match self {
            balance::MakeError::Inner(error) => error.cause(),
            balance::MakeError::Memory => Cause::Refused(Refusal::Memory),
        }
    }
}

impl<K, E: StackError> StackError for ready_cache::error::Error<K, E> {
    ghost use Rattle.tower_pool.specs.declared.ready_cache.error.Error.TheVariants.{Failed, Memory as IsMemory};
    ghost use Rattle.tower_refusal.specs.declared.Refusal.TheVariants.{Memory};

    type ServiceError = E::ServiceError;

    ghost cause = { elim [ Failed _ error ↦ E.cause error | IsMemory ↦ Refused Memory ] };

    fn cause(&self) -> Cause<&E::ServiceError> {
        match self {
            ready_cache::error::Error::Failed(_, error) => error.cause(),
            ready_cache::error::Error::Memory => Cause::Refused(Refusal::Memory),
        }
    }
}

impl<E: StackError> StackError for spawn_ready::Error<E> {
    ghost use Rattle.tower_pool.specs.declared.spawn_ready.error.Error.TheVariants.{Inner, Memory as IsMemory, Gone as IsGone, NotSpawned as IsNotSpawned};
    ghost use Rattle.tower_refusal.specs.declared.Refusal.TheVariants.{Memory, Gone, NotSpawned};

    type ServiceError = E::ServiceError;

    ghost cause = { elim [
      | Inner error ↦ E.cause error
      | IsMemory ↦ Refused Memory
      | IsGone ↦ Refused Gone
      | IsNotSpawned ↦ Refused NotSpawned
    ] };

    fn cause(&self) -> Cause<&E::ServiceError> {
        match self {
            spawn_ready::Error::Inner(error) => error.cause(),
            spawn_ready::Error::Memory => Cause::Refused(Refusal::Memory),
            spawn_ready::Error::Gone => Cause::Refused(Refusal::Gone),
            spawn_ready::Error::NotSpawned => Cause::Refused(Refusal::NotSpawned),
        }
    }
}

impl<K, E: StackError> StackError for ready_cache::error::Failed<K, E> {
    type ServiceError = E::ServiceError;

    ghost cause = { λ failed. E.cause failed.1 };

    fn cause(&self) -> Cause<&E::ServiceError> {
        self.1.cause()
    }
}
