//! Errors that end the chain.
ghost use Rattle.tower_refusal.specs.Cause.{own};
ghost use Rattle.tower_refusal.specs.declared.Cause.TheVariants.{Service};

use crate::{Cause, StackError};
use std::alloc::AllocError;
use std::convert::Infallible;
use std::fmt::Display;
use std::io;

/// An error of which there is no value, as of a service that can't fail. It ends the chain.
pub trait Never {}

impl Never for Infallible {}

// (An impl for `Infallible` itself has a function that no call reaches, which the kit's gate refuses.)
impl<E: Never> StackError for E {
    type ServiceError = E;

    ghost cause = { own };

    fn cause(&self) -> Cause<&E> {
        Cause::Service(self)
    }
}

impl StackError for AllocError {
    type ServiceError = AllocError;

    ghost cause = { own };

    fn cause(&self) -> Cause<&AllocError> {
        Cause::Service(self)
    }
}

impl StackError for io::Error {
    type ServiceError = io::Error;

    ghost cause = { own };

    fn cause(&self) -> Cause<&io::Error> {
        Cause::Service(self)
    }
}

/// An error of another crate as a service's own: put `.map_err(|error: http::Error| Own(error))` right above the service.
#[derive(Clone, Copy, Debug, Drop, PartialEq, Eq, thiserror::Error)]
#[error_bound(E: Display)]
#[error("{0}")]
pub struct Own<E>(pub E);

impl<E> StackError for Own<E> {
    type ServiceError = E;

    ghost cause = { λ error. Service error.0 };

    fn cause(&self) -> Cause<&E> {
        Cause::Service(&self.0)
    }
}
