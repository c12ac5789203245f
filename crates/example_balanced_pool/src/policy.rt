//! When a request is made again.

use crate::endpoint::{Failure, Get};
use std::cell::Cell;
use tower::retry::Policy;
use tower::retry::backoff::{Backoff, ExponentialBackoff};
use tower::retry::budget::Budget;
use tower::service::{Clock, Sleep};
use tower::util::rng::HasherRng;
use tower::{balance, buffer};

/// Makes a request again while the server is busy, after the next wait, if the budget pays for it.
#[derive(Clone, Drop)]
pub struct WhileBusy<'a, B, W> {
    pub budget: B,
    pub backoff: W,
    pub retries: &'a Cell<u64>,
}

impl<'a, B, C, E> Policy<Get, u64, E> for WhileBusy<'a, B, ExponentialBackoff<HasherRng, C>>
where
    B: Budget,
    C: Clock,
    E: IsBusy,
{
    type Future = Sleep<C>;

    fn retry(&mut self, _get: &mut Get, outcome: &mut Result<u64, E>) -> Option<Sleep<C>> {
        match outcome {
            Ok(_) => {
                self.budget.deposit();
                None
            }
            Err(error) if error.is_busy() && self.budget.withdraw() => {
                self.retries.set(self.retries.get().saturating_add(1));
                Some(self.backoff.next_backoff())
            }
            Err(_) => None,
        }
    }

    fn clone_request(&mut self, get: &Get) -> Option<Get> {
        Some(*get)
    }
}

/// An error that may be the server's being busy.
pub trait IsBusy {
    fn is_busy(&self) -> bool;
}

impl IsBusy for Failure {
    fn is_busy(&self) -> bool {
        *self == Failure::Busy
    }
}

impl<E: IsBusy> IsBusy for buffer::Error<E> {
    fn is_busy(&self) -> bool {
        match self {
            buffer::Error::Inner(error) => error.is_busy(),
            _ => false,
        }
    }
}

impl<E: IsBusy, D> IsBusy for balance::error::Error<E, D> {
    fn is_busy(&self) -> bool {
        match self {
            balance::error::Error::Inner(error) => error.is_busy(),
            _ => false,
        }
    }
}
