//! The policy that decides when a request is retried.

use futures::future::{Ready, ready};
use tower::retry::Policy;
use tower::retry::budget::Budget;

/// The error of a service that has no time for a call.
#[derive(Clone, Copy, Debug, thiserror::Error)]
#[error("busy at call {0}")]
pub struct Busy(pub u64);

/// A policy of up to two retries for each request, without delay, while the budget pays for them.
#[derive(Clone, Drop)]
pub struct TwoRetries<B> {
    left: u8,
    budget: B,
}

impl<B> TwoRetries<B> {
    pub fn new(budget: B) -> TwoRetries<B> {
        TwoRetries { left: 2, budget }
    }
}

impl<B: Budget, E> Policy<u64, u64, E> for TwoRetries<B> {
    type Future = Ready<()>;

    fn retry(&mut self, _request: &mut u64, outcome: &mut Result<u64, E>) -> Option<Ready<()>> {
        if outcome.is_ok() {
            self.budget.deposit();
            return None;
        }
        if self.left == 0 || !self.budget.withdraw() {
            return None;
        }
        self.left -= 1;
        Some(ready(()))
    }

    fn clone_request(&mut self, request: &u64) -> Option<u64> {
        Some(*request)
    }
}
