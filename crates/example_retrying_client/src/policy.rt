//! The policy that decides when a request is retried.

use tower::retry::Policy;
use tower::retry::backoff::{Backoff, ExponentialBackoff};
use tower::retry::budget::Budget;
use tower::service::{Clock, Sleep};
use tower::util::rng::HasherRng;

/// A reason why there is no page.
#[derive(Clone, Copy, Debug, thiserror::Error)]
pub enum Failure {
    /// The server has no time for this attempt.
    #[error("busy")]
    Busy,
    /// The last attempt failed too, and the budget doesn't pay for another.
    #[error("the budget refuses another retry")]
    Refused,
}

/// A policy that retries a failed request after the next wait of its backoff, while the budget pays for it.
#[derive(Clone, Drop)]
pub struct Patient<B, W> {
    pub budget: B,
    pub backoff: W,
}

impl<B, C> Policy<u64, u64, Failure> for Patient<B, ExponentialBackoff<HasherRng, C>>
where
    B: Budget,
    C: Clock,
{
    type Future = Sleep<C>;

    fn retry(&mut self, _page: &mut u64, outcome: &mut Result<u64, Failure>) -> Option<Sleep<C>> {
        if outcome.is_ok() {
            self.budget.deposit();
            return None;
        }
        if !self.budget.withdraw() {
            *outcome = Err(Failure::Refused);
            return None;
        }
        Some(self.backoff.next_backoff())
    }

    fn clone_request(&mut self, page: &u64) -> Option<u64> {
        Some(*page)
    }
}
