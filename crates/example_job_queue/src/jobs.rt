//! The jobs, the service that does them, and the policy that decides when one is done again.

use futures::future::{Ready, ready};
use futures::task::{Context, Poll};
use tower::Service;
use tower::retry::Policy;

/// A number to be squared, and how often that failed.
#[derive(Clone, Copy, Debug)]
pub struct Job {
    pub number: u64,
    pub failures: u64,
}

/// A service that squares numbers. For every fifth number the first attempt fails.
#[derive(Clone, Copy, Debug)]
pub struct Square;

/// The error of an attempt: there is no square yet, or it is too large.
#[derive(Clone, Copy, Debug)]
pub struct Lost;

/// The response of an attempt.
pub type Response = Ready<Result<u64, Lost>>;

impl Service<Job> for Square {
    type Response = u64;

    type Error = Lost;

    type Future = Response;

    // It may always be called.
    ghost readies = { λ _ _ _. tt };

    fn poll_ready(&mut self, _cx: &mut Context<'_>) -> Poll<Result<(), Lost>> {
        Poll::Ready(Ok(()))
    }

    fn call(&mut self, job: Job) -> Response {
        let Job { number, failures } = job;
        if number % 5 == 0 && failures == 0 {
            return ready(Err(Lost));
        }
        ready(number.checked_mul(number).ok_or(Lost))
    }
}

/// A policy that retries a failed job once, without delay.
#[derive(Clone, Copy, Debug)]
pub struct Again;

impl Policy<Job, u64, Lost> for Again {
    type Future = Ready<()>;

    fn retry(&mut self, job: &mut Job, outcome: &mut Result<u64, Lost>) -> Option<Ready<()>> {
        if outcome.is_ok() || job.failures > 0 {
            return None;
        }
        job.failures = 1;
        Some(ready(()))
    }

    fn clone_request(&mut self, job: &Job) -> Option<Job> {
        Some(*job)
    }
}
