//! The response to a request that may hang.

use futures::future::{Future, Pending};
use futures::task::{Context, Poll};
use std::convert::Infallible;
use tower::service::Steps;

/// A response that comes at once, or never.
#[derive(Drop)]
pub enum Attempt {
    Answers,
    Hangs(Pending<Result<u32, Infallible>>),
}

impl Future for Attempt {
    type Output = Result<u32, Infallible>;

    ghost needs = { λ _ _. ⊥ };

    fn poll(&mut self, cx: &mut Context<'_>) -> Poll<Self::Output> {
        self.step(cx)
    }
}

impl Steps for Attempt {
    type Output = Result<u32, Infallible>;

    fn step(&mut self, cx: &mut Context<'_>) -> Poll<Self::Output> {
        match self {
            Attempt::Answers => Poll::Ready(Ok(2)),
            Attempt::Hangs(never) => never.poll(cx),
        }
    }
}
