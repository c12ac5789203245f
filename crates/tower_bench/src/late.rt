//! The service that stacks in flight are over: its responses are there at their second poll.
ghost use Rattle.std.specs.Prelude.{⊤};

use futures::future::{Future, Ready, ok};
use futures::task::{Context, Poll};
use std::alloc::AllocError;
use tower::Service;
use tower::service::Steps;

/// Is always ready. A response wakes its task and is pending once, and is then the request.
#[derive(Drop)]
pub struct Late;

impl Service<u64> for Late {
    type Response = u64;

    type Error = u64;

    type Future = LateFuture;

    ghost ready = { λ _. ⊤ };

    ghost polled = { λ _ _ _. ⊤ };

    ghost called = { λ _ _ _ _. ⊤ };

    ghost readies = { λ _ _ _. tt };

    fn poll_ready(&mut self, _cx: &mut Context<'_>) -> Poll<Result<(), u64>> {
        Poll::Ready(Ok(()))
    }

    fn call(&mut self, request: u64) -> LateFuture {
        LateFuture {
            request,
            is_polled: false,
        }
    }
}

impl Clone for Late {
    fn clone(&self) -> Result<Late, AllocError> {
        Ok(Late)
    }
}

/// The response of a `Late`.
#[derive(Drop)]
pub struct LateFuture {
    request: u64,
    is_polled: bool,
}

impl Future for LateFuture {
    type Output = Result<u64, u64>;

    ghost can_poll = { λ _. ⊤ };

    fn poll(&mut self, cx: &mut Context<'_>) -> Poll<Result<u64, u64>> {
        self.step(cx)
    }
}

impl Steps for LateFuture {
    type Output = Result<u64, u64>;

    ghost can_poll = { λ _. ⊤ };

    ghost stepped = { λ _ _ _. ⊤ };

    fn step(&mut self, cx: &mut Context<'_>) -> Poll<Result<u64, u64>> {
        if self.is_polled {
            return Poll::Ready(Ok(self.request));
        }
        self.is_polled = true;
        cx.yield_now()
    }
}

/// Makes the service anew. It is always ready too.
#[derive(Drop)]
pub struct LateMaker;

impl Service<u64> for LateMaker {
    type Response = Late;

    type Error = u64;

    type Future = Ready<Result<Late, u64>>;

    ghost ready = { λ _. ⊤ };

    ghost polled = { λ _ _ _. ⊤ };

    ghost called = { λ _ _ _ _. ⊤ };

    ghost readies = { λ _ _ _. tt };

    fn poll_ready(&mut self, _cx: &mut Context<'_>) -> Poll<Result<(), u64>> {
        Poll::Ready(Ok(()))
    }

    fn call(&mut self, _target: u64) -> Ready<Result<Late, u64>> {
        ok(Late)
    }
}
