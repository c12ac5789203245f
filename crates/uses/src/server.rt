//! The service that the middleware here wrap.

use futures::future::{Ready, ok};
use futures::task::{Context, Poll};
use std::convert::Infallible;
use tower::Service;

/// A server that answers each request with its own number, at once.
#[derive(Clone, Copy, Debug)]
pub struct Server(pub u32);

impl Service<u32> for Server {
    type Response = u32;

    type Error = Infallible;

    type Future = Ready<Result<u32, Infallible>>;

    // It may always be called.
    ghost readies = { λ _ _ _. tt };

    fn poll_ready(&mut self, _cx: &mut Context<'_>) -> Poll<Result<(), Infallible>> {
        Poll::Ready(Ok(()))
    }

    fn call(&mut self, _request: u32) -> Self::Future {
        ok(self.0)
    }
}
