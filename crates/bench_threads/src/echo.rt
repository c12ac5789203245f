//! What is called.

use futures::future::{Ready, ready};
use futures::task::{Context, Poll};
use tower::Service;

/// Returns the request.
#[derive(Clone, Copy, Debug)]
pub struct Echo;

/// The error that never comes.
#[derive(Clone, Copy, Debug)]
pub struct Lost;

/// What a call comes to.
pub type Response = Ready<Result<u64, Lost>>;

impl Service<u64> for Echo {
    type Response = u64;

    type Error = Lost;

    type Future = Response;

    // It may always be called.
    ghost readies = { λ _ _ _. tt };

    fn poll_ready(&mut self, _cx: &mut Context<'_>) -> Poll<Result<(), Lost>> {
        Poll::Ready(Ok(()))
    }

    fn call(&mut self, number: u64) -> Response {
        ready(Ok(number))
    }
}
