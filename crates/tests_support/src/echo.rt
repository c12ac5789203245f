//! A service that answers each request with itself.

use futures::future::{Ready, ready};
use futures::task::{Context, Poll};
use tower_base::service::Service;

/// It is always ready, answers each request with itself at once, and notes nothing. Neither it nor its future has a lifetime.
#[derive(Drop)]
pub struct Echo;

impl Service<u8> for Echo {
    type Response = u8;

    type Error = u8;

    type Future = Ready<Result<u8, u8>>;

    ghost readies = { λ _ _ _. tt };

    fn poll_ready(&mut self, _cx: &mut Context<'_>) -> Poll<Result<(), u8>> {
        Poll::Ready(Ok(()))
    }

    fn call(&mut self, request: u8) -> Ready<Result<u8, u8>> {
        ready(Ok(request))
    }
}
