//! Servers, and the directory that says which of them there are.

ghost use Rattle.std.specs.Prelude.{⊤};

use futures::future::{Ready, ready};
use futures::task::{Context, Poll};
use std::cell::Cell;
use std::convert::Infallible;
use tower::Service;
use tower::discover::{Change, Discover};

/// A request for a page.
#[derive(Clone, Copy, Debug)]
pub struct Get {
    pub page: u64,
}

/// What a server reports.
#[derive(Clone, Copy, Debug, PartialEq, Eq, thiserror::Error)]
pub enum Failure {
    #[error("503 busy")]
    Busy,
    #[error("404 no page {0}")]
    NotFound(u64),
}

/// A server of pages, as long as their number in hundreds of bytes. It refuses its first request, and
/// has no page 8.
#[derive(Debug, Drop)]
pub struct Endpoint {
    is_warm: bool,
}

impl Endpoint {
    pub fn new() -> Endpoint {
        Endpoint { is_warm: false }
    }
}

impl Service<Get> for Endpoint {
    type Response = u64;

    type Error = Failure;

    type Future = Ready<Result<u64, Failure>>;

    // It may always be called.
    ghost readies = { λ _ _ _. tt };

    fn poll_ready(&mut self, _cx: &mut Context<'_>) -> Poll<Result<(), Failure>> {
        Poll::Ready(Ok(()))
    }

    fn call(&mut self, get: Get) -> Ready<Result<u64, Failure>> {
        ready(if !self.is_warm {
            self.is_warm = true;
            Err(Failure::Busy)
        } else if get.page == 8 {
            Err(Failure::NotFound(8))
        } else {
            Ok(get.page.saturating_mul(100))
        })
    }
}

/// What the directory has to tell: a server comes to a port, or the one there goes.
pub type News = Cell<Option<Change<u16, Endpoint>>>;

/// A discovery that reports each change to the balancer, once.
#[derive(Drop)]
pub struct Directory<'a> {
    pub news: &'a News,
}

type Found = Poll<Option<Result<Change<u16, Endpoint>, Infallible>>>;

impl<'a> Discover for Directory<'a> {
    type Key = u16;

    type Service = Endpoint;

    type Error = Infallible;

    ghost discovered = { λ _ _ _. ⊤ };

    fn poll_discover(&mut self, cx: &mut Context<'_>) -> Found {
        match self.news.take() {
            Some(change) => Poll::Ready(Some(Ok(change))),
            None => cx.yield_now(),
        }
    }
}
