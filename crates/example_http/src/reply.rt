//! The future of a route's response.
ghost use Rattle.std.specs.Prelude.{IsSome};

use crate::asked::Asked;
use crate::page::{Page, text};
use crate::visits::Visit;
use futures::future::Future;
use futures::ready;
use futures::task::{Context, Poll};
use http_body_util::combinators::Collect;
use http_body_util::{BodyExt, Limited, LimitedError};
use hyper::body::Incoming;
use hyper::{Response, StatusCode};
use std::alloc::{AllocError, Global};
use tower::Own;
use tower::service::{Clock, Sleep, Steps};

/// The longest body that is read, in bytes.
pub const LONGEST_BODY: usize = 1_048_576;

/// The response of a call. It is held back until its time has come, and then until the request's whole body
/// was read.
#[derive(Drop)]
pub struct Reply<C, I> {
    alloc: Global,
    asked: Asked,
    // `None` if there was no memory.
    visit: Option<Visit>,
    wait: Option<Sleep<C>>,
    body: Collect<Limited<Incoming<I>>>,
}

impl<C, I: Drop> Reply<C, I> {
    pub fn new(
        alloc: Global,
        asked: Asked,
        visit: Option<Visit>,
        wait: Option<Sleep<C>>,
        body: Incoming<I>,
    ) -> Reply<C, I>
        ensures { IsSome result.body.collected }
    {
        Reply {
            alloc,
            asked,
            visit,
            wait,
            body: Limited::new(body, LONGEST_BODY).collect(alloc),
        }
    }
}

impl<C: Clock, I: Drop> Steps for Reply<C, I> {
    type Output = Result<Response<Page>, Own<http::Error>>;

    ghost can_poll = { λ reply. IsSome reply.body.collected };

    fn step(&mut self, cx: &mut Context<'_>) -> Poll<Result<Response<Page>, Own<http::Error>>> {
        if self.visit.is_none() {
            return Poll::Ready(Err(Own(http::Error::from(AllocError))));
        }
        if let Some(wait) = &mut self.wait {
            ready!(wait.step(cx));
        }
        let alloc = self.alloc;
        let page = match ready!(self.body.poll(cx)) {
            Ok(body) => self.asked.page(alloc, body.aggregate().len()),
            Err(LimitedError::LengthLimit) => {
                text(alloc, StatusCode::PAYLOAD_TOO_LARGE, "too long")
            }
            Err(LimitedError::Body(_error)) => text(alloc, StatusCode::BAD_REQUEST, "bad body"),
        };
        Poll::Ready(page.map_err(Own))
    }
}
