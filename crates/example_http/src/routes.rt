//! The service that answers the requests.

use crate::asked::Asked;
use crate::page::Page;
use crate::reply::Reply;
use crate::visits::{Visit, Visits};
use futures::task::{Context, Poll};
use hyper::body::Incoming;
use hyper::{Request, Response};
use std::alloc::{AllocError, Global};
use std::rc::Rc;
use tower::service::{Clock, Sleep};
use tower::{Own, Service};

/// The routes: `GET /square/N`; `GET /slow/N`, which takes N milliseconds; `POST /length`, which waits for
/// the request's body and tells its length. They count their visits.
#[derive(Drop)]
pub struct Routes<C> {
    alloc: Global,
    clock: C,
    visits: Rc<Visits>,
}

impl<C> Routes<C> {
    pub fn new(alloc: Global, clock: C, visits: Rc<Visits>) -> Routes<C> {
        Routes {
            alloc,
            clock,
            visits,
        }
    }
}

impl<C: Clock> Clone for Routes<C> {
    fn clone(&self) -> Result<Routes<C>, AllocError> {
        let visits = self.visits.clone()?;
        Ok(Routes::new(self.alloc, self.clock.share(), visits))
    }
}

impl<I: Drop, C: Clock> Service<Request<Incoming<I>>> for Routes<C> {
    type Response = Response<Page>;

    type Error = Own<http::Error>;

    type Future = Reply<C, I>;

    // It may always be called.
    ghost readies = { λ _ _ _. tt };

    fn poll_ready(&mut self, _cx: &mut Context<'_>) -> Poll<Result<(), Own<http::Error>>> {
        Poll::Ready(Ok(()))
    }

    fn call(&mut self, request: Request<Incoming<I>>) -> Reply<C, I> {
        let asked = Asked::by(request.method(), request.uri().path());
        let visit = Visit::begin(&self.visits).ok();
        let wait = match asked {
            Asked::Slow(millis) => Some(Sleep::new(
                self.clock.share(),
                u64::from(millis).saturating_mul(1_000_000),
            )),
            _ => None,
        };
        Reply::new(self.alloc, asked, visit, wait, request.into_body())
    }
}
