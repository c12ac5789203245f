//! A service that may be absent.
ghost use Rattle.std.specs.Prelude.{◌≡◌, Option, IfSome};
ghost use Rattle.tower_util.specs.Fuse.{needs_of};
ghost use Rattle.tower_util.specs.Optional.{Polled, Called, Stirs};
ghost use Rattle.tower_util.specs.OptionalReady.{polled_ready};

pub mod error;
pub mod future;

use crate::util::optional::error::Error;
use crate::util::optional::future::ResponseFuture;
use futures::ready;
use futures::task::{Context, Poll};
use std::marker::Model;
use tower_base::service::Service;

/// A service or none: the Rust's `tower::util::Optional`. Without a service it is always ready, and each
/// call returns an error.
#[derive(Drop)]
pub struct Optional<T> {
    inner: Option<T>,
}

impl<T> Model for Optional<T> {
    ghost Value = { Option T };

    ghost view = { λ o. o.inner };
}

impl<T> Optional<T> {
    /// Creates an `Optional`. With `None` it is always ready, and each call returns the error `None`.
    pub fn new(inner: Option<T>) -> Optional<T>
        ensures { result ≡ inner }
    {
        Optional { inner }
    }
}

impl<T: Service<Request>, Request: Drop> Service<Request> for Optional<T> {
    type Response = T::Response;

    type Error = Error<T::Error>;

    type Future = ResponseFuture<T::Future>;

    ghost sound = { λ o. IfSome o T.sound };

    ghost ready = { λ o. IfSome o T.ready };

    ghost polled = { Polled T.polled };

    ghost needs = { needs_of T.needs };

    ghost stirs = { Stirs T.stirs };

    ghost called = { Called T.ready T.called };

    ghost readies = { polled_ready T.polled T.ready T.readies };

    fn poll_ready(&mut self, cx: &mut Context<'_>) -> Poll<Result<(), Error<T::Error>>> {
        match &mut self.inner {
            Some(inner) => match ready!(inner.poll_ready(cx)) {
                Ok(()) => Poll::Ready(Ok(())),
                Err(error) => Poll::Ready(Err(Error::Inner(error))),
            },
            None => Poll::Ready(Ok(())),
        }
    }

    fn call(&mut self, request: Request) -> ResponseFuture<T::Future> {
        match &mut self.inner {
            Some(inner) => ResponseFuture::new(Some(inner.call(request))),
            None => ResponseFuture::new(None),
        }
    }
}
