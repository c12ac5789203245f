//! A service with the one error of a hedge.
ghost use Rattle.std.specs.Prelude.{◌≡◌};
ghost use Rattle.tower_base.specs.AnswersLemmas.{answered_ok};
ghost use Rattle.tower_retry.specs.Hedge.{Polled, flat};

use crate::hedge::future::outer;
use crate::hedge::{Error, Future, delay, select};
use futures::task::{Context, Poll};
use std::convert::Infallible;
use std::marker::Model;
use tower_base::service::Service;
use tower_ware::filter;

/// A nest of services, with the one error of a hedge in place of its own: `Inner` for an error of the
/// service itself, on either side, and `Memory` if cloning failed.
#[derive(Drop)]
pub struct Flat<N> {
    inner: N,
}

impl<N> Model for Flat<N> {
    ghost Value = { N };

    ghost view = { λ f. f.inner };
}

impl<N> Flat<N> {
    pub(crate) fn of(inner: N) -> Flat<N>
        ensures { result ≡ inner }
    {
        Flat { inner }
    }
}

impl<Request, T, E, N> Service<Request> for Flat<N>
where
    T: Drop,
    E: Drop,
    N: Service<
        Request,
        Response = T,
        Error = select::Error<E, delay::Error<filter::Error<E, Infallible>>>,
    >,
{
    type Response = T;

    type Error = Error<E>;

    type Future = Future<N::Future>;

    ghost sound = { N.sound };

    ghost ready = { N.ready };

    ghost polled = { Polled N.polled };

    ghost needs = { N.needs };

    ghost stirs = { N.stirs };

    ghost called = { N.called };

    ghost readies = { λ old new p. N.readies old new
        (let e = answered_ok flat p.inner tt p.answers in Prim.rw e at p.polled) };

    fn poll_ready(&mut self, cx: &mut Context<'_>) -> Poll<Result<(), Self::Error>> {
        outer(self.inner.poll_ready(cx))
    }

    fn call(&mut self, request: Request) -> Self::Future {
        Future::new(self.inner.call(request))
    }
}
