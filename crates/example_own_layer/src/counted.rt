//! A custom middleware, which counts calls.
ghost use Rattle.std.specs.Prelude.{◌≡◌};
ghost use Rattle.example_own_layer.specs.Counted.{CountedView, Polled, Called};
ghost use Rattle.tower_base.specs.ProjectionLemmas.{composed_once, forwards};

use futures::task::{Context, Poll};
use std::marker::Model;
use tower::Service;
use tower::run::Contains;

/// A service that counts the calls of its inner service.
#[derive(Drop)]
pub struct Counted<S> {
    inner: S,
    calls: u64,
}

// What contracts see of a `Counted`.
impl<S> Model for Counted<S> {
    ghost Value = { CountedView S };

    ghost view = { λ c. record { inner = c.inner; calls = c.calls } };
}

impl<S> Counted<S> {
    pub fn new(inner: S) -> Counted<S>
        ensures { result ≡ record { inner = inner; calls = 0 } }
    {
        Counted { inner, calls: 0 }
    }
}

// The ghost lines state the meaning of the service, in the words of specs/. The check proves that the code
// conforms to it.
impl<Request, S: Service<Request>> Service<Request> for Counted<S> {
    type Response = S::Response;

    type Error = S::Error;

    type Future = S::Future;

    ghost sound = { λ c. S.sound c.inner };

    ghost ready = { λ c. S.ready c.inner };

    ghost polled = { Polled S.Service };

    // A poll asks for another only if that of the inner service does.
    ghost stirs = { λ old new. S.stirs old.inner new.inner };

    ghost called = { Called S.Service };

    ghost readies = { λ old new p. S.readies old.inner new.inner p.polled };

    fn poll_ready(&mut self, cx: &mut Context<'_>) -> Poll<Result<(), S::Error>> {
        self.inner.poll_ready(cx)
    }

    fn call(&mut self, request: Request) -> S::Future {
        self.calls = self.calls.saturating_add(1);
        self.inner.call(request)
    }
}

// Each poll and each call goes inside unchanged. So the counter may be placed over a rate limit, as in
// `crates/uses/src/within_rate.rt`.
impl<Request, Passed, L, S> Contains<Request, Passed, L> for Counted<S>
where
    L: Service<Passed>,
    S: Contains<Request, Passed, L>,
{
    ghost inside = { λ c. S.inside c.inner };

    ghost goes = { S.goes };

    ghost projects = { composed_once _ _ _ (λ c. c.inner) S.inside S.goes (forwards _ _ (λ c. c.inner) (λ _ _ answer p. (answer, p.polled)) (λ _ _ _ future c. (future, c.ready, c.called))) S.projects };
}
