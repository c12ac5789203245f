//! A custom layer, for stacks that hold one.
ghost use Rattle.std.specs.Prelude.{◌≡◌};
ghost use Rattle.tower_base.specs.ProjectionLemmas.{composed_once, forwards};

use futures::task::{Context, Poll};
use std::marker::Model;
use tower::Service;
use tower::run::Contains;

/// A custom layer, which counts the calls of its service.
#[derive(Drop)]
pub struct Counted<S> {
    inner: S,
    calls: u64,
}

// Contracts see only the inner service.
impl<S> Model for Counted<S> {
    ghost Value = { S };

    ghost view = { λ c. c.inner };
}

impl<S> Counted<S> {
    /// Wraps the service, of which no call was counted yet.
    pub fn new(inner: S) -> Counted<S>
        ensures { result ≡ inner }
    {
        Counted { inner, calls: 0 }
    }
}

impl<Request, S: Service<Request>> Service<Request> for Counted<S> {
    type Response = S::Response;

    type Error = S::Error;

    type Future = S::Future;

    ghost sound = { S.sound };

    ghost ready = { S.ready };

    ghost polled = { S.polled };

    // If it is pending, it waits for what its service waits for.
    ghost needs = { S.needs };

    // It asks to be polled again only if its service does.
    ghost stirs = { S.stirs };

    ghost called = { λ old request future new. S.ready old × S.called old request future new };

    ghost readies = { S.readies };

    fn poll_ready(&mut self, cx: &mut Context<'_>) -> Poll<Result<(), S::Error>> {
        self.inner.poll_ready(cx)
    }

    fn call(&mut self, request: Request) -> S::Future {
        self.calls = self.calls.saturating_add(1);
        self.inner.call(request)
    }
}

// Each poll and each call goes inside unchanged.
impl<Request, Passed, L, S> Contains<Request, Passed, L> for Counted<S>
where
    L: Service<Passed>,
    S: Contains<Request, Passed, L>,
{
    ghost inside = { S.inside };

    ghost goes = { S.goes };

    ghost projects = { composed_once _ _ _ (λ c. c) S.inside S.goes (forwards _ _ (λ c. c) (λ _ _ answer p. (answer, p)) (λ _ _ _ future c. (future, c.0, c.1))) S.projects };
}
