//! A middleware with a future of its own, which counts the responses that are errors.
ghost use Rattle.std.specs.Prelude.{◌≡◌};

use futures::task::{Context, Poll};
use std::alloc::AllocError;
use std::cell::Cell;
use std::marker::Model;
use tower::service::Steps;
use tower::{Layer, Service};

/// A service that counts the responses of its inner service that are errors.
#[derive(Drop)]
pub struct CountErrors<'a, S> {
    inner: S,
    errors: &'a Cell<u64>,
}

// Contracts see only the inner service. They can't know what a cell holds, so the count is only tested.
impl<'a, S> Model for CountErrors<'a, S> {
    ghost Value = { S };

    ghost view = { λ c. c.inner };
}

// A poll and a call are those of the inner service.
impl<'a, Request, S: Service<Request>> Service<Request> for CountErrors<'a, S> {
    type Response = S::Response;

    type Error = S::Error;

    type Future = CountErrorsFuture<'a, S::Future>;

    ghost sound = { S.sound };

    ghost ready = { S.ready };

    ghost polled = { S.polled };

    // A poll asks for another only if that of the inner service does.
    ghost stirs = { S.stirs };

    ghost called = { λ old request future new. S.ready old × S.called old request future new };

    ghost readies = { S.readies };

    fn poll_ready(&mut self, cx: &mut Context<'_>) -> Poll<Result<(), S::Error>> {
        self.inner.poll_ready(cx)
    }

    fn call(&mut self, request: Request) -> Self::Future {
        CountErrorsFuture {
            inner: self.inner.call(request),
            errors: self.errors,
        }
    }
}

/// The response of a `CountErrors`.
#[derive(Drop)]
pub struct CountErrorsFuture<'a, F> {
    inner: F,
    errors: &'a Cell<u64>,
}

impl<'a, F> Model for CountErrorsFuture<'a, F> {
    ghost Value = { F };

    ghost view = { λ f. f.inner };
}

// A step is one step of the inner future, and returns its answer. Code that polls a service's response
// requires no more than this impl.
impl<'a, F: Steps<Output = Result<A, E>>, A, E> Steps for CountErrorsFuture<'a, F> {
    type Output = Result<A, E>;

    // What the inner future requires and waits for.
    ghost can_poll = { F.can_poll };

    ghost needs = { F.needs };

    ghost stepped = { F.stepped };

    ghost stirs = { F.stirs };

    fn step(&mut self, cx: &mut Context<'_>) -> Poll<Result<A, E>> {
        let answer = self.inner.step(cx);
        if let Poll::Ready(Err(_)) = &answer {
            self.errors.set(self.errors.get().saturating_add(1));
        }
        answer
    }
}

/// A layer that makes a `CountErrors` from a service.
#[derive(Clone, Copy)]
pub struct CountErrorsLayer<'a> {
    errors: &'a Cell<u64>,
}

impl<'a> CountErrorsLayer<'a> {
    /// Creates a layer whose services count errors in this cell.
    pub fn new(errors: &'a Cell<u64>) -> CountErrorsLayer<'a> {
        CountErrorsLayer { errors }
    }
}

impl<'a, S> Layer<S> for CountErrorsLayer<'a> {
    type Service = CountErrors<'a, S>;

    ghost made = { λ _ service made. made ≡ service };

    fn layer(&self, service: S) -> Result<CountErrors<'a, S>, AllocError> {
        Ok(CountErrors {
            inner: service,
            errors: self.errors,
        })
    }
}
