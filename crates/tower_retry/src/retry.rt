//! Retries of requests: the Rust's `tower::retry`.
ghost use Rattle.std.specs.Prelude.{◌≡◌};
ghost use Rattle.tower_base.specs.AnswersLemmas.{answered_ok};
ghost use Rattle.tower_retry.specs.Retry.{Called, Polled, RetryView};
ghost use Rattle.tower_retry.specs.declared.retry.error.Error.TheVariants.{Inner};

pub mod backoff;
pub mod budget;
mod error;
pub mod future;
mod laws;
mod layer;
mod policy;
mod state;

pub use error::Error;
use future::ResponseFuture;
use futures::task::{Context, Poll};
pub use laws::{law, projection};
pub use layer::RetryLayer;
pub use policy::Policy;
use state::{Attempts, State};
use std::alloc::AllocError;
use std::marker::Model;
use tower_base::service::Service;

/// A service that makes requests again as its policy decides: the Rust's `tower::retry::Retry`.
///
/// An error of the inner service's readiness is returned as `Inner`, and the policy isn't called for it.
#[derive(Drop)]
pub struct Retry<P, S> {
    policy: P,
    service: S,
}

impl<P, S> Model for Retry<P, S> {
    ghost Value = { RetryView P S };

    ghost view = { λ retry. record { policy = retry.policy; service = retry.service } };
}

impl<P, S> Retry<P, S> {
    /// Creates a `Retry`, whose policy is called for each result of a kept request. Reads and clones nothing.
    pub fn new(policy: P, service: S) -> Retry<P, S>
        ensures { result ≡ record { policy = policy; service = service } }
    {
        Retry { policy, service }
    }
}

impl<Request, P, S> Service<Request> for Retry<P, S>
where
    P: Policy<Request, S::Response, S::Error> + Clone,
    S: Service<Request> + Clone,
    Request: Drop,
{
    type Response = S::Response;

    type Error = Error<S::Error>;

    type Future = ResponseFuture<P, S, Request, S::Future, P::Future>;

    // Clones of a sound policy and of a sound service are sound.
    ghost sound = { λ retry. P.sound retry.policy × S.sound retry.service
        × ((old new : P) → P.is_clone old new → P.sound old → P.sound new)
        × ((old new : S) → S.is_clone old new → S.sound old → S.sound new) };

    ghost ready = { λ retry. S.ready retry.service };

    ghost polled = { Polled S.Service P.Policy };

    ghost needs = { λ retry. S.needs retry.service };

    ghost stirs = { λ old new. S.stirs old.service new.service };

    ghost called = { Called S.Service P.Policy P.Clone S.Clone };

    ghost readies = { λ old new poll. S.readies old.service new.service
        (let ready = answered_ok Inner poll.inner tt poll.answers in
        Prim.rw ready at poll.polled) };

    fn poll_ready(&mut self, cx: &mut Context<'_>) -> Poll<Result<(), Self::Error>> {
        match self.service.poll_ready(cx) {
            Poll::Ready(Ok(())) => Poll::Ready(Ok(())),
            Poll::Ready(Err(error)) => Poll::Ready(Err(Error::Inner(error))),
            Poll::Pending => Poll::Pending,
        }
    }

    /// Calls the inner service. If cloning the policy or the service fails, the inner future is dropped,
    /// and the returned future resolves to `Memory`.
    fn call(&mut self, request: Request) -> Self::Future {
        let kept = self.policy.clone_request(&request);
        let response = self.service.call(request);
        match self.clone() {
            Ok(Retry { policy, service }) => ResponseFuture::new(Attempts {
                policy,
                service,
                request: kept,
                state: State::InFlight(response),
            }),
            Err(AllocError) => ResponseFuture::refused(),
        }
    }
}

impl<P: Clone, S: Clone> Clone for Retry<P, S> {
    ghost is_clone = { λ old new. P.is_clone old.policy new.policy
        × S.is_clone old.service new.service };

    ghost is_infallible = { λ retry. P.is_infallible retry.policy × S.is_infallible retry.service };

    fn clone(&self) -> Result<Retry<P, S>, AllocError> {
        Ok(Retry::new(self.policy.clone()?, self.service.clone()?))
    }
}

impl<P, S> Retry<P, S> {
    ghost use Rattle.tower_retry.specs.RetryLends.{LendsInner};
    ghost use Rattle.std.specs.Borrow.{sem};

    /// Returns a reference to the inner service.
    pub fn get_ref(&self) -> &S
        ensures { result.now ≡ self.now.service }
    {
        &self.service
    }

    /// Returns a mutable reference to the inner service.
    pub fn get_mut(&mut self) -> &mut S
        ensures* writes_back { sem 𝓛 (LendsInner P.row S.row self.entry result) }
        ensures value { result.now ≡ self.old.service }
    {
        &mut self.service
    }

    /// Returns the inner service and drops the policy.
    pub fn into_inner(self) -> S
    where
        P: Drop,
        ensures { result ≡ self.service }
    {
        self.service
    }
}
