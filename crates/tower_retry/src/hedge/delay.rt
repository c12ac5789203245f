//! Delayed calls: the Rust's `tower::hedge::delay`.
ghost use Rattle.std.specs.Prelude.{◌≡◌, ⊤, Ok};
ghost use Rattle.futures.specs.declared.task.Poll.TheVariants.{Ready};
ghost use Rattle.tower_retry.specs.Delay.{DelayView, Called};

mod error;
mod future;
mod policy;
mod state;

pub use error::Error;
pub use future::ResponseFuture;
use futures::task::{Context, Poll};
pub use policy::Policy;
use state::State;
use std::marker::Model;
use tower_base::service::{Clock, Service, Sleep};
use tower_util::util::Oneshot;

/// A service that makes each call after a delay, with a clone of its service: the Rust's
/// `tower::hedge::delay::Delay`.
///
/// It is always ready: the clone's readiness is polled after the delay. The clock is passed to the
/// constructor.
#[derive(Drop)]
pub struct Delay<P, S, C> {
    policy: P,
    service: S,
    clock: C,
}

impl<P, S, C> Model for Delay<P, S, C> {
    ghost Value = { DelayView P S C };

    ghost view = { λ d. record { policy = d.policy; service = d.service; clock = d.clock } };
}

impl<P, S, C> Delay<P, S, C> {
    /// Creates a `Delay`. The policy decides how long each call waits. Doesn't read the clock.
    pub fn new(policy: P, service: S, clock: C) -> Delay<P, S, C>
        ensures { result ≡ record { policy = policy; service = service; clock = clock } }
    {
        Delay {
            policy,
            service,
            clock,
        }
    }
}

impl<Request, P, S, C> Service<Request> for Delay<P, S, C>
where
    Request: Drop,
    P: Policy<Request>,
    S: Service<Request> + Clone,
    C: Clock,
{
    type Response = S::Response;

    type Error = Error<S::Error>;

    type Future = ResponseFuture<Request, S, Oneshot<S, Request>, C>;

    // A clone of a sound service is sound.
    ghost sound = { λ d. P.sound d.policy × S.sound d.service
        × ((x y : S) → S.is_clone x y → S.sound x → S.sound y) };

    ghost ready = { λ _. ⊤ };

    ghost polled = { λ old answer new. (answer ≡ Ready (Ok tt)) × (new ≡ old) };

    // It is always ready, and polls nothing.
    ghost stirs = { λ _ _. ⊥ };

    ghost called = { Called P.Policy S.Clone C.Clock };

    ghost readies = { λ _ _ _. tt };

    fn poll_ready(&mut self, _cx: &mut Context<'_>) -> Poll<Result<(), Self::Error>> {
        Poll::Ready(Ok(()))
    }

    /// Begins the delay. If allocating a clone of the service fails, nothing is called, and the returned
    /// future resolves to `Memory`.
    fn call(&mut self, request: Request) -> Self::Future {
        let delay = self.policy.delay(&request);
        let sleep = Sleep::new(self.clock.share(), delay);
        match self.service.clone() {
            Ok(service) => ResponseFuture::new(State::Delaying(sleep, service, request)),
            Err(_) => ResponseFuture::new(State::NoClone),
        }
    }
}
