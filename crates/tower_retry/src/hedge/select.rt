//! Two calls, of which the first answer counts: the Rust's `tower::hedge::select`.
ghost use Rattle.std.specs.Prelude.{◌≡◌, ◌⊎◌};
ghost use Rattle.tower_retry.specs.Select.{SelectView, Polled, Called, ServiceNeeds};
ghost use Rattle.tower_retry.specs.SelectReady.{both_ready};

mod error;
mod future;
mod policy;

pub use error::Error;
pub use future::ResponseFuture;
use futures::task::{Context, Poll};
pub use policy::Policy;
use std::marker::Model;
use tower_base::service::Service;

/// A service that calls its first service, and also its second if the policy copies the request: the
/// Rust's `tower::hedge::select::Select`.
///
/// It is ready if both are. The first is polled first, and its error takes precedence over one of the
/// second.
#[derive(Drop)]
pub struct Select<P, A, B> {
    policy: P,
    a: A,
    b: B,
}

impl<P, A, B> Model for Select<P, A, B> {
    ghost Value = { SelectView P A B };

    ghost view = { λ s. record { policy = s.policy; a = s.a; b = s.b } };
}

impl<P, A, B> Select<P, A, B> {
    /// Creates a `Select`. Calls neither the policy nor the services.
    pub fn new(policy: P, a: A, b: B) -> Select<P, A, B>
        ensures { result ≡ record { policy = policy; a = a; b = b } }
    {
        Select { policy, a, b }
    }
}

impl<Request, P, A, B> Service<Request> for Select<P, A, B>
where
    P: Policy<Request>,
    A: Service<Request>,
    B: Service<Request, Response = A::Response>,
{
    type Response = A::Response;

    type Error = Error<A::Error, B::Error>;

    type Future = ResponseFuture<A::Future, B::Future>;

    ghost sound = { λ s. P.sound s.policy × A.sound s.a × B.sound s.b };

    ghost ready = { λ s. A.ready s.a × B.ready s.b };

    ghost polled = { Polled A.Service B.Service };

    ghost needs = { ServiceNeeds A.ready A.needs B.ready B.needs };

    ghost stirs = { λ old new. A.stirs old.a new.a ⊎ B.stirs old.b new.b };

    ghost called = { Called P.Policy A.Service B.Service };

    ghost readies = { λ old new p.
        let both = both_ready p.first p.second p.answers in (
          A.readies old.a new.a (let e = both.0 in Prim.rw e at p.first_polled),
          B.readies old.b new.b (let e = both.1 in Prim.rw e at p.second_polled),
        ) };

    /// Polls both services, whatever the first returns.
    fn poll_ready(&mut self, cx: &mut Context<'_>) -> Poll<Result<(), Self::Error>> {
        let first = self.a.poll_ready(cx);
        let second = self.b.poll_ready(cx);
        match (first, second) {
            (Poll::Ready(Err(error)), _) => Poll::Ready(Err(Error::First(error))),
            (_, Poll::Ready(Err(error))) => Poll::Ready(Err(Error::Second(error))),
            (Poll::Ready(Ok(())), Poll::Ready(Ok(()))) => Poll::Ready(Ok(())),
            _ => Poll::Pending,
        }
    }

    /// Makes the second call, if the policy copies the request, and then the first.
    fn call(&mut self, request: Request) -> Self::Future {
        let b_fut = match self.policy.clone_request(&request) {
            Some(copy) => Some(self.b.call(copy)),
            None => None,
        };
        ResponseFuture::new(self.a.call(request), b_fut)
    }
}
