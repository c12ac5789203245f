//! A service whose soundness needs no further proof. The Rust has no such module; only contracts need it.
ghost use Rattle.std.specs.Prelude.{◌≡◌};

use futures::task::{Context, Poll};
use std::marker::{Model, PhantomData};
use tower_base::run::Contains;
use tower_base::service::Service;
use tower_latch::held::{Fact, IsSound, open};

// The fact that the borrowed service is sound.
struct IsSoundBehind<Request> {
    request: PhantomData<Request>,
}

impl<'a, S: Service<Request>, Request> Fact<&'a S> for IsSoundBehind<Request> {
    ghost holds = { λ lent. S.sound lent.now };
}

/// A service that is sound by its type. Whoever has one may poll it, and may call it if it is ready.
///
/// Contracts see the wrapped service. The wrapper adds no bytes, and each call of it is a call of the
/// service.
#[derive(Drop)]
pub struct Sealed<S: Service<Request>, Request> {
    service: S,
    request: PhantomData<Request>,
}

impl<S: Service<Request>, Request> Model for Sealed<S, Request> {
    ghost Value = { S };

    ghost view = { λ s. s.service };

    ghost invariant = { λ s. ∥ S.sound s.service ∥₁ };
}

impl<S: Service<Request>, Request> Sealed<S, Request> {
    /// Wraps a sound service. It requires soundness once, and no later call requires it again.
    pub fn new(service: S) -> Sealed<S, Request>
        requires { S.sound service }
        ensures { result ≡ service }
    {
        Sealed {
            service,
            request: PhantomData,
        }
    }

    /// Returns the service, which is still sound.
    pub fn into_inner(self) -> S
        ensures sound { S.sound result }
        ensures same { result ≡ self }
    {
        let Sealed {
            service,
            request: _,
        } = self;
        open::<S, IsSound<Request>>(service)
    }
}

impl<S: Service<Request>, Request> Service<Request> for Sealed<S, Request> {
    type Response = S::Response;

    type Error = S::Error;

    type Future = S::Future;

    ghost ready = { S.ready };

    ghost polled = { S.polled };

    ghost needs = { S.needs };

    ghost stirs = { S.stirs };

    ghost called = { S.called };

    ghost readies = { S.readies };

    fn poll_ready(&mut self, cx: &mut Context<'_>) -> Poll<Result<(), S::Error>> {
        open::<&S, IsSoundBehind<Request>>(&self.service);
        self.service.poll_ready(cx)
    }

    fn call(&mut self, request: Request) -> S::Future {
        open::<&S, IsSoundBehind<Request>>(&self.service);
        self.service.call(request)
    }
}

/// A `Sealed` contains what its service contains.
impl<S: Contains<R, P, L>, R, P, L: Service<P>> Contains<R, P, L> for Sealed<S, R> {
    ghost inside = { S.inside };

    ghost goes = { S.goes };

    ghost projects = { S.projects };
}
