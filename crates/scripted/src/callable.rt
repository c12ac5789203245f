//! A service that a script keeps, with what is known of it.
ghost use Rattle.std.specs.Prelude.{◌≡◌, true};

use std::marker::{Model, PhantomData};
use tower_base::service::Service;
use tower_latch::held::{Fact, Viewed, open};

// The service is sound, and may be called.
struct MayCall<Request> {
    request: PhantomData<Request>,
}

impl<S: Service<Request>, Request> Fact<S> for MayCall<Request> {
    ghost holds = { λ s. S.sound s × S.ready s };
}

/// A service that may be called.
#[derive(Drop)]
pub(crate) struct Callable<S: Service<Request>, Request> {
    service: S,
    request: PhantomData<Request>,
}

impl<S: Service<Request>, Request> Model for Callable<S, Request> {
    ghost Value = { S };

    ghost view = { λ v. v.service };

    ghost invariant = { λ v. ∥ S.sound v.service × S.ready v.service ∥₁ };
}

impl<S: Service<Request>, Request> Callable<S, Request> {
    pub(crate) fn new(service: S) -> Callable<S, Request>
        requires sound { S.sound service }
        requires ready { S.ready service }
        ensures { result ≡ service }
    {
        Callable {
            service,
            request: PhantomData,
        }
    }

    pub(crate) fn into_inner(self) -> S
        ensures sound { S.sound result }
        ensures ready { S.ready result }
        ensures same { result ≡ self }
    {
        let Callable {
            service,
            request: _,
        } = self;
        open::<S, MayCall<Request>>(service)
    }
}

/// A handle of a script.
#[derive(Drop)]
pub(crate) enum Handle<S: Service<Request>, Request> {
    Idle(Viewed<S, Request>),
    Ready(Callable<S, Request>),
}

impl<S: Service<Request>, Request> Handle<S, Request> {
    pub(crate) fn idle(service: S) -> Handle<S, Request>
        requires { S.sound service }
    {
        Handle::Idle(Viewed::new(service))
    }

    pub(crate) fn ready(service: S) -> Handle<S, Request>
        requires sound { S.sound service }
        requires ready { S.ready service }
    {
        Handle::Ready(Callable::new(service))
    }

    /// A handle that may be called only if the service always may.
    pub(crate) fn kept(always: bool, service: S) -> Handle<S, Request>
        requires sound { S.sound service }
        requires ready { always ≡ true → S.ready service }
    {
        if always {
            Handle::ready(service)
        } else {
            Handle::idle(service)
        }
    }

    pub(crate) fn into_inner(self) -> S
        ensures { S.sound result }
    {
        match self {
            Handle::Idle(service) => service.into_inner(),
            Handle::Ready(service) => service.into_inner(),
        }
    }
}
