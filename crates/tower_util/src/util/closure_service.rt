//! A service that calls a closure. It is the Rust's `util/service_fn.rs`; the kit doesn't accept that
//! name beside the function of the same name.
ghost use Rattle.std.specs.Prelude.{◌≡◌, Ok, Result};
ghost use Rattle.futures.specs.declared.task.Poll.TheVariants.{Ready};
ghost use Rattle.tower_util.specs.ServiceFn.{ServiceFnView};

use futures::task::{Context, Poll};
use std::marker::Model;
use tower_base::service::{Service, Steps};

/// A service that is always ready and calls a closure. It is the Rust's `tower::util::ServiceFn`.
#[derive(Clone, Copy, Drop)]
pub struct ServiceFn<T> {
    f: T,
}

impl<T> Model for ServiceFn<T> {
    ghost Value = { ServiceFnView T };

    ghost view = { λ s. record { f = s.f } };

    ghost inverse = { λ v. record { f = v.f } };
}

/// Creates a `ServiceFn`. It is the Rust's `tower::util::service_fn`.
pub fn service_fn<T>(f: T) -> ServiceFn<T>
    ensures { result ≡ record { f = f } }
{
    ServiceFn { f }
}

impl<T, F, Request, R, E> Service<Request> for ServiceFn<T>
where
    T: FnMut(Request) -> F + Drop,
    F: Steps<Output = Result<R, E>>,
    R: Drop,
    E: Drop,
{
    type Response = R;

    type Error = E;

    type Future = F;

    // The closure may always be called again, and the futures that it returns may be polled.
    ghost sound = { λ s. T.IsAlwaysCallable s.f
        × ((old : T) (request : Request) (future : F) (new : T) → T.step old request future new
        → F.can_poll future) };

    ghost ready = { λ _. Unit {0} };

    ghost polled = { λ old answer new. (answer ≡ Ready (Ok tt)) × (new ≡ old) };

    // It polls nothing.
    ghost stirs = { λ _ _. ⊥ };

    ghost called = { λ old request future new. T.step old.f request future new.f };

    ghost readies = { λ _ _ _. tt };

    fn poll_ready(&mut self, _cx: &mut Context<'_>) -> Poll<Result<(), E>> {
        Poll::Ready(Ok(()))
    }

    fn call(&mut self, request: Request) -> F {
        (self.f)(request)
    }
}
