//! A maker as a service, by value.
ghost use Rattle.std.specs.Prelude.{◌≡◌};
ghost use Rattle.tower_base.specs.ProjectionLemmas.{composed_once, forwards};

use futures::task::{Context, Poll};
use std::alloc::AllocError;
use std::marker::{Model, PhantomData};
use tower_base::run::Contains;
use tower_base::service::Service;

/// A maker as a service. It is the Rust's `tower::make::IntoService`.
#[derive(Drop)]
pub struct IntoService<M, Request> {
    make: M,
    request: PhantomData<Request>,
}

impl<M, Request> Model for IntoService<M, Request> {
    ghost Value = { M };

    ghost view = { λ s. s.make };
}

impl<M, Request> IntoService<M, Request> {
    pub(crate) fn new(make: M) -> IntoService<M, Request>
        ensures { result ≡ make }
    {
        IntoService {
            make,
            request: PhantomData,
        }
    }
}

impl<M, S, Target, Request> Service<Target> for IntoService<M, Request>
where
    M: Service<Target, Response = S>,
    S: Service<Request>,
    Request: Drop,
{
    type Response = S;

    type Error = M::Error;

    type Future = M::Future;

    ghost sound = { M.sound };

    ghost ready = { M.ready };

    ghost polled = { M.polled };

    ghost needs = { M.needs };

    ghost stirs = { M.stirs };

    ghost called = { λ old target future new. M.ready old × M.called old target future new };

    ghost readies = { M.readies };

    fn poll_ready(&mut self, cx: &mut Context<'_>) -> Poll<Result<(), M::Error>> {
        self.make.poll_ready(cx)
    }

    fn call(&mut self, target: Target) -> M::Future {
        self.make.call(target)
    }
}

/// An `IntoService` contains what the maker contains.
impl<M, S, Target, Request, Passed, L> Contains<Target, Passed, L> for IntoService<M, Request>
where
    L: Service<Passed>,
    M: Contains<Target, Passed, L, Response = S>,
    S: Service<Request>,
    Request: Drop,
{
    ghost inside = { M.inside };

    ghost goes = { M.goes };

    ghost projects = { composed_once _ _ _ (λ m. m) M.inside M.goes
        (forwards _ _ (λ m. m) (λ _ _ answer p. (answer, p)) (λ _ _ _ future c. (future, c.0, c.1)))
        M.projects };
}

impl<M: Clone, Request> Clone for IntoService<M, Request> {
    ghost is_clone = { M.is_clone };

    ghost is_infallible = { M.is_infallible };

    fn clone(&self) -> Result<IntoService<M, Request>, AllocError> {
        Ok(IntoService::new(self.make.clone()?))
    }
}
