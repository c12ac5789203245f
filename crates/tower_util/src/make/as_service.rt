//! A maker as a service, by reference.
ghost use Rattle.std.specs.Prelude.{◌≡◌};
ghost use Rattle.tower_base.specs.ProjectionLemmas.{composed_once, forwards};

use futures::task::{Context, Poll};
use std::marker::PhantomData;
use tower_base::run::Contains;
use tower_base::service::Service;

/// A borrowed maker as a service. It is the Rust's `tower::make::AsService`.
#[derive(Drop)]
pub struct AsService<'a, M, Request> {
    make: &'a mut M,
    request: PhantomData<Request>,
}

impl<'a, M, Request> AsService<'a, M, Request> {
    pub(crate) fn new(make: &'a mut M) -> AsService<'a, M, Request>
        ensures value { result.make.now ≡ make.old }
        ensures same_reference { result.make.ghost_name ≡ make.entry.ghost_name }
    {
        AsService {
            make,
            request: PhantomData,
        }
    }
}

impl<'a, M, S, Target, Request> Service<Target> for AsService<'a, M, Request>
where
    M: Service<Target, Response = S>,
    S: Service<Request>,
    Request: Drop,
{
    type Response = S;

    type Error = M::Error;

    type Future = M::Future;

    ghost sound = { λ v. M.sound v.make.now };

    ghost ready = { λ v. M.ready v.make.now };

    ghost polled = { λ old answer new. M.polled old.make.now answer new.make.now
        × (new.make.ghost_name ≡ old.make.ghost_name) };

    ghost needs = { λ v. M.needs v.make.now };

    ghost stirs = { λ old new. M.stirs old.make.now new.make.now };

    ghost called = { λ old target future new. M.ready old.make.now × M.called old.make.now target
        future new.make.now × (new.make.ghost_name ≡ old.make.ghost_name) };

    ghost readies = { λ old new polled. M.readies old.make.now new.make.now polled.0 };

    fn poll_ready(&mut self, cx: &mut Context<'_>) -> Poll<Result<(), M::Error>> {
        self.make.poll_ready(cx)
    }

    fn call(&mut self, target: Target) -> M::Future {
        self.make.call(target)
    }
}

/// An `AsService` contains what the borrowed maker contains.
impl<'a, M, S, Target, Request, Passed, L> Contains<Target, Passed, L> for AsService<'a, M, Request>
where
    L: Service<Passed>,
    M: Contains<Target, Passed, L, Response = S>,
    S: Service<Request>,
    Request: Drop,
{
    ghost inside = { λ v. M.inside v.make.now };

    ghost goes = { M.goes };

    ghost projects = { composed_once _ _ _ (λ v. v.make.now) M.inside M.goes (forwards _ _
        (λ v. v.make.now) (λ _ _ answer p. (answer, p.0)) (λ _ _ _ future c. (future, c.0, c.1)))
        M.projects };
}
