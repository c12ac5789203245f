//! A load that never changes.
ghost use Rattle.std.specs.Prelude.{◌≡◌};
ghost use Rattle.tower_limit.specs.Constant.{ConstantView, Polled, Called, Discovered};
ghost use Rattle.tower_base.specs.ServiceRun.{relations};
ghost use Rattle.tower_base.specs.Projection.{Once, Projects};
ghost use Rattle.tower_base.specs.ProjectionLemmas.{composed_once};
ghost use Rattle.tower_limit.specs.Projections.{constant as constant_projects};

use crate::discover::{Change, Discover};
use crate::load::Load;
use futures::task::{Context, Poll};
use std::marker::Model;
use tower_base::run::Contains;
use tower_base::service::Service;

/// A service, or a discovery of services, with a load that never changes: the Rust's `tower::load::Constant`.
#[derive(Drop)]
pub struct Constant<T, M> {
    inner: T,
    load: M,
}

impl<T, M> Model for Constant<T, M> {
    ghost Value = { ConstantView T M };

    ghost view = { λ c. record { inner = c.inner; load = c.load } };
}

impl<T, M: Copy> Constant<T, M> {
    /// Creates a service or a discovery with this load. A discovery gives it to each of its services.
    pub fn new(inner: T, load: M) -> Constant<T, M>
        ensures { result ≡ record { inner = inner; load = load } }
    {
        Constant { inner, load }
    }
}

impl<T, M: Copy + PartialOrd> Load for Constant<T, M> {
    type Metric = M;

    ghost loaded = { λ c metric. metric ≡ c.load };

    fn load(&self) -> M {
        self.load
    }
}

impl<Request, S: Service<Request>, M: Copy> Service<Request> for Constant<S, M> {
    type Response = S::Response;

    type Error = S::Error;

    type Future = S::Future;

    ghost sound = { λ c. S.sound c.inner };

    ghost ready = { λ c. S.ready c.inner };

    ghost polled = { Polled S.Service };

    ghost needs = { λ c. S.needs c.inner };

    ghost stirs = { λ old new. S.stirs old.inner new.inner };

    ghost called = { Called S.Service };

    ghost readies = { λ old new p. S.readies old.inner new.inner p.polled };

    fn poll_ready(&mut self, cx: &mut Context<'_>) -> Poll<Result<(), S::Error>> {
        self.inner.poll_ready(cx)
    }

    fn call(&mut self, request: Request) -> S::Future {
        self.inner.call(request)
    }
}

/// States that each call makes one call of the inner service, with the same request.
pub fn projection<Request, S: Service<Request>, M: Copy>()
    ensures { Projects (relations ⟦<Constant<S, M> as Service<Request>>⟧) (relations S.Service)
        (λ k. k.inner) Once }
{}

/// A `Constant` contains what its inner service contains.
impl<Request, Passed, I, S, M> Contains<Request, Passed, I> for Constant<S, M>
where
    I: Service<Passed>,
    S: Contains<Request, Passed, I>,
    M: Copy,
{
    ghost inside = { λ k. S.inside k.inner };

    ghost goes = { S.goes };

    ghost projects = { composed_once _ _ _ (λ k. k.inner) S.inside S.goes (constant_projects _)
        S.projects };
}

impl<D: Discover, M: Copy> Discover for Constant<D, M> {
    type Key = D::Key;

    type Service = Constant<D::Service, M>;

    type Error = D::Error;

    ghost sound = { λ c. D.sound c.inner };

    ghost discovered = { Discovered D.discovered };

    ghost needs = { λ c. D.needs c.inner };

    ghost stirs = { λ old new. D.stirs old.inner new.inner };

    fn poll_discover(
        &mut self,
        cx: &mut Context<'_>,
    ) -> Poll<Option<Result<Change<D::Key, Constant<D::Service, M>>, D::Error>>> {
        match self.inner.poll_discover(cx) {
            Poll::Ready(Some(Ok(Change::Insert(key, service)))) => {
                let service = Constant::new(service, self.load);
                Poll::Ready(Some(Ok(Change::Insert(key, service))))
            }
            Poll::Ready(Some(Ok(Change::Remove(key)))) => {
                Poll::Ready(Some(Ok(Change::Remove(key))))
            }
            Poll::Ready(Some(Err(error))) => Poll::Ready(Some(Err(error))),
            Poll::Ready(None) => Poll::Ready(None),
            Poll::Pending => Poll::Pending,
        }
    }
}
