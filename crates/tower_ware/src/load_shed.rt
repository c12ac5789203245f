//! Middleware that refuses a call if the inner service isn't ready: the Rust's `tower::load_shed`.
ghost use Rattle.std.specs.Prelude.{◌≡◌, true, false, Result};
ghost use Rattle.tower_ware.specs.LoadShed.{Called, IsClone, IsReady, LoadShedView, Polled, initial};
ghost use Rattle.tower_ware.specs.declared.load_shed.error.Error.{Error as ShedError};
ghost use Rattle.tower_ware.specs.LoadShedReady.{ready_after};
ghost use Rattle.tower_base.specs.ServiceRun.{relations};
ghost use Rattle.tower_base.specs.Projection.{AtMostOnce, Projects, Through};
ghost use Rattle.tower_base.specs.ProjectionLemmas.{composed};
ghost use Rattle.tower_ware.specs.Projections.{load_shed as load_shed_projects};

pub mod error;
pub mod future;
mod layer;

pub use error::Error;
use future::ResponseFuture;
use futures::task::{Context, Poll};
pub use layer::LoadShedLayer;
use std::alloc::AllocError;
use std::marker::Model;
use tower_base::run::Contains;
use tower_base::service::Service;

/// A service that may always be called, and returns `Overloaded` if the inner service wasn't ready: the Rust's
/// `tower::load_shed::LoadShed`.
///
/// An error of the inner service's readiness is returned, and the inner service then counts as not ready.
#[derive(Drop)]
pub struct LoadShed<S> {
    inner: S,
    is_ready: bool,
}

impl<S> Model for LoadShed<S> {
    ghost Value = { LoadShedView S };

    ghost view = { λ s. record { inner = s.inner; is_ready = s.is_ready } };
}

impl<S> LoadShed<S> {
    /// Creates a `LoadShed`. The inner service counts as not ready until a poll of its readiness returns
    /// `Ok`.
    pub fn new(inner: S) -> LoadShed<S>
        ensures { result ≡ initial inner }
    {
        LoadShed {
            inner,
            is_ready: false,
        }
    }
}

impl<S: Service<Request>, Request: Drop> Service<Request> for LoadShed<S> {
    type Response = S::Response;

    type Error = Error<S::Error>;

    type Future = ResponseFuture<S::Future>;

    ghost sound = { λ s. S.sound s.inner };

    // If the flag is set, the inner service is ready.
    ghost ready = { IsReady S.Service };

    ghost polled = { Polled S.Service };

    // The inner service may ask for another poll even if the `LoadShed` returns `Ok` in place of pending.
    ghost stirs = { λ old new. S.stirs old.inner new.inner };

    ghost called = { Called S.Service };

    ghost readies = { λ old new p. ready_after S.readies old _ new p };

    fn poll_ready(&mut self, cx: &mut Context<'_>) -> Poll<Result<(), Error<S::Error>>> {
        self.is_ready = false;
        match self.inner.poll_ready(cx) {
            Poll::Ready(Ok(())) => {
                self.is_ready = true;
                Poll::Ready(Ok(()))
            }
            Poll::Ready(Err(error)) => Poll::Ready(Err(Error::Inner(error))),
            Poll::Pending => Poll::Ready(Ok(())),
        }
    }

    fn call(&mut self, request: Request) -> ResponseFuture<S::Future> {
        if self.is_ready {
            self.is_ready = false;
            ResponseFuture::called(self.inner.call(request))
        } else {
            ResponseFuture::overloaded()
        }
    }
}

/// States that the inner service gets some of the calls, in their order: those that aren't shed.
pub fn projection<Request: Drop, S: Service<Request>>()
    ensures { Projects (relations ⟦<LoadShed<S> as Service<Request>>⟧) (relations S.Service)
        (λ l. l.inner) AtMostOnce }
{}

/// A `LoadShed` contains what its inner service contains.
impl<Request, Passed, L, S> Contains<Request, Passed, L> for LoadShed<S>
where
    Request: Drop,
    L: Service<Passed>,
    S: Contains<Request, Passed, L>,
{
    ghost inside = { λ l. S.inside l.inner };

    ghost goes = { Through AtMostOnce S.goes };

    ghost projects = { composed _ _ _ (λ l. l.inner)
        S.inside AtMostOnce S.goes (load_shed_projects _) S.projects };
}

// It isn't known whether the clone of the inner service is ready.
impl<S: Clone> Clone for LoadShed<S> {
    ghost is_clone = { IsClone S.is_clone };

    ghost is_infallible = { λ l. S.is_infallible l.inner };

    fn clone(&self) -> Result<LoadShed<S>, AllocError> {
        Ok(LoadShed::new(self.inner.clone()?))
    }
}

/// States that a `LoadShed` may be called at any time: when it is new, when it is a clone, after each
/// poll of readiness, whatever that returns, and after each call.
pub fn law<S: Service<Request> + Clone, Request: Drop>()
    ensures new { (inner : S) → IsReady S.Service (initial inner) }
    ensures clone { (old clone : LoadShedView S) → IsClone S.is_clone old clone
        → IsReady S.Service clone }
    ensures polled { (old : LoadShedView S) (answer : Poll (Result (Unit {0}) (ShedError S.Error)))
        (new : LoadShedView S) → Polled S.Service old answer new → IsReady S.Service new }
    ensures called { (old : LoadShedView S) (request : Request) (future : _) (new : LoadShedView S)
        → Called S.Service old request future new → IsReady S.Service new }
{}
