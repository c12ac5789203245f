//! A limit on the time that a response may take: the Rust's `tower::timeout`.
ghost use Rattle.std.specs.Prelude.{◌≡◌};
ghost use Rattle.tower_base.specs.AnswersLemmas.{answered_ok};
ghost use Rattle.tower_ware.specs.declared.timeout.error.Error.TheVariants.{Inner};
ghost use Rattle.tower_ware.specs.Timeout.{Called, IsClone, Polled, TimeoutView};
ghost use Rattle.tower_base.specs.ServiceRun.{relations};
ghost use Rattle.tower_base.specs.Projection.{Once, Projects};
ghost use Rattle.tower_base.specs.ProjectionLemmas.{composed_once};
ghost use Rattle.tower_ware.specs.Projections.{timeout as timeout_projects};

pub mod error;
pub mod future;
mod layer;

pub use error::Error;
use future::ResponseFuture;
use futures::task::{Context, Poll};
pub use layer::TimeoutLayer;
use std::alloc::AllocError;
use std::marker::Model;
use tower_base::run::Contains;
use tower_base::service::{Clock, Service};

/// A service that returns `Elapsed` if a response takes too long: the Rust's `tower::timeout::Timeout`.
///
/// The time of a response begins at its call. The clock is passed to the constructor.
#[derive(Drop)]
pub struct Timeout<S, C> {
    inner: S,
    duration: u64,
    clock: C,
}

impl<S, C> Model for Timeout<S, C> {
    ghost Value = { TimeoutView S C };

    ghost view = { λ t. record { inner = t.inner; duration = t.duration; clock = t.clock } };
}

impl<S, C> Timeout<S, C> {
    /// Creates a `Timeout`. The duration is in nanoseconds. Doesn't read the clock.
    pub fn new(inner: S, duration: u64, clock: C) -> Timeout<S, C>
        ensures { result ≡ record { inner = inner; duration = duration; clock = clock } }
    {
        Timeout {
            inner,
            duration,
            clock,
        }
    }
}

impl<Request, S: Service<Request>, C: Clock> Service<Request> for Timeout<S, C> {
    type Response = S::Response;

    type Error = Error<S::Error>;

    type Future = ResponseFuture<S::Future, C>;

    ghost sound = { λ v. S.sound v.inner };

    ghost ready = { λ v. S.ready v.inner };

    ghost polled = { Polled S.Service C.Clock };

    ghost needs = { λ v. S.needs v.inner };

    ghost stirs = { λ old new. S.stirs old.inner new.inner };

    ghost called = { Called S.Service C.Clock };

    ghost readies = { λ old new p. S.readies old.inner new.inner
        (let e = answered_ok Inner p.inner tt p.answers in Prim.rw e at p.polled) };

    fn poll_ready(&mut self, cx: &mut Context<'_>) -> Poll<Result<(), Self::Error>> {
        match self.inner.poll_ready(cx) {
            Poll::Ready(Ok(())) => Poll::Ready(Ok(())),
            Poll::Ready(Err(error)) => Poll::Ready(Err(Error::Inner(error))),
            Poll::Pending => Poll::Pending,
        }
    }

    fn call(&mut self, request: Request) -> Self::Future {
        let response = self.inner.call(request);
        let moment = self.clock.now();
        let deadline = moment as u128 + self.duration as u128;
        ResponseFuture::new(response, deadline, self.clock.share())
    }
}

/// States that each call makes exactly one call of the inner service, with the same request.
pub fn projection<Request, S: Service<Request>, C: Clock>()
    ensures { Projects (relations ⟦<Timeout<S, C> as Service<Request>>⟧) (relations S.Service)
        (λ t. t.inner) Once }
{}

/// A `Timeout` contains what its inner service contains.
impl<Request, Passed, L, S, C> Contains<Request, Passed, L> for Timeout<S, C>
where
    L: Service<Passed>,
    S: Contains<Request, Passed, L>,
    C: Clock,
{
    ghost inside = { λ t. S.inside t.inner };

    ghost goes = { S.goes };

    ghost projects = { composed_once _ _ _ (λ t. t.inner) S.inside S.goes (timeout_projects _ _)
        S.projects };
}

/// A clone shares the clock.
impl<S: Clone, C: Clock> Clone for Timeout<S, C> {
    ghost is_clone = { IsClone C.Clock S.is_clone };

    ghost is_infallible = { λ t. S.is_infallible t.inner };

    fn clone(&self) -> Result<Timeout<S, C>, AllocError> {
        let inner = self.inner.clone()?;
        Ok(Timeout::new(inner, self.duration, self.clock.share()))
    }
}

impl<S, C> Timeout<S, C> {
    ghost use Rattle.tower_ware.specs.TimeoutLends.{LendsInner};
    ghost use Rattle.std.specs.Borrow.{sem};

    /// Returns a reference to the inner service.
    pub fn get_ref(&self) -> &S
        ensures { result.now ≡ self.now.inner }
    {
        &self.inner
    }

    /// Returns a mutable reference to the inner service.
    pub fn get_mut(&mut self) -> &mut S
        ensures* writes_back { sem 𝓛 (LendsInner S.row C.row self.entry result) }
        ensures value { result.now ≡ self.old.inner }
    {
        &mut self.inner
    }

    /// Returns the inner service and drops the clock.
    pub fn into_inner(self) -> S
    where
        C: Drop,
        ensures { result ≡ self.inner }
    {
        self.inner
    }
}
