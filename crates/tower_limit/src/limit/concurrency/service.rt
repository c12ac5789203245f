//! A service with a limit on the calls in flight.
ghost use Rattle.std.specs.Prelude.{◌≡◌, ◌⊎◌, IfErr, IfOk, IsSome, Err, MatchResult};
ghost use Rattle.tower_limit.specs.Concurrency.{ConcurrencyLimitView, Needs, Polled, Stirs, Called, IsClone, New, initial};
ghost use Rattle.tower_limit.specs.ConcurrencyReady.{ready_after};
ghost use Rattle.tower_base.specs.ServiceRun.{relations};
ghost use Rattle.tower_base.specs.Projection.{Once, Projects};
ghost use Rattle.tower_base.specs.ProjectionLemmas.{composed_once};
ghost use Rattle.tower_limit.specs.Projections.{concurrency_limit};

use crate::limit::concurrency::error::{Error, outward};
use crate::limit::concurrency::future::ResponseFuture;
use crate::limit::concurrency::line_core::LineCore;
use crate::limit::concurrency::semaphore::{Permit, PollSemaphore, Semaphore};
use crate::load::Load;
use futures::task::{Context, Poll};
use std::alloc::{AllocError, Global};
use std::marker::Model;
use std::sync::Wait;
use tower_base::run::Contains;
use tower_base::service::Service;
use tower_latch::{Guarded, Latch};

/// Makes a call only with a permit of its semaphore: the Rust's `tower::limit::ConcurrencyLimit`.
///
/// `poll_ready` acquires the permit. The call moves it into the response future, which gives it back
/// when it is dropped. A `ConcurrencyLimit` that is dropped while it waits leaves the line, and so
/// passes on a permit that it hasn't seen.
#[derive(Drop)]
pub struct ConcurrencyLimit<S, L: Latch<LineCore>> {
    inner: S,
    asking: PollSemaphore<L>,
    permit: Option<Permit<L>>,
}

impl<S, L: Latch<LineCore>> Model for ConcurrencyLimit<S, L> {
    ghost Value = { ConcurrencyLimitView S L };

    ghost view = { λ c. record { inner = c.inner; asking = c.asking; permit = c.permit } };
}

impl<S: Drop, R: Wait + Copy> ConcurrencyLimit<S, Guarded<LineCore, R>> {
    /// Creates a service with at most `max` calls in flight. Returns `AllocError` and drops `inner` if
    /// allocation fails.
    pub fn new(rt: R, alloc: Global, inner: S, max: usize) -> Result<Self, AllocError>
        ensures { IfOk result
            (λ made. New ⟦<Guarded<LineCore, R> as Latch<LineCore>>⟧.terms inner max made) }
    {
        let semaphore = Semaphore::new(rt, alloc, max)?;
        Ok(ConcurrencyLimit::with_semaphore(inner, semaphore))
    }
}

impl<S, L: Latch<LineCore>> ConcurrencyLimit<S, L> {
    /// Creates a service over the caller's semaphore. Its calls in flight are counted together with
    /// those of the semaphore's other shares.
    pub fn with_semaphore(inner: S, semaphore: Semaphore<L>) -> ConcurrencyLimit<S, L>
        ensures { result ≡ initial inner semaphore }
    {
        ConcurrencyLimit {
            inner,
            asking: PollSemaphore::new(semaphore),
            permit: None,
        }
    }
}

impl<Request, S: Service<Request>, L: Latch<LineCore>> Service<Request> for ConcurrencyLimit<S, L> {
    type Response = S::Response;

    type Error = Error<S::Error>;

    type Future = ResponseFuture<S::Future, L>;

    ghost sound = { λ v. S.sound v.inner };

    ghost ready = { λ v. IsSome v.permit × S.ready v.inner };

    ghost polled = { Polled L.Latch S.Service };

    ghost needs = { Needs S.needs L.source };

    ghost stirs = { Stirs L.Latch L.stirs S.stirs };

    ghost called = { Called S.Service };

    ghost readies = { λ old new p. ready_after _ old new S.readies p };

    #[inline(always)]
    fn poll_ready(&mut self, cx: &mut Context<'_>) -> Poll<Result<(), Self::Error>> {
        if let Some(_held) = &self.permit {
            return outward(self.inner.poll_ready(cx));
        }
        match self.asking.poll_acquire(cx) {
            Poll::Ready(Ok(permit)) => {
                self.permit = Some(permit);
                outward(self.inner.poll_ready(cx))
            }
            Poll::Ready(Err(AllocError)) => Poll::Ready(Err(Error::Memory)),
            Poll::Pending => Poll::Pending,
        }
    }

    fn call(&mut self, request: Request) -> Self::Future {
        ResponseFuture::new(self.inner.call(request), self.permit.take())
    }
}

/// States that each call makes one call of the inner service, with the same request.
pub fn projection<Request, S: Service<Request>, L: Latch<LineCore>>()
    ensures { Projects (relations ⟦<ConcurrencyLimit<S, L> as Service<Request>>⟧)
        (relations S.Service) (λ l. l.inner) Once }
{}

/// A `ConcurrencyLimit` contains what its inner service contains.
impl<Request, Passed, I, S, L> Contains<Request, Passed, I> for ConcurrencyLimit<S, L>
where
    I: Service<Passed>,
    S: Contains<Request, Passed, I>,
    L: Latch<LineCore>,
{
    ghost inside = { λ l. S.inside l.inner };

    ghost goes = { S.goes };

    ghost projects = { composed_once _ _ _ (λ l. l.inner) S.inside S.goes (concurrency_limit _ _)
        S.projects };
}

/// A clone shares the semaphore. It holds no permit and doesn't wait. Cloning fails if the inner
/// service's clone does, or if the latch refuses its share.
impl<S: Clone, L: Latch<LineCore>> Clone for ConcurrencyLimit<S, L> {
    ghost is_clone = { IsClone L.Latch S.is_clone };

    fn clone(&self) -> Result<ConcurrencyLimit<S, L>, AllocError>
        ensures cases { MatchResult result (IsClone L.Latch S.is_clone self.now) (λ _. ¬ ⊥) }
        ensures refused { IfErr result (λ e. (¬ (S.is_infallible self.now.inner))
            ⊎ L.shares self.now.asking.semaphore.latch (Err e)) }
    {
        let inner = self.inner.clone()?;
        let semaphore = self.asking.share()?;
        Ok(ConcurrencyLimit::with_semaphore(inner, semaphore))
    }
}

/// The load is that of the inner service.
impl<S: Load, L: Latch<LineCore>> Load for ConcurrencyLimit<S, L> {
    type Metric = S::Metric;

    ghost loaded = { λ c metric. S.loaded c.inner metric };

    fn load(&self) -> S::Metric {
        self.inner.load()
    }
}

impl<S, L: Latch<LineCore>> ConcurrencyLimit<S, L> {
    ghost use Rattle.tower_limit.specs.ConcurrencyLends.{LendsInner};
    ghost use Rattle.std.specs.Borrow.{sem};

    /// Returns the inner service.
    pub fn get_ref(&self) -> &S
        ensures { result.now ≡ self.now.inner }
    {
        &self.inner
    }

    /// Returns the inner service as a mutable reference.
    pub fn get_mut(&mut self) -> &mut S
        ensures* writes_back { sem 𝓛 (LendsInner S.row L.row L.Latch self.entry result) }
        ensures value { result.now ≡ self.old.inner }
    {
        &mut self.inner
    }

    /// Returns the inner service. A permit that is held is given back, and a wait is cancelled.
    pub fn into_inner(self) -> S
        ensures { result ≡ self.inner }
    {
        self.inner
    }
}
