//! A service that tells what happens at it, for logs. The Rust's users take `tower_http::trace`.
ghost use Rattle.std.specs.Prelude.{◌≡◌, None};
ghost use Rattle.tower_base.specs.ProjectionLemmas.{composed_once, forwards};
ghost use Rattle.tower_meter.specs.Traced.{TracedView, Polled, Called, IsClone};

mod future;
mod layer;
mod trace;

pub use future::TracedFuture;
use futures::task::{Context, Poll};
pub use layer::TracedLayer;
use std::alloc::AllocError;
use std::marker::Model;
use tower_base::run::Contains;
use tower_base::service::{Clock, Service};
pub use trace::Trace;

/// A service that passes polls and calls on unchanged, and tells its `Trace` of each.
#[derive(Drop)]
pub struct Traced<S, C, N> {
    inner: S,
    clock: C,
    trace: N,
    // the moment of the first poll that found the inner service unready
    since: Option<u64>,
}

impl<S, C, N> Model for Traced<S, C, N> {
    ghost Value = { TracedView S C N };

    ghost view = { λ t. record {
      inner = t.inner;
      clock = t.clock;
      trace = t.trace;
      since = t.since;
    } };
}

impl<S, C, N> Traced<S, C, N> {
    /// Wraps the service. Neither reads the clock nor tells anything.
    pub fn new(inner: S, clock: C, trace: N) -> Traced<S, C, N>
        ensures { result
            ≡ record { inner = inner; clock = clock; trace = trace; since = None } }
    {
        Traced {
            inner,
            clock,
            trace,
            since: None,
        }
    }
}

impl<Request, S, C, N> Service<Request> for Traced<S, C, N>
where
    S: Service<Request>,
    C: Clock,
    N: Trace<Request, S::Response, S::Error>,
{
    type Response = S::Response;

    type Error = S::Error;

    type Future = TracedFuture<Request, S::Response, S::Error, S::Future, C, N>;

    ghost sound = { λ t. S.sound t.inner };

    ghost ready = { λ t. S.ready t.inner };

    ghost polled = { Polled S.Service C.Clock N.told };

    ghost needs = { λ t. S.needs t.inner };

    ghost stirs = { λ old new. S.stirs old.inner new.inner };

    ghost called = { Called S.Service C.Clock N.told };

    ghost readies = { λ old new p. S.readies old.inner new.inner p.polled };

    fn poll_ready(&mut self, cx: &mut Context<'_>) -> Poll<Result<(), S::Error>> {
        let answer = self.inner.poll_ready(cx);
        match (&answer, self.since) {
            (Poll::Pending, None) => self.since = Some(self.clock.now()),
            (Poll::Ready(_), Some(since)) => {
                self.since = None;
                let nanos = self.clock.now().saturating_sub(since);
                self.trace.on_unready(nanos);
            }
            _ => {}
        }
        answer
    }

    fn call(&mut self, request: Request) -> Self::Future {
        let start = self.clock.now();
        let span = self.trace.on_call(&request);
        let inner = self.inner.call(request);
        TracedFuture::new(inner, self.clock.share(), self.trace, span, start)
    }
}

/// A `Traced` contains what its inner service contains.
impl<Request, Passed, I, S, C, N> Contains<Request, Passed, I> for Traced<S, C, N>
where
    I: Service<Passed>,
    S: Contains<Request, Passed, I>,
    C: Clock,
    N: Trace<Request, S::Response, S::Error>,
{
    ghost inside = { λ t. S.inside t.inner };

    ghost goes = { S.goes };

    ghost projects = { composed_once _ _ _ (λ t. t.inner) S.inside S.goes
        (forwards _ _ (λ t. t.inner) (λ _ _ answer p. (answer, p.polled))
        (λ _ _ _ future c. (future.inner, c.ready, c.called))) S.projects };
}

/// A clone shares the clock. No poll found it unready yet.
impl<S: Clone + Drop, C: Clock, N: Copy> Clone for Traced<S, C, N> {
    ghost is_clone = { IsClone C.Clock S.is_clone };

    ghost is_infallible = { λ t. S.is_infallible t.inner };

    fn clone(&self) -> Result<Traced<S, C, N>, AllocError> {
        let inner = self.inner.clone()?;
        Ok(Traced::new(inner, self.clock.share(), self.trace))
    }
}

impl<S, C, N> Traced<S, C, N> {
    ghost use Rattle.tower_meter.specs.TracedLends.{LendsInner};
    ghost use Rattle.std.specs.Borrow.{sem};

    /// Returns a reference to the inner service.
    pub fn get_ref(&self) -> &S
        ensures { result.now ≡ self.now.inner }
    {
        &self.inner
    }

    /// Returns a mutable reference to the inner service. What passes there isn't told.
    pub fn get_mut(&mut self) -> &mut S
        ensures* writes_back { sem 𝓛 (LendsInner S.row C.row N.row self.entry result) }
        ensures value { result.now ≡ self.old.inner }
    {
        &mut self.inner
    }

    /// Returns the inner service and drops the clock.
    pub fn into_inner(self) -> S
    where
        C: Drop,
        N: Drop,
        ensures { result ≡ self.inner }
    {
        self.inner
    }
}
