//! A service that a meter counts. The Rust's `tower` has none.
ghost use Rattle.std.specs.Prelude.{◌≡◌, None};
ghost use Rattle.tower_base.specs.ProjectionLemmas.{composed_once, forwards};
ghost use Rattle.tower_meter.specs.Metered.{MeteredView, MeterView, Polled, Called, IsClone};

mod future;
mod layer;

use crate::kinds::Kinds;
use crate::meter::Meter;
use crate::meter_core::{MeterCore, MeterStep};
pub use future::ResponseFuture;
use futures::task::{Context, Poll};
pub use layer::MeterLayer;
use std::alloc::AllocError;
use std::marker::Model;
use tower_base::run::Contains;
use tower_base::service::{Clock, Service};
use tower_latch::Latch;

/// A service that passes polls and calls on unchanged, and counts them at a meter.
///
/// A call is in flight until its answer, or until its response is dropped. The time of an answer begins
/// before the inner call. A time unready begins with the first poll of readiness that is pending, and ends
/// with the next that isn't: a caller that sheds load instead of waiting makes such times too. One that
/// hasn't ended isn't counted.
///
/// A call whose share of the meter is refused for want of memory passes too. It is among `uncounted`.
#[derive(Drop)]
pub struct Metered<S, L, C, K> {
    inner: S,
    latch: L,
    clock: C,
    kinds: K,
    // the moment of the first poll that found the inner service unready
    since: Option<u64>,
}

impl<S, L, C, K> Model for Metered<S, L, C, K> {
    ghost Value = { MeteredView S L C K };

    ghost view = { λ m. record {
      inner = m.inner;
      latch = m.latch;
      clock = m.clock;
      kinds = m.kinds;
      since = m.since;
    } };
}

impl<S, L, C, K> Metered<S, L, C, K> {
    /// Creates a service that is counted at this meter. Doesn't read the clock.
    pub fn new(inner: S, meter: Meter<L>, clock: C, kinds: K) -> Metered<S, L, C, K>
        ensures { result ≡ record {
          inner = inner;
          latch = meter.latch;
          clock = clock;
          kinds = kinds;
          since = None;
        } }
    {
        Metered {
            inner,
            latch: meter.into_latch(),
            clock,
            kinds,
            since: None,
        }
    }
}

impl<Request, S, L, C, K> Service<Request> for Metered<S, L, C, K>
where
    S: Service<Request>,
    L: Latch<MeterCore>,
    C: Clock,
    K: Kinds<S::Response, S::Error>,
{
    type Response = S::Response;

    type Error = S::Error;

    type Future = ResponseFuture<S::Future, L, C, K>;

    ghost sound = { λ m. S.sound m.inner × K.sound m.kinds };

    ghost ready = { λ m. S.ready m.inner };

    ghost polled = { Polled L.Latch C.Clock S.Service };

    ghost needs = { λ m. S.needs m.inner };

    ghost stirs = { λ old new. S.stirs old.inner new.inner };

    ghost called = { Called L.Latch C.Clock S.Service };

    ghost readies = { λ old new p. S.readies old.inner new.inner p.polled };

    fn poll_ready(&mut self, cx: &mut Context<'_>) -> Poll<Result<(), S::Error>> {
        let answer = self.inner.poll_ready(cx);
        match (&answer, self.since) {
            (Poll::Pending, None) => self.since = Some(self.clock.now()),
            (Poll::Ready(_), Some(since)) => {
                self.since = None;
                let nanos = self.clock.now().saturating_sub(since);
                let _reply = self.latch.step(MeterStep::Unready(nanos));
            }
            _ => {}
        }
        answer
    }

    fn call(&mut self, request: Request) -> Self::Future {
        let start = self.clock.now();
        let share = Meter::begin(&self.latch);
        let inner = self.inner.call(request);
        ResponseFuture::new(inner, share, self.clock.share(), self.kinds, start)
    }
}

/// A `Metered` contains what its inner service contains.
impl<Request, Passed, I, S, L, C, K> Contains<Request, Passed, I> for Metered<S, L, C, K>
where
    I: Service<Passed>,
    S: Contains<Request, Passed, I>,
    L: Latch<MeterCore>,
    C: Clock,
    K: Kinds<S::Response, S::Error>,
{
    ghost inside = { λ m. S.inside m.inner };

    ghost goes = { S.goes };

    ghost projects = { composed_once _ _ _ (λ m. m.inner) S.inside S.goes
        (forwards _ _ (λ m. m.inner) (λ _ _ answer p. (answer, p.polled))
        (λ _ _ _ future c. (future.inner, c.ready, c.called))) S.projects };
}

/// A clone shares the meter and the clock. No poll found it unready yet. Cloning fails if the latch refuses
/// its share.
impl<S: Clone + Drop, L: Latch<MeterCore>, C: Clock, K: Copy> Clone for Metered<S, L, C, K> {
    ghost is_clone = { IsClone L.Latch C.Clock S.is_clone };

    fn clone(&self) -> Result<Metered<S, L, C, K>, AllocError> {
        let inner = self.inner.clone()?;
        let latch = self.latch.share()?;
        Ok(Metered {
            inner,
            latch,
            clock: self.clock.share(),
            kinds: self.kinds,
            since: None,
        })
    }
}

impl<S, L, C, K> Metered<S, L, C, K> {
    ghost use Rattle.tower_meter.specs.MeteredLends.{LendsInner};
    ghost use Rattle.std.specs.Borrow.{sem};

    /// Returns a reference to the inner service.
    pub fn get_ref(&self) -> &S
        ensures { result.now ≡ self.now.inner }
    {
        &self.inner
    }

    /// Returns a mutable reference to the inner service. What passes there isn't counted.
    pub fn get_mut(&mut self) -> &mut S
        ensures* writes_back { sem 𝓛 (LendsInner S.row L.row C.row K.row self.entry result) }
        ensures value { result.now ≡ self.old.inner }
    {
        &mut self.inner
    }

    /// Returns the inner service and drops the share of the meter and the clock.
    pub fn into_inner(self) -> S
    where
        L: Drop,
        C: Drop,
        K: Drop,
        ensures { result ≡ self.inner }
    {
        self.inner
    }
}
