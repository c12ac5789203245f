//! Records of how long responses take: the Rust's `tower::hedge::latency`.
ghost use Rattle.std.specs.Prelude.{◌≡◌};
ghost use Rattle.tower_base.specs.ProjectionLemmas.{composed_once};
ghost use Rattle.tower_retry.specs.Latency.{LatencyView, Polled, Called, IsClone};
ghost use Rattle.tower_retry.specs.Projections.{latency};

mod future;

pub use future::ResponseFuture;
use futures::task::{Context, Poll};
use std::alloc::AllocError;
use std::marker::Model;
use tower_base::run::Contains;
use tower_base::service::{Clock, Service};
pub use tower_limit::hedge::Record;

/// A service that records how long each response takes: the Rust's `tower::hedge::latency::Latency`.
///
/// The time of a response begins before the inner call, and ends with its `Ok`. Responses that are
/// errors aren't recorded. The clock is passed to the constructor.
#[derive(Drop)]
pub struct Latency<R, S, C> {
    rec: R,
    service: S,
    clock: C,
}

impl<R, S, C> Model for Latency<R, S, C> {
    ghost Value = { LatencyView R S C };

    ghost view = { λ l. record { rec = l.rec; service = l.service; clock = l.clock } };
}

impl<R, S, C> Latency<R, S, C> {
    /// Creates a `Latency`. Each call clones `rec`. Doesn't read the clock.
    pub fn new(rec: R, service: S, clock: C) -> Latency<R, S, C>
        ensures { result ≡ record { rec = rec; service = service; clock = clock } }
    {
        Latency {
            rec,
            service,
            clock,
        }
    }
}

impl<Request, R, S, C> Service<Request> for Latency<R, S, C>
where
    R: Record + Clone,
    S: Service<Request>,
    C: Clock,
{
    type Response = S::Response;

    type Error = S::Error;

    type Future = ResponseFuture<R, S::Future, C>;

    // A clone of a sound recorder is sound.
    ghost sound = { λ l. R.sound l.rec × S.sound l.service
        × ((x y : R) → R.is_clone x y → R.sound x → R.sound y) };

    ghost ready = { λ l. S.ready l.service };

    ghost polled = { Polled S.Service };

    ghost needs = { λ l. S.needs l.service };

    ghost stirs = { λ old new. S.stirs old.service new.service };

    ghost called = { Called S.Service R.Clone C.Clock };

    ghost readies = { λ old new p. S.readies old.service new.service p.polled };

    fn poll_ready(&mut self, cx: &mut Context<'_>) -> Poll<Result<(), Self::Error>> {
        self.service.poll_ready(cx)
    }

    /// Calls the inner service. If allocating a clone of the recorder fails, the response isn't recorded.
    fn call(&mut self, request: Request) -> Self::Future {
        let start = self.clock.now();
        let rec = self.rec.clone().ok();
        let inner = self.service.call(request);
        ResponseFuture::new(start, rec, inner, self.clock.share())
    }
}

/// A `Latency` contains what its service contains.
impl<Q, P, R: Record + Clone, S: Contains<Q, P, L>, C: Clock, L: Service<P>> Contains<Q, P, L>
    for Latency<R, S, C> {
    ghost inside = { λ l. S.inside l.service };

    ghost goes = { S.goes };

    ghost projects = { composed_once _ _ _ (λ l. l.service)
        S.inside S.goes (latency _ R.Clone C.Clock) S.projects };
}

/// A clone shares the clock.
impl<R: Clone + Drop, S: Clone + Drop, C: Clock> Clone for Latency<R, S, C> {
    ghost is_clone = { IsClone R.is_clone S.is_clone C.Clock };

    ghost is_infallible = { λ l. R.is_infallible l.rec × S.is_infallible l.service };

    fn clone(&self) -> Result<Latency<R, S, C>, AllocError> {
        let rec = self.rec.clone()?;
        let service = self.service.clone()?;
        Ok(Latency::new(rec, service, self.clock.share()))
    }
}
