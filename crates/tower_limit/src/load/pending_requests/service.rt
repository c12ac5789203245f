//! A service whose pending requests are counted.
ghost use Rattle.std.specs.Prelude.{◌≡◌, IfOk};
ghost use Rattle.tower_limit.specs.PendingRequests.{PendingRequestsView, New, Loaded, Polled, Called};
ghost use Rattle.tower_base.specs.ServiceRun.{relations};
ghost use Rattle.tower_base.specs.Projection.{Once, Projects};
ghost use Rattle.tower_base.specs.ProjectionLemmas.{composed_once};
ghost use Rattle.tower_limit.specs.Projections.{pending_requests};

use crate::load::Load;
use crate::load::completion::{CompleteOnResponse, TrackCompletion, TrackCompletionFuture};
use crate::load::pending_requests::count::Count;
use crate::load::pending_requests::count_core::{CountCore, CountReply, CountStep};
use crate::load::pending_requests::handle::Handle;
use futures::task::{Context, Poll};
use std::alloc::{AllocError, Global};
use std::marker::Model;
use std::sync::Wait;
use tower_base::run::Contains;
use tower_base::service::Service;
use tower_latch::{Guarded, Latch};

/// A service whose load is the number of its pending requests: the Rust's
/// `tower::load::pending_requests::PendingRequests`.
///
/// A request is pending from its call until the handle that is passed to its completion is dropped, or, if
/// it gets no response, until its future is dropped.
#[derive(Drop)]
pub struct PendingRequests<S, L, C = CompleteOnResponse> {
    service: S,
    latch: L,
    completion: C,
}

impl<S, L, C> Model for PendingRequests<S, L, C> {
    ghost Value = { PendingRequestsView S L C };

    ghost view = { λ p. record {
      service = p.service;
      latch = p.latch;
      completion = p.completion;
    } };
}

impl<S: Drop, R: Wait + Copy, C: Drop> PendingRequests<S, Guarded<CountCore, R>, C> {
    /// Creates a service with no pending requests. Returns `AllocError` and drops `service` if
    /// allocation fails.
    pub fn new(rt: R, alloc: Global, service: S, completion: C) -> Result<Self, AllocError>
        ensures { IfOk result (λ made. New ⟦<Guarded<CountCore, R> as Latch<CountCore>>⟧.is_first
            service completion made) }
    {
        let latch = Guarded::new(rt, alloc, CountCore::new())?;
        Ok(PendingRequests::with_latch(service, completion, latch))
    }
}

impl<S, L, C> PendingRequests<S, L, C> {
    /// Creates a service that counts its requests at the caller's latch.
    pub fn with_latch(service: S, completion: C, latch: L) -> PendingRequests<S, L, C>
        ensures { result ≡ record { service = service; latch = latch; completion = completion } }
    {
        PendingRequests {
            service,
            latch,
            completion,
        }
    }
}

/// The load is read by one step at the latch.
impl<S, L: Latch<CountCore>, C> Load for PendingRequests<S, L, C> {
    type Metric = Count;

    ghost loaded = { Loaded L.Latch };

    fn load(&self) -> Count {
        match self.latch.step(CountStep::Load) {
            CountReply::Count(number) => Count::new(number),
            _ => unreachable!(),
        }
    }
}

impl<Request, S, L, C> Service<Request> for PendingRequests<S, L, C>
where
    S: Service<Request>,
    L: Latch<CountCore>,
    C: TrackCompletion<Handle<L>, S::Response>,
{
    type Response = C::Output;

    type Error = S::Error;

    type Future = TrackCompletionFuture<S::Future, C, Handle<L>>;

    ghost sound = { λ p. S.sound p.service × C.sound p.completion };

    ghost ready = { λ p. S.ready p.service };

    ghost polled = { Polled L.Latch S.Service };

    ghost needs = { λ p. S.needs p.service };

    ghost stirs = { λ old new. S.stirs old.service new.service };

    ghost called = { Called L.Latch S.Service };

    ghost readies = { λ old new p. S.readies old.service new.service p.polled };

    fn poll_ready(&mut self, cx: &mut Context<'_>) -> Poll<Result<(), S::Error>> {
        self.service.poll_ready(cx)
    }

    fn call(&mut self, request: Request) -> Self::Future {
        let handle = Handle::take(&self.latch);
        TrackCompletionFuture::new(self.completion, handle, self.service.call(request))
    }
}

/// States that each call makes one call of the inner service, with the same request.
pub fn projection<Request, S, L, C>()
where
    S: Service<Request>,
    L: Latch<CountCore>,
    C: TrackCompletion<Handle<L>, S::Response>,
    ensures { Projects (relations ⟦<PendingRequests<S, L, C> as Service<Request>>⟧)
        (relations S.Service) (λ p. p.service) Once }
{}

/// A `PendingRequests` contains what its inner service contains.
impl<Request, Passed, I, S, L, C> Contains<Request, Passed, I> for PendingRequests<S, L, C>
where
    I: Service<Passed>,
    S: Contains<Request, Passed, I>,
    L: Latch<CountCore>,
    C: TrackCompletion<Handle<L>, S::Response>,
{
    ghost inside = { λ p. S.inside p.service };

    ghost goes = { S.goes };

    ghost projects = { composed_once _ _ _ (λ p. p.service) S.inside S.goes (pending_requests _ _)
        S.projects };
}
