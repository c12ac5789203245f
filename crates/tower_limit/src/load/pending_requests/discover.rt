//! A discovery of services whose pending requests are counted.
ghost use Rattle.std.specs.Prelude.{◌≡◌};
ghost use Rattle.tower_limit.specs.PendingRequests.{PendingRequestsDiscoverView, Discovered};

use crate::discover::{Change, Discover};
use crate::load::completion::CompleteOnResponse;
use crate::load::error::Error;
use crate::load::pending_requests::count_core::CountCore;
use crate::load::pending_requests::service::PendingRequests;
use futures::task::{Context, Poll};
use std::alloc::{AllocError, Global};
use std::marker::Model;
use std::sync::Wait;
use tower_latch::{Guarded, Latch};

/// Counts the pending requests of each service that is discovered: the Rust's
/// `tower::load::pending_requests::PendingRequestsDiscover`.
#[derive(Drop)]
pub struct PendingRequestsDiscover<D, R, C = CompleteOnResponse> {
    rt: R,
    alloc: Global,
    discover: D,
    completion: C,
    spare: Option<Spare<R>>,
}

// The count of the next service that is inserted. It isn't shared with any other service.
#[derive(Drop)]
struct Spare<R> {
    latch: Guarded<CountCore, R>,
    // This is what `is_first` of the latch states.
    ghost first: { latch.share ≡ 0 },
}

impl<R: Wait + Copy> Spare<R> {
    // Returns `spare`, or a new one if it is `None`.
    fn of(spare: Option<Spare<R>>, rt: R, alloc: Global) -> Result<Spare<R>, AllocError> {
        match spare {
            Some(spare) => Ok(spare),
            None => Ok(Spare {
                latch: Guarded::new(rt, alloc, CountCore::new())?,
            }),
        }
    }

    fn into_latch(self) -> Guarded<CountCore, R>
        ensures { result.share ≡ 0 }
    {
        self.latch
    }
}

impl<D, R, C> Model for PendingRequestsDiscover<D, R, C> {
    ghost Value = { PendingRequestsDiscoverView D C };

    // The view leaves out `rt`, `alloc` and `spare`: a spare only decides which poll allocates.
    ghost view = { λ p. record { discover = p.discover; completion = p.completion } };
}

impl<D, R, C> PendingRequestsDiscover<D, R, C> {
    /// Creates the discovery. It allocates nothing yet.
    pub fn new(rt: R, alloc: Global, discover: D, completion: C) -> Self
        ensures { result ≡ record { discover = discover; completion = completion } }
    {
        PendingRequestsDiscover {
            rt,
            alloc,
            discover,
            completion,
            spare: None,
        }
    }
}

/// A poll allocates the count of the next service before it polls the inner discovery. If allocation
/// fails, it returns `Memory` without polling the inner discovery, and the next poll tries again.
impl<D: Discover, R: Wait + Copy, C: Copy> Discover for PendingRequestsDiscover<D, R, C> {
    type Key = D::Key;

    type Service = PendingRequests<D::Service, Guarded<CountCore, R>, C>;

    type Error = Error<D::Error>;

    ghost sound = { λ p. D.sound p.discover };

    ghost discovered = { Discovered ⟦<Guarded<CountCore, R> as Latch<CountCore>>⟧.is_first
        D.discovered };

    ghost needs = { λ p. D.needs p.discover };

    ghost stirs = { λ old new. D.stirs old.discover new.discover };

    fn poll_discover(
        &mut self,
        cx: &mut Context<'_>,
    ) -> Poll<Option<Result<Change<Self::Key, Self::Service>, Self::Error>>> {
        let Ok(spare) = Spare::of(self.spare.take(), self.rt, self.alloc) else {
            return Poll::Ready(Some(Err(Error::Memory)));
        };
        let answer = match self.discover.poll_discover(cx) {
            Poll::Ready(Some(Ok(Change::Insert(key, service)))) => {
                let latch = spare.into_latch();
                let service = PendingRequests::with_latch(service, self.completion, latch);
                return Poll::Ready(Some(Ok(Change::Insert(key, service))));
            }
            Poll::Ready(Some(Ok(Change::Remove(key)))) => {
                Poll::Ready(Some(Ok(Change::Remove(key))))
            }
            Poll::Ready(Some(Err(error))) => Poll::Ready(Some(Err(Error::Inner(error)))),
            Poll::Ready(None) => Poll::Ready(None),
            Poll::Pending => Poll::Pending,
        };
        self.spare = Some(spare);
        answer
    }
}
