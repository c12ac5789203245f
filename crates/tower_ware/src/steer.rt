//! A service that chooses one of many services for each request: the Rust's `tower::steer`.
ghost use Rattle.std.specs.Prelude.{◌≡◌, ◌<◌, ◌≤◌, [], All, IfOk, length};
ghost use Rattle.std.specs.VecDeque.{deque_capacity};
ghost use Rattle.tower_ware.specs.Steer.{Called, Fits, IsClone, Needs, Polled, Sound, SteerView, Stirs, upto};
ghost use Rattle.tower_ware.specs.SteerReady.{polled_ok};
ghost use Rattle.tower_ware.specs.Projections.{service_at};
ghost use Rattle.tower_base.specs.ServiceRun.{relations};
ghost use Rattle.tower_base.specs.Projection.{AtMostOnce, Projects};

mod picker;

use futures::task::{Context, Poll};
pub use picker::{Picker, PickerFn};
use std::alloc::{AllocError, Global};
use std::collections::VecDeque;
use std::marker::{Model, PhantomData};
use tower_base::service::Service;

/// A service that calls the service that its picker chooses: the Rust's `tower::steer::Steer`.
///
/// It is ready if all its services are. A poll of readiness polls those that aren't known to be ready,
/// front of the list first, and stops at the first that is pending or fails. The next poll begins with
/// that one. A clone polls all its services anew.
#[derive(Drop)]
pub struct Steer<S, F, Req> {
    picker: F,
    services: Vec<S>,
    listed: VecDeque<usize>,
    of: PhantomData<Req>,
}

impl<S, F, Req> Model for Steer<S, F, Req> {
    ghost Value = { SteerView S F };

    ghost view = { λ m. record {
      picker = m.picker;
      services = m.services.items;
      listed = m.listed.items;
      room = deque_capacity m.listed;
    } };

    ghost invariant = { λ m. Fits m.services.items m.listed.items (deque_capacity m.listed) };
}

impl<S: Service<Req>, F: Picker<S, Req>, Req> Steer<S, F, Req> {
    /// Creates a `Steer`, which at first has to poll all the services. Requires at least one service.
    ///
    /// Returns an error and drops the services and the picker if allocating the list of services to poll
    /// fails.
    pub fn new(alloc: Global, services: Vec<S>, picker: F) -> Result<Steer<S, F, Req>, AllocError>
        requires { 0 < length services.items }
        ensures parts { IfOk result (λ m. (m.picker ≡ picker) × (m.services ≡ services.items)
            × (m.listed ≡ upto (length services.items))) }
        ensures sound { F.sound picker → All S.sound services.items
            → IfOk result (Sound F.sound S.sound S.ready) }
    {
        let listed = all_indexes(alloc, services.len())?;
        Ok(Steer {
            picker,
            services,
            listed,
            of: PhantomData,
        })
    }
}

impl<S: Service<Req>, F: Picker<S, Req>, Req> Service<Req> for Steer<S, F, Req> {
    type Response = S::Response;

    type Error = S::Error;

    type Future = S::Future;

    ghost sound = { Sound F.sound S.sound S.ready };

    ghost ready = { λ m. m.listed ≡ [] };

    ghost polled = { Polled S.Service };

    ghost needs = { Needs S.needs };

    ghost stirs = { Stirs S.polled S.stirs };

    ghost called = { Called S.Service F.Picker };

    ghost readies = { λ old new p. polled_ok old new p };

    #[tactic(auto, using(crate::proofs::SteerLemmas::heard_front))]
    fn poll_ready(&mut self, cx: &mut Context<'_>) -> Poll<Result<(), S::Error>> {
        while let Some(front) = self.listed.front() {
            let index = *front;
            match self.services[index].poll_ready(cx) {
                Poll::Ready(Ok(())) => {
                    let _ = self.listed.pop_front();
                }
                stop => return stop,
            }
        }
        Poll::Ready(Ok(()))
    }

    fn call(&mut self, request: Req) -> S::Future {
        let index = self.picker.pick(&request, self.services.as_slice());
        self.listed.push_back_reserved(index);
        self.services[index].call(request)
    }
}

/// States for each of the services that each call makes at most one call of it, with the same request.
pub fn projection<S: Service<Req>, F: Picker<S, Req>, Req>()
    ensures { (index : _) (other : S) → Projects (relations ⟦<Steer<S, F, Req> as Service<Req>>⟧)
        (relations S.Service) (service_at index other) AtMostOnce }
{}

impl<S: Clone, F: Clone, Req> Clone for Steer<S, F, Req> {
    ghost is_clone = { IsClone F.is_clone S.is_clone };

    fn clone(&self) -> Result<Steer<S, F, Req>, AllocError> {
        let picker = self.picker.clone()?;
        let services = self.services.clone()?;
        let listed = all_indexes(*services.allocator(), services.len())?;
        Ok(Steer {
            picker,
            services,
            listed,
            of: PhantomData,
        })
    }
}

// Returns all indexes below `count`, in a list that has room for `count` indexes.
fn all_indexes(alloc: Global, count: usize) -> Result<VecDeque<usize>, AllocError>
    ensures { IfOk result
        (λ listed. (listed.items ≡ upto count) × (count ≤ deque_capacity listed)) }
{
    let mut listed = VecDeque::with_capacity(alloc, count)?;
    for index in 0..count {
        listed.push_back_reserved(index);
    }
    Ok(listed)
}
