//! Streams that call a service with each request of a stream: the Rust's `tower::util::call_all`.
ghost use Rattle.tower_ware.specs.CallAll.{CallAllFlowed, CallAllUnorderedFlowed};
ghost use Rattle.tower_ware.specs.CallOrder.{Calms, InAnyOrder, InOrder};

mod bag;
mod call_queue;
mod caller;
mod error;
mod line;
mod ordered;
mod slot;
mod unordered;

pub use error::Error;
pub use ordered::CallAll;
use tower_base::service::{Flow, Service};
pub use unordered::CallAllUnordered;

/// States the order of calls.
///
/// If a stream ends and no poll of the service's readiness returned an error, its items other than
/// `Memory` are one answer for each request. A `CallAll` yields them in the order of the requests, and a
/// `CallAllUnordered` in any order. The service was called with one request after another, each at a
/// ready value, in the order of the requests, the kept request first. This holds of the streams that
/// `new` and `unordered` return. If the service's readiness can't return an error, every run is of this
/// kind.
pub fn law<Svc: Service<S::Item>, S: Flow>()
    ensures ordered { (service : _) (requests : S) (kept : _) → InOrder Svc.Service S.Flow.own
        Svc.Future.Steps.own Svc.Future.can_poll service requests kept }
    ensures unordered { (service : _) (requests : S) (kept : _) → InAnyOrder Svc.Service S.Flow.own
        Svc.Future.Steps.own Svc.Future.can_poll service requests kept }
    ensures calm { Calms Svc.Service S.Flow.own Svc.Future.Steps.own Svc.Future.can_poll
        (λ s. CallAllFlowed s S.Flow.own Svc.Future.Steps.own Svc.Future.can_poll) }
    ensures calm_unordered { Calms Svc.Service S.Flow.own Svc.Future.Steps.own Svc.Future.can_poll
        (λ s. CallAllUnorderedFlowed s S.Flow.own Svc.Future.Steps.own Svc.Future.can_poll) }
{}
