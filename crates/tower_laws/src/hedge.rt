//! The law of `Hedge`.
ghost use Rattle.tower_laws.specs.Hedge.{HedgesOnce};

use tower_base::service::{Clock, Service, Steps};
use tower_latch::Latch;
use tower_retry::hedge::rotating_histogram::HistoCore;
use tower_retry::hedge::{Hedge, Policy};

/// For each response: it makes at most two calls. The second has a copy of the request, which the
/// policy made while enough latencies were known, and which a clone of the policy allows. It goes to a
/// clone of the service that is ready, after the delay that the histogram named, if the first had no answer
/// before. While the second side has no answer, there is no copy, or the delay isn't over, the clone isn't
/// ready, the copy isn't allowed or the call is pending.
///
/// The answer is that of the side that answers first, and the first side's if both do in the same poll. An
/// error of the clone's readiness after the delay, or `Memory`, counts as the second side's answer.
pub fn law<Request, S, P, L, C>()
where
    Request: Drop,
    S: Service<Request> + Clone,
    P: Policy<Request> + Clone,
    L: Latch<HistoCore>,
    C: Clock,
    ensures { HedgesOnce S.Service S.Future.stepped P.Policy P.is_clone S.is_clone L.gave C.Clock
        ⟦<Hedge<S, P, L, C> as Service<Request>>⟧.called
        ⟦<<Hedge<S, P, L, C> as Service<Request>>::Future as Steps>⟧.stepped }
{}
