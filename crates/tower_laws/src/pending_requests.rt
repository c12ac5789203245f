//! The law of `PendingRequests`.
ghost use Rattle.tower_laws.specs.PendingRequests.{LoadIsPending, LoadsArePending, LoadsInHistory};

use tower_latch::Latch;
use tower_limit::load::pending_requests::CountCore;

/// States that the load is the number of requests that were counted less the number of those that are done:
/// in every run from a new count, for each load that a `PendingRequests` reads, and for each load in the
/// history of a count that ran under a log.
pub fn law<S, L: Latch<CountCore>, C>()
    ensures runs { LoadIsPending }
    ensures loads { (pending : _) → LoadsArePending {S = S} {L = L} {C = C} L.Latch pending }
    ensures history { LoadsInHistory }
{}
