//! The law of `Delay`.
ghost use Rattle.tower_laws.specs.Delay.{CallsAfterDelay};

use tower_base::service::{Clock, Service};
use tower_retry::hedge::delay::Policy;

/// For each response: it makes at most one call, of a clone of the service, once that is ready, in or
/// after the first poll whose reading is at or past the reading of the call plus the delay that the policy
/// named. It makes none if the clone's readiness fails. If no clone was made, it returns `Memory`.
pub fn law<Request: Drop, P: Policy<Request>, S: Service<Request> + Clone, C: Clock>()
    ensures { CallsAfterDelay S.Service S.Future.stepped P.Policy S.Clone C.Clock }
{}
