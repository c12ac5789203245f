//! The law of `Timeout`.
ghost use Rattle.tower_laws.specs.Timeout.{AnswersInTime};

use tower_base::service::{Clock, Service};

/// For each poll of a response, up to its answer: an inner answer is returned in the poll in which it
/// came, an error as `Inner`. If the inner response is pending, the clock is read; the answer is `Elapsed`
/// if that reading is at or past the reading of the call plus the duration, and otherwise the poll is
/// pending.
pub fn law<Request, S: Service<Request>, C: Clock>()
    ensures { AnswersInTime S.Service S.Future.Steps.own C.Clock }
{}
