//! The law of `Latency`.
ghost use Rattle.tower_laws.specs.Latency.{RecordsLatency};

use tower_base::service::{Clock, Service};
use tower_retry::hedge::latency::Record;

/// For each response: its answer is the inner one, in the poll in which that came. After `Ok` the time
/// since the reading of the call is recorded, once, unless the clone of the recorder was refused at the
/// call. Then nothing is recorded, nor is it after an error, and the clock isn't read.
pub fn law<Request, R: Record + Clone, S: Service<Request>, C: Clock>()
    ensures { RecordsLatency S.Service S.Future.Steps.own R.Clone R.Record C.Clock }
{}
