//! The law of `LoadShed`.
ghost use Rattle.tower_base.specs.ServiceRun.{relations};
ghost use Rattle.tower_laws.specs.LoadShed.{AnswersOrSheds, CallsReachIfReady};

use tower_base::service::Service;
use tower_ware::load_shed::LoadShed;

/// For each run from `new` on: a call reaches the service, once and with its request, exactly if the
/// last poll before it found the service ready and no call came since. A call that reaches it is answered
/// as the service answers it, and one that doesn't is answered `Overloaded`.
pub fn law<Request: Drop, S: Service<Request>>()
    ensures calls { CallsReachIfReady (relations ⟦<LoadShed<S> as Service<Request>>⟧) S.Service }
    ensures answers { AnswersOrSheds S.Future.Steps.own }
{}
