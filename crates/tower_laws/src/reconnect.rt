//! The law of `Reconnect`.
ghost use Rattle.std.specs.Prelude.{◌≡◌, None};
ghost use Rattle.tower_base.specs.ServiceRun.{ServiceRun, relations};
ghost use Rattle.tower_laws.specs.Reconnect.{NextCallFails, OnlyLastFails, RepliesGive};
ghost use Rattle.tower_ware.specs.Reconnect.{view_of};

use tower_base::service::Service;
use tower_ware::reconnect::Reconnect;

/// For each run that begins without an error, as a new `Reconnect` does: the next call after a failed
/// connect returns its error, unless a later connect failed before that call, and no other call does. Every
/// other call goes, once, to the connection that is there.
pub fn law<Request, M, S, Target>()
where
    M: Service<Target, Response = S>,
    S: Service<Request>,
    Request: Drop,
    Target: Clone + Drop,
    ensures calls { (old new : _) (run : _)
        (runs : ServiceRun (relations ⟦<Reconnect<M, Target> as Service<Request>>⟧) old run new)
        → (view_of old).error ≡ None → NextCallFails M.Service M.Future.Steps.own S.Service
        Target.Clone view_of None old run new runs }
    ensures polls { OnlyLastFails M.Service M.Future.Steps.own S.Service Target.Clone }
    ensures answers { RepliesGive S.Future.Steps.own M.Error }
{}
