//! The law of `Retry`: how many calls it makes.
ghost use Rattle.tower_laws.specs.Retry.{AnswersCountCalls};

use tower_base::service::Service;
use tower_retry::retry::Policy;

/// States that at the answer of a response the calls inside are one more than the policy's decisions to
/// retry, or as many if the answer is the error of readiness after the last wait.
///
/// The call itself makes the first, and a run of the clone of the service in the future makes just the
/// requests of the later attempts. If a clone of the policy or of the service was refused at the call, there
/// are none, and the answer is `Memory`.
pub fn law<P: Policy<Q, S::Response, S::Error> + Clone, S: Service<Q> + Clone, Q>()
    ensures { AnswersCountCalls S.Service S.Future.stepped P.Policy P.Future.stepped
        P.Clone S.Clone }
{}
