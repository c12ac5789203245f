//! The laws of every `Retry` and of its futures.
ghost use Rattle.std.specs.Prelude.{Some};
ghost use Rattle.tower_base.specs.Projection.{Once, Projects, RunInside};
ghost use Rattle.tower_base.specs.ServiceRun.{relations};
ghost use Rattle.tower_retry.specs.Retry.{Stepped};
ghost use Rattle.tower_retry.specs.RetryAttempts.{GivesAnswers};

use crate::retry::{Policy, Retry};
use tower_base::service::Service;

/// States that whatever the future of a call returns, over all its polls, is the answer of a list of
/// attempts.
///
/// Each attempt is a request, its result and the policy's decision. After every attempt but the last, a
/// wait ended, and then the service was ready. The answer is the last result as the policy left it, an
/// error of readiness after a wait, or `Memory` if cloning failed.
pub fn law<P: Policy<Q, S::Response, S::Error> + Clone, S: Service<Q> + Clone, Q>()
    ensures attempts { GivesAnswers S.Service S.Future.stepped P.Policy P.Future.stepped
        P.Clone S.Clone }
{}

/// States that each call makes exactly one call of the inner service, with the same request. The future
/// makes retries at the clone that it holds: each of its polls is a run of that clone.
pub fn projection<P: Policy<Q, S::Response, S::Error> + Clone, S: Service<Q> + Clone, Q: Drop>()
    ensures inside { Projects (relations ⟦<Retry<P, S> as Service<Q>>⟧) (relations S.Service)
        (λ r. r.service) Once }
    ensures future { (old new : _) (answer : _)
        → Stepped S.Service S.Future.stepped P.Policy P.Future.stepped (Some old) answer (Some new)
        → RunInside (relations S.Service) (λ _. Unit {0}) old.service new.service }
{}
