//! The law of `Select`.
ghost use Rattle.tower_laws.specs.Select.{GivesFirstElseSecond};

use tower_base::service::Service;

/// For each response: its answer is the first call's if that has one in the poll, and otherwise the
/// second's. Neither call had an answer in an earlier poll.
pub fn law<Request, A: Service<Request>, B: Service<Request, Response = A::Response>>()
    ensures { GivesFirstElseSecond A.Future.Steps.own B.Future.Steps.own }
{}
