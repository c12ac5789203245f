//! The law of `AsyncFilter`.
ghost use Rattle.tower_laws.specs.AsyncFilter.{ChecksFirst};

use tower_base::service::Service;
use tower_ware::filter::AsyncPredicate;

/// For each response: it makes at most one call, of the service that was polled, with what its check
/// returned, in the poll in which the check ends. It makes none if the check refuses the request. If no
/// clone of the service was made, it makes none and returns `Memory`, and the predicate wasn't called.
pub fn law<R: Drop, P, S: Service<P> + Clone, U: AsyncPredicate<R, Request = P>>()
    ensures { ChecksFirst S.Service S.Future.Steps.own U.Future.Steps.own S.Clone U.AsyncPredicate }
{}
