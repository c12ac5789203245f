//! The law of `Filter`.
ghost use Rattle.tower_base.specs.ServiceRun.{relations};
ghost use Rattle.tower_laws.specs.Filter.{RunsLetThrough};

use tower_base::service::Service;
use tower_ware::filter::{Filter, Predicate};

/// For each run: the predicate checks each request once, in the order of the calls, and the service
/// gets just what it lets through, each request once and in that order. The answer of a request that it
/// refuses is its error.
pub fn law<R, P, S: Service<P>, U: Predicate<R, Request = P>>()
    ensures { RunsLetThrough (relations ⟦<Filter<S, U> as Service<R>>⟧)
        S.Service S.Future.Steps.own U.Predicate }
{}
