//! The law of `Balance`.
ghost use Rattle.tower_base.specs.ServiceRun.{relations};
ghost use Rattle.tower_laws.specs.Balance.{CallsReachKept, EndpointsCame, KeepsChosen};
ghost use Rattle.tower_pool.specs.Balance.{view_of};

use std::hash::Hash;
use tower_base::service::Service;
use tower_base::util::rng::Rng;
use tower_limit::discover::Discover;
use tower_limit::load::Load;
use tower_pool::balance::p2c::Balance;

/// States that a call after a poll that returned `Ok` reaches the endpoint at the kept index, which that
/// poll found ready, and that each poll keeps the index that was kept before or chooses one: that of the
/// only ready endpoint, or, of two that are drawn by the balancer's generator, the first's if its load is
/// at most the second's, and otherwise the second's.
///
/// States of each run of a new balancer that each of its endpoints came from an `Insert` that the discovery
/// reported, after which it reported no `Remove` of the endpoint's key.
pub fn law<K, S, X, D, R, Q>()
where
    K: Eq + Hash + Clone + Drop,
    S: Service<Q> + Load,
    X: Drop,
    D: Discover<Key = K, Service = S, Error = X>,
    R: Rng,
    ensures calls { CallsReachKept (relations ⟦<Balance<D, R, Q> as Service<Q>>⟧)
        view_of K.eq S.Service S.loaded S.Metric.partial_cmp R.drew D.discovered }
    ensures chosen { KeepsChosen (relations ⟦<Balance<D, R, Q> as Service<Q>>⟧)
        view_of K.eq S.Service S.loaded S.Metric.partial_cmp R.drew D.discovered }
    ensures endpoints { EndpointsCame (relations ⟦<Balance<D, R, Q> as Service<Q>>⟧)
        view_of K.eq S.Service S.loaded S.Metric.partial_cmp R.drew D.discovered }
{}
