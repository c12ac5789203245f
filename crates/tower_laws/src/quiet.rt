//! Why a poll of a stack may ask for another poll. The Rust has no such module.
ghost use Rattle.std.specs.Prelude.{◌⊎◌};
ghost use Rattle.tower_laws.specs.Quiet.{AddsNone, LeafStirs};

use tower_base::service::{Clock, Service, Steps};
use tower_latch::Latch;
use tower_limit::limit::concurrency::{ConcurrencyLimit, LineCore};
use tower_limit::limit::rate::RateLimit;
use tower_ware::load_shed::LoadShed;
use tower_ware::timeout::Timeout;

/// States that if a poll of a stack leaves its task woken, it was woken before, or one of the leaves that
/// were polled in it may ask for another poll. (Clause `quiet` of a poll says that it has a cause in
/// `stirs`.)
///
/// A `Timeout` and a `LoadShed` have no cause of their own. In a stack of both over a concurrency limit over
/// a rate limit the leaves are the limit's latch, the rate's clock and the inner service. Those of a
/// response under a timeout are the inner response and the timeout's clock.
pub fn law<Request, S, C, D, L>()
where
    Request: Drop,
    S: Service<Request>,
    C: Clock,
    D: Clock,
    L: Latch<LineCore>,
    ensures timeout { AddsNone ⟦<Timeout<S, D> as Service<Request>>⟧.stirs S.stirs (λ t. t.inner) }
    ensures shed { AddsNone ⟦<LoadShed<S> as Service<Request>>⟧.stirs S.stirs (λ shed. shed.inner) }
    ensures stack { (old new : _)
        → ⟦<Timeout<LoadShed<ConcurrencyLimit<RateLimit<S, C>, L>>, D> as Service<Request>>⟧.stirs
        old new
        → LeafStirs L.Latch L.stirs C.stirs S.stirs old.inner.inner new.inner.inner }
    ensures response { (old new : _)
        → ⟦<<Timeout<S, D> as Service<Request>>::Future as Steps>⟧.stirs old new
        → S.Future.stirs old.response new.response ⊎ D.stirs new.clock }
{}
