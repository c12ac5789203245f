//! The constructors of `Hedge`.
ghost use Rattle.std.specs.Prelude.{◌≢◌, IfOk, []};
ghost use Rattle.tower_retry.specs.HedgeMade.{Made, NewAt, NewFrom};

use crate::hedge::Hedge;
use crate::hedge::delay::Delay;
use crate::hedge::flat::Flat;
use crate::hedge::latency::Latency;
use crate::hedge::policies::{DelayPolicy, SelectPolicy};
use crate::hedge::predicate::PolicyPredicate;
use crate::hedge::rotating_histogram::{HistoCore, RotatingHistogram};
use crate::hedge::select::Select;
use std::alloc::{AllocError, Global};
use std::sync::Wait;
use tower_base::service::{Clock, Fraction};
use tower_latch::{Guarded, Latch};
use tower_ware::filter::AsyncFilter;

impl<S, P, R, C> Hedge<S, P, Guarded<HistoCore, R>, C>
where
    S: Clone + Drop,
    P: Clone + Drop,
    R: Wait + Copy,
    C: Clock,
{
    /// Creates a `Hedge`. If the policy allows it, a request is made again after the quantile `percentile`
    /// of the latencies of the `period` (in nanoseconds) before the present one, if these are at least
    /// `min_data_points`. Requires that `period` is positive, which `RotatingHistogram::fits` tests. Reads
    /// the clock once.
    ///
    /// Returns an error and drops its arguments if allocation fails.
    pub fn new(
        rt: R,
        alloc: Global,
        service: S,
        policy: P,
        min_data_points: u64,
        percentile: Fraction,
        period: u64,
        mut clock: C,
    ) -> Result<Self, AllocError>
        requires { period ≢ 0 }
        ensures { IfOk result
            (λ hedge. NewAt S.is_clone P.is_clone ⟦<Guarded<HistoCore, R> as Latch<HistoCore>>⟧.gave
            ⟦<Guarded<HistoCore, R> as Latch<HistoCore>>⟧.shares C.Clock
            ⟦<Guarded<HistoCore, R> as Latch<HistoCore>>⟧.terms []
            service policy min_data_points percentile period clock hedge) }
    {
        let core = HistoCore::new(alloc, period, clock.now());
        let latch = Guarded::new(rt, alloc, core)?;
        Hedge::with_latch(latch, service, policy, min_data_points, percentile, clock)
    }

    /// Creates a `Hedge` as `new` does, with latencies in milliseconds that are known in the first
    /// period; one without memory is left out. Reads the clock once, and then once for each latency.
    pub fn new_with_mock_latencies(
        rt: R,
        alloc: Global,
        service: S,
        policy: P,
        min_data_points: u64,
        percentile: Fraction,
        period: u64,
        mut clock: C,
        latencies_ms: &[u64],
    ) -> Result<Self, AllocError>
        requires { period ≢ 0 }
        ensures { IfOk result
            (λ hedge. NewAt S.is_clone P.is_clone ⟦<Guarded<HistoCore, R> as Latch<HistoCore>>⟧.gave
            ⟦<Guarded<HistoCore, R> as Latch<HistoCore>>⟧.shares C.Clock
            ⟦<Guarded<HistoCore, R> as Latch<HistoCore>>⟧.terms latencies_ms.now service policy
            min_data_points percentile period clock hedge) }
    {
        let core = HistoCore::new(alloc, period, clock.now());
        let latch = Guarded::new(rt, alloc, core)?;
        Hedge::with_latch_and_mock_latencies(
            latch,
            service,
            policy,
            min_data_points,
            percentile,
            clock,
            latencies_ms,
        )
    }
}

impl<S, P, L, C> Hedge<S, P, L, C>
where
    S: Clone + Drop,
    P: Clone + Drop,
    L: Latch<HistoCore>,
    C: Clock,
{
    /// Creates a `Hedge` as `new` does, over the given latch. Doesn't read the clock.
    pub fn with_latch(
        latch: L,
        service: S,
        policy: P,
        min_data_points: u64,
        percentile: Fraction,
        clock: C,
    ) -> Result<Self, AllocError>
        ensures { IfOk result (λ hedge. NewFrom S.is_clone P.is_clone L.gave L.shares C.Clock []
            latch service policy min_data_points percentile clock hedge) }
    {
        let histogram = RotatingHistogram::with_latch(latch, clock.share());
        Hedge::with_histogram(
            histogram,
            service,
            policy,
            min_data_points,
            percentile,
            clock,
        )
    }

    /// Creates a `Hedge` as `new_with_mock_latencies` does, over the given latch. Reads the clock once
    /// for each latency.
    pub fn with_latch_and_mock_latencies(
        latch: L,
        service: S,
        policy: P,
        min_data_points: u64,
        percentile: Fraction,
        clock: C,
        latencies_ms: &[u64],
    ) -> Result<Self, AllocError>
        ensures { IfOk result (λ hedge. NewFrom S.is_clone P.is_clone L.gave L.shares C.Clock
            latencies_ms.now latch service policy min_data_points percentile clock hedge) }
    {
        let mut histogram = RotatingHistogram::with_latch(latch, clock.share());
        histogram.seed_all(latencies_ms);
        Hedge::with_histogram(
            histogram,
            service,
            policy,
            min_data_points,
            percentile,
            clock,
        )
    }

    fn with_histogram(
        histogram: RotatingHistogram<L, C>,
        service: S,
        policy: P,
        min_data_points: u64,
        percentile: Fraction,
        clock: C,
    ) -> Result<Self, AllocError>
        ensures { IfOk result (λ hedge. Made S.is_clone P.is_clone L.gave L.shares C.Clock histogram
            service policy min_data_points percentile clock hedge) }
    {
        let first = Latency::new(histogram.clone()?, service.clone()?, clock.share());
        let second = Latency::new(histogram.clone()?, service, clock.share());
        let filtered = AsyncFilter::new(second, PolicyPredicate::new(policy.clone()?));
        let delay_policy = DelayPolicy::new(histogram.clone()?, percentile);
        let delayed = Delay::new(delay_policy, filtered, clock.share());
        let select_policy = SelectPolicy::new(policy, histogram, min_data_points);
        Ok(Flat::of(Select::new(select_policy, first, delayed)))
    }
}
