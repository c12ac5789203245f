//! How long responses took lately: the Rust's `tower::hedge::rotating_histogram`.
ghost use Rattle.std.specs.Prelude.{◌≡◌, ◌≢◌, Err, IfErr, IfOk, IsTrue, MatchResult, ◌↔◌};
ghost use Rattle.tower_limit.specs.RotatingHistogram.{RotatingHistogramView, Recorded, Seeded, SeededAll, Counted, Ranked, IsClone, millis_of};

mod histo_core;
mod steps;
mod tally;

use crate::hedge::Record;
pub use histo_core::HistoCore;
use std::alloc::{AllocError, Global};
use std::marker::Model;
use std::sync::Wait;
pub use steps::{HistoReply, HistoStep};
use tower_base::service::{Clock, Fraction};
use tower_latch::{Guarded, Latch};

/// A record of how long responses took in the period before the present one: the Rust's
/// `tower::hedge::rotating_histogram::RotatingHistogram`. Its clones share one core.
///
/// A recorded latency is read in the next period. It is left out if allocation fails, or if that period
/// is full. Latencies are kept in whole milliseconds.
#[derive(Drop)]
pub struct RotatingHistogram<L: Latch<HistoCore>, C> {
    latch: L,
    clock: C,
}

impl<L: Latch<HistoCore>, C> Model for RotatingHistogram<L, C> {
    ghost Value = { RotatingHistogramView L C };

    ghost view = { λ h. record { latch = h.latch; clock = h.clock } };
}

impl<R: Wait + Copy, C: Clock> RotatingHistogram<Guarded<HistoCore, R>, C> {
    /// Creates a histogram with a period in nanoseconds. Requires what `fits` tests. Reads the clock
    /// once. Returns `AllocError` and drops the clock if allocation fails.
    pub fn new(rt: R, alloc: Global, period: u64, mut clock: C) -> Result<Self, AllocError>
        requires { period ≢ 0 }
        ensures clock { IfOk result (λ histogram. C.read clock histogram.clock) }
        ensures period { IfOk result (λ histogram.
            ⟦<Guarded<HistoCore, R> as Latch<HistoCore>>⟧.terms histogram.latch ≡ period) }
    {
        let core = HistoCore::new(alloc, period, clock.now());
        let latch = Guarded::new(rt, alloc, core)?;
        Ok(RotatingHistogram { latch, clock })
    }

    /// Returns whether the period is positive, as `new` requires.
    pub fn fits(period: u64) -> bool
        ensures { IsTrue result ↔ (period ≢ 0) }
    {
        HistoCore::fits(period)
    }
}

impl<L: Latch<HistoCore>, C: Clock> RotatingHistogram<L, C> {
    /// Creates a histogram over the caller's latch. It doesn't read the clock.
    pub fn with_latch(latch: L, clock: C) -> RotatingHistogram<L, C>
        ensures { result ≡ record { latch = latch; clock = clock } }
    {
        RotatingHistogram { latch, clock }
    }

    /// Adds a latency in milliseconds, which is read in the present period. It is left out if allocation
    /// fails or the period is full.
    pub fn seed(&mut self, millis: u64)
        ensures { Seeded L.gave C.Clock self.old millis self.new }
    {
        let moment = self.clock.now();
        let _reply = self.latch.step(HistoStep::Seed(moment, millis));
    }

    /// Adds latencies in milliseconds, one after another, which are read in the present period.
    pub fn seed_all(&mut self, latencies: &[u64])
        ensures { SeededAll L.gave C.Clock self.old latencies.now self.new }
    {
        for millis in latencies {
            self.seed(*millis);
        }
    }

    /// Returns how many latencies are read in the present period.
    pub fn points(&mut self) -> u64
        ensures { Counted L.gave C.Clock self.old result self.new }
    {
        let moment = self.clock.now();
        match self.latch.step(HistoStep::Points(moment)) {
            HistoReply::Count(count) => count,
            _ => unreachable!(),
        }
    }

    /// Returns the milliseconds that this fraction of the latencies read in the present period is at or
    /// below, or 0 if there are none.
    pub fn quantile(&mut self, part: Fraction) -> u64
        ensures { Ranked L.gave C.Clock self.old part result self.new }
    {
        let moment = self.clock.now();
        match self.latch.step(HistoStep::Quantile(moment, part)) {
            HistoReply::Millis(millis) => millis,
            _ => unreachable!(),
        }
    }
}

impl<L: Latch<HistoCore>, C: Clock> Record for RotatingHistogram<L, C> {
    ghost recorded = { Recorded L.gave C.Clock };

    fn record(&mut self, latency: u64) {
        let moment = self.clock.now();
        let _reply = self.latch.step(HistoStep::Record(moment, millis(latency)));
    }
}

/// A clone shares the core and the clock. Cloning fails if the latch refuses its share.
impl<L: Latch<HistoCore>, C: Clock> Clone for RotatingHistogram<L, C> {
    ghost is_clone = { IsClone L.gave L.shares C.Clock };

    fn clone(&self) -> Result<RotatingHistogram<L, C>, AllocError>
        ensures cases { MatchResult result (IsClone L.gave L.shares C.Clock self.now) (λ _. ¬ ⊥) }
        ensures refused { IfErr result (λ e. L.shares self.now.latch (Err e)) }
    {
        let latch = self.latch.share()?;
        Ok(RotatingHistogram {
            latch,
            clock: self.clock.share(),
        })
    }
}

fn millis(nanos: u64) -> u64
    ensures { result ≡ millis_of nanos }
{
    nanos.div_ceil(1_000_000)
}
