//! The core of a histogram.
ghost use Rattle.std.specs.Prelude.{◌≢◌};

use crate::hedge::rotating_histogram::steps::{HistoReply, HistoStep};
use crate::hedge::rotating_histogram::tally::Tally;
use std::alloc::Global;
use std::mem;
use tower_base::service::Fraction;
use tower_latch::{Core, Wakes};

/// The latencies that are read in the present period, and those that are read in the next one.
#[derive(Drop)]
pub struct HistoCore {
    made: u64,
    period: u64,
    present: u64,
    read: Tally,
    written: Tally,
    ghost lasts: { period ≢ 0 },
}

impl HistoCore {
    ghost use Rattle.std.specs.Prelude.{◌<◌, IsTrue, ◌↔◌};
    ghost use Rattle.tower_latch.specs.Latch.{FollowsMachine};
    ghost use Rattle.tower_limit.specs.Histogram.{Steps, initial, rotated};
    ghost use Rattle.tower_limit.specs.declared.hedge.rotating_histogram.steps.HistoStep.TheVariants.{Record, Seed, Points, Quantile};
    ghost use Rattle.tower_limit.specs.declared.hedge.rotating_histogram.steps.HistoReply.TheVariants.{Count, Millis};
    ghost use Rattle.tower_limit.specs.HistoCore.{Changes, Opens, StandsFor};

    /// Creates a histogram without latencies at the given moment. Times are in nanoseconds. Requires a
    /// positive period, which `fits` tests.
    pub fn new(alloc: Global, period: u64, moment: u64) -> HistoCore
        requires { period ≢ 0 }
        ensures made { StandsFor result (initial moment period) }
        ensures opens { Opens result }
    {
        HistoCore {
            made: moment,
            period,
            present: 0,
            read: Tally::new(alloc),
            written: Tally::new(alloc),
        }
    }

    /// Returns whether the period is positive, as `new` requires.
    pub fn fits(period: u64) -> bool
        ensures { IsTrue result ↔ (period ≢ 0) }
    {
        period != 0
    }

    #[inline(always)]
    fn rotate(&mut self, moment: u64)
        ensures { Changes (λ h. rotated h moment) self.old self.new }
    {
        let period = moment.saturating_sub(self.made) / self.period;
        if period > self.present {
            self.move_to(period);
        }
    }

    // What was written in the period before this one is read now.
    #[inline(never)]
    fn move_to(&mut self, period: u64)
        requires { self.old.present < period }
        ensures { Changes (λ h. record h { present = period }) self.old self.new }
    {
        let is_next = period - self.present == 1;
        self.present = period;
        if is_next {
            mem::swap(&mut self.read, &mut self.written);
            self.written.clear();
            return;
        }
        self.read.clear();
        self.written.clear();
    }

    fn record(&mut self, moment: u64, millis: u64) -> HistoReply
        ensures { FollowsMachine StandsFor Steps self.old (Record moment millis) result self.new }
    {
        self.rotate(moment);
        self.written.add(millis)
    }

    fn seed(&mut self, moment: u64, millis: u64) -> HistoReply
        ensures { FollowsMachine StandsFor Steps self.old (Seed moment millis) result self.new }
    {
        self.rotate(moment);
        self.read.add(millis)
    }

    fn points(&mut self, moment: u64) -> u64
        ensures { FollowsMachine StandsFor Steps self.old (Points moment) (Count result) self.new }
    {
        self.rotate(moment);
        self.read.total()
    }

    #[inline(never)]
    fn quantile(&mut self, moment: u64, part: Fraction) -> u64
        ensures { FollowsMachine StandsFor Steps self.old (Quantile moment part)
            (Millis result) self.new }
    {
        self.rotate(moment);
        self.read.quantile(part)
    }
}

impl Core for HistoCore {
    type Step = HistoStep;

    type Reply = HistoReply;

    type Terms = u64;

    ghost use Rattle.std.specs.Prelude.{false};
    ghost use Rattle.tower_latch.specs.Latch.{StepsAs};
    ghost use Rattle.tower_limit.specs.Histogram.{Steps};
    ghost use Rattle.tower_limit.specs.HistoCore.{Opens, StandsFor};
    ghost use Rattle.tower_latch.specs.LatchLemmas.{none_held, no_places};
    ghost use Rattle.tower_limit.specs.HistoCoreTerms.{keeps_period};

    ghost opens = { Opens };

    ghost steps = { StepsAs StandsFor Steps };

    ghost is_wait = { λ _. false };

    // The period.
    ghost terms = { λ core. core.period };

    ghost starts = { none_held _ };

    ghost counts = { no_places _ _ keeps_period };

    #[inline(always)]
    fn step(&mut self, step: HistoStep) -> (HistoReply, Wakes) {
        match step {
            HistoStep::Record(moment, millis) => (self.record(moment, millis), Wakes::Nobody),
            HistoStep::Seed(moment, millis) => (self.seed(moment, millis), Wakes::Nobody),
            HistoStep::Points(moment) => (HistoReply::Count(self.points(moment)), Wakes::Nobody),
            HistoStep::Quantile(moment, part) => (
                HistoReply::Millis(self.quantile(moment, part)),
                Wakes::Nobody,
            ),
        }
    }

    fn terms(&self) -> u64 {
        self.period
    }
}
