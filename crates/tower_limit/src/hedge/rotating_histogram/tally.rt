//! The latencies of one period.
ghost use Rattle.std.specs.Ordering.{nat_cmp};
ghost use Rattle.std.specs.Prelude.{◌≡◌};
ghost use Rattle.std.specs.List.{sum};
ghost use Rattle.std.specs.BTreeMap.{IsOrdered, values};
ghost use Rattle.std.proofs.Props.{props};

use crate::hedge::rotating_histogram::steps::HistoReply;
use std::alloc::Global;
use std::collections::BTreeMap;
use tower_base::service::Fraction;

/// How often each number of milliseconds was added, and how many latencies there are in all.
#[derive(Drop)]
pub(crate) struct Tally {
    counts: BTreeMap<u64, u64>,
    total: u64,
    ghost ordered: { IsOrdered nat_cmp counts } by { Prim.hlevel props },
    ghost summed: { total ≡ sum (values counts) },
}

impl Tally {
    ghost use Rattle.std.specs.Prelude.{◌≢◌, ◌-◌, ◌≤◌, [], slice_index_or};
    ghost use Rattle.tower_limit.specs.HistoCore.{Adds, flat};
    ghost use Rattle.tower_limit.specs.Histogram.{rank};

    pub(crate) fn new(alloc: Global) -> Tally
        ensures { result.counts.entries ≡ [] }
    {
        Tally {
            counts: BTreeMap::new(alloc),
            total: 0,
        }
    }

    pub(crate) fn total(&self) -> u64
        ensures { result ≡ self.now.total }
    {
        self.total
    }

    pub(crate) fn clear(&mut self)
        ensures { self.new.counts.entries ≡ [] }
    {
        self.counts.clear();
        self.total = 0;
    }

    /// Adds a latency. Returns `Full` if no more can be counted, and `Memory` if there is no room for a
    /// number that wasn't added before.
    pub(crate) fn add(&mut self, millis: u64) -> HistoReply
        ensures { Adds self.old millis result self.new }
    {
        if self.total == u64::MAX {
            return HistoReply::Full;
        }
        if let Some(count) = self.counts.get_mut(&millis) {
            *count += 1;
            self.total += 1;
            return HistoReply::Done;
        }
        let Ok(_) = self.counts.insert(millis, 1) else {
            return HistoReply::Memory;
        };
        self.total += 1;
        HistoReply::Done
    }

    /// Returns the latency at the rank that `part` gives, in milliseconds, or 0 if there are no
    /// latencies.
    pub(crate) fn quantile(&self, part: Fraction) -> u64
        ensures { result
            ≡ slice_index_or (flat self.now.counts.entries) (rank self.now.total part - 1) 0 }
    {
        if self.total == 0 {
            return 0;
        }
        self.ranked(self.rank(part))
    }

    fn rank(&self, part: Fraction) -> u64
        requires { self.now.total ≢ 0 }
        ensures rank { result ≡ rank self.now.total part }
        ensures some { 1 ≤ result }
    {
        let wanted = self.total as u128 * part.numerator as u128;
        let number = wanted.div_ceil(part.divisor as u128);
        number.min(self.total as u128).max(1) as u64
    }

    #[tactic(auto, using(crate::proofs::HistogramLemmas::at_repeated, crate::proofs::HistogramLemmas::past_repeated))]
    fn ranked(&self, rank: u64) -> u64
        requires { 1 ≤ rank }
        ensures { result ≡ slice_index_or (flat self.now.counts.entries) (rank - 1) 0 }
    {
        let mut left = rank;
        for (millis, count) in self.counts.iter() {
            if left <= *count {
                return *millis;
            }
            left -= *count;
        }
        0
    }
}
