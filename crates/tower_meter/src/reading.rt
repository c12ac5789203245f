//! What a meter has counted.
ghost use Rattle.std.specs.Prelude.{◌≡◌, ◌≤◌, ◌+◌, ◌-◌, ◌*◌, ◌^◌, sum};

use crate::bounds::Bounds;
use crate::counters::{add_one, one_if};

/// How many kinds of answers there are. A kind past the last one counts as the last one.
pub const KINDS: usize = 16;

/// How many buckets of times there are, with the last one, which has no bound.
pub const BUCKETS: usize = 17;

/// What a meter has counted. Times are in nanoseconds.
#[derive(Clone, Copy, Debug, PartialEq, Eq)]
pub struct Reading {
    /// The calls that were counted.
    pub calls: u64,
    /// Those of them that were answered by `Ok`.
    pub ok: u64,
    /// Those that were answered by an error.
    pub err: u64,
    /// Those whose responses were dropped before an answer.
    pub dropped: u64,
    /// Those that have no answer yet.
    pub in_flight: u64,
    /// The most that were in flight at once.
    pub highest: u64,
    /// The answers, by kind.
    pub kinds: [u64; 16],
    /// The answers, by the time since the call.
    pub buckets: [u64; 17],
    /// The bounds of these buckets, with which the meter was made.
    pub bounds: Bounds,
    /// The sum of the times from call to answer.
    pub nanos: u128,
    /// How often polls found the service unready, each time until one found it ready or failed.
    pub unready: u64,
    /// The sum of the times of these, from the first such poll to the one that ended it.
    pub unready_nanos: u128,
    /// The calls that passed and are not among `calls`: their share of the meter was refused, or 2^64 - 1
    /// were counted.
    pub uncounted: u64,
    ghost balanced: { ok + err + dropped + in_flight ≡ calls },
    ghost kinds_sum: { sum kinds ≡ ok + err },
    ghost buckets_sum: { sum buckets ≡ ok + err },
    ghost bounded: { nanos ≤ (ok + err) * (2 ^ 64 - 1) },
    ghost unready_bounded: { unready_nanos ≤ unready * (2 ^ 64 - 1) },
}

impl Reading {
    ghost use Rattle.tower_meter.specs.declared.meter_core.MeterStep.TheVariants.{Call, Answer, Abandon, Unready, Uncounted};
    ghost use Rattle.tower_meter.specs.Tally.{Adds, Shows, most};
    ghost use Rattle.std.specs.Prelude.{◌<◌, []};

    /// Creates a reading of nothing.
    pub(crate) fn new(bounds: Bounds) -> Reading
        ensures shows { Shows result [] }
        ensures bounds { result.bounds ≡ bounds }
    {
        Reading {
            calls: 0,
            ok: 0,
            err: 0,
            dropped: 0,
            in_flight: 0,
            highest: 0,
            kinds: [0; 16],
            buckets: [0; 17],
            bounds,
            nanos: 0,
            unready: 0,
            unready_nanos: 0,
            uncounted: 0,
        }
    }

    /// Returns the number of answers, which the sums of `kinds` and of `buckets` are.
    pub fn answers(&self) -> u64
        ensures { result ≡ self.now.ok + self.now.err }
    {
        self.ok + self.err
    }

    #[inline(always)]
    pub(crate) fn begin(&mut self)
        requires { self.old.calls < most }
        ensures { Adds self.old Call self.new }
    {
        self.calls += 1;
        self.in_flight += 1;
        self.highest = self.highest.max(self.in_flight);
    }

    #[inline(always)]
    pub(crate) fn answer(&mut self, is_ok: bool, kind: u64, nanos: u64)
        requires { 0 < self.old.in_flight }
        ensures { Adds self.old (Answer is_ok kind nanos) self.new }
    {
        let bucket = self.bounds.bucket(nanos);
        let place = kind.min(15) as usize;
        self.in_flight -= 1;
        let one = one_if(is_ok);
        self.ok += one;
        self.err += 1 - one;
        add_one(&mut self.kinds, place);
        add_one(&mut self.buckets, bucket);
        self.nanos += nanos as u128;
    }

    #[inline(always)]
    pub(crate) fn abandon(&mut self)
        requires { 0 < self.old.in_flight }
        ensures { Adds self.old Abandon self.new }
    {
        self.in_flight -= 1;
        self.dropped += 1;
    }

    #[inline(always)]
    pub(crate) fn unready(&mut self, nanos: u64)
        requires { self.old.unready < most }
        ensures { Adds self.old (Unready nanos) self.new }
    {
        self.unready += 1;
        self.unready_nanos += nanos as u128;
    }

    #[inline(always)]
    pub(crate) fn pass(&mut self)
        requires { self.old.uncounted < most }
        ensures { Adds self.old Uncounted self.new }
    {
        self.uncounted += 1;
    }
}
