//! The core of a meter.
ghost use Rattle.std.specs.Prelude.{◌≡◌, false};
ghost use Rattle.tower_meter.specs.MeterCore.{Follows, Opens};

use crate::bounds::Bounds;
use crate::reading::Reading;
use tower_latch::{Core, Wakes};

/// A step of a `MeterCore`. Times are in nanoseconds.
#[derive(Debug, Drop)]
pub enum MeterStep {
    /// A call was made.
    Call,
    /// A call was answered: whether by `Ok`, of which kind, and how long after it was made.
    Answer(bool, u64, u64),
    /// A call's response was dropped before it was answered.
    Abandon,
    /// Polls found the service unready, this long.
    Unready(u64),
    /// A call passed that isn't counted as one.
    Uncounted,
    /// Reads what was counted, into this box. (A reading itself would make each step and reply large.)
    Read(Box<Reading>),
}

/// The reply of a `MeterCore` to a step.
#[derive(Debug, Drop)]
pub enum MeterReply {
    /// It is counted.
    Done,
    /// There are 2^64 - 1 such already, and this one isn't counted.
    Full,
    /// No call is in flight. Nothing is counted.
    Unknown,
    /// What was counted.
    Shown(Box<Reading>),
}

/// What was counted so far.
#[derive(Drop)]
pub struct MeterCore {
    reading: Reading,
}

impl MeterCore {
    ghost use Rattle.tower_meter.specs.declared.meter_core.MeterStep.TheVariants.{Call, Answer, Abandon, Unready, Uncounted};

    /// Creates a core that has counted nothing, with buckets of these bounds.
    pub fn new(bounds: Bounds) -> MeterCore
        ensures opens { Opens result }
        ensures bounds { result.reading.bounds ≡ bounds }
    {
        MeterCore {
            reading: Reading::new(bounds),
        }
    }

    #[inline(always)]
    fn call(&mut self) -> MeterReply
        ensures { Follows self.old Call result self.new }
    {
        if self.reading.calls == u64::MAX {
            return MeterReply::Full;
        }
        self.reading.begin();
        MeterReply::Done
    }

    #[inline(always)]
    fn answer(&mut self, is_ok: bool, kind: u64, nanos: u64) -> MeterReply
        ensures { Follows self.old (Answer is_ok kind nanos) result
            self.new }
    {
        if self.reading.in_flight == 0 {
            return MeterReply::Unknown;
        }
        self.reading.answer(is_ok, kind, nanos);
        MeterReply::Done
    }

    #[inline(always)]
    fn abandon(&mut self) -> MeterReply
        ensures { Follows self.old Abandon result self.new }
    {
        if self.reading.in_flight == 0 {
            return MeterReply::Unknown;
        }
        self.reading.abandon();
        MeterReply::Done
    }

    #[inline(always)]
    fn unready(&mut self, nanos: u64) -> MeterReply
        ensures { Follows self.old (Unready nanos) result self.new }
    {
        if self.reading.unready == u64::MAX {
            return MeterReply::Full;
        }
        self.reading.unready(nanos);
        MeterReply::Done
    }

    #[inline(always)]
    fn pass(&mut self) -> MeterReply
        ensures { Follows self.old Uncounted result self.new }
    {
        if self.reading.uncounted == u64::MAX {
            return MeterReply::Full;
        }
        self.reading.pass();
        MeterReply::Done
    }
}

impl Core for MeterCore {
    type Step = MeterStep;

    type Reply = MeterReply;

    type Terms = Bounds;

    ghost use Rattle.tower_latch.specs.LatchLemmas.{none_held, no_places};

    ghost opens = { Opens };

    ghost steps = { Follows };

    ghost is_wait = { λ _. false };

    ghost terms = { λ core. core.reading.bounds };

    ghost starts = { none_held _ };

    ghost counts = { no_places _ _ (λ _ _ _ _ made. made.same) };

    #[inline(always)]
    fn step(&mut self, step: MeterStep) -> (MeterReply, Wakes) {
        match step {
            MeterStep::Call => (self.call(), Wakes::Nobody),
            MeterStep::Answer(is_ok, kind, nanos) => {
                (self.answer(is_ok, kind, nanos), Wakes::Nobody)
            }
            MeterStep::Abandon => (self.abandon(), Wakes::Nobody),
            MeterStep::Unready(nanos) => (self.unready(nanos), Wakes::Nobody),
            MeterStep::Uncounted => (self.pass(), Wakes::Nobody),
            MeterStep::Read(mut room) => {
                *room = self.reading;
                (MeterReply::Shown(room), Wakes::Nobody)
            }
        }
    }

    #[inline(always)]
    fn terms(&self) -> Bounds {
        self.reading.bounds
    }
}
