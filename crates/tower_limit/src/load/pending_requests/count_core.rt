//! The core that counts pending requests.
ghost use Rattle.std.specs.Prelude.{false};
ghost use Rattle.tower_latch.specs.Latch.{FollowsMachine, StepsAs};
ghost use Rattle.tower_limit.specs.Holders.{HolderSteps};
ghost use Rattle.tower_limit.specs.CountCore.{Opens, StandsFor};

use tower_latch::{Core, Wakes};

/// A step of a `CountCore`.
#[derive(Clone, Copy, Debug, PartialEq, Eq)]
pub enum CountStep {
    /// Counts one more holder.
    Take,
    /// Stops counting a holder, which is gone.
    Give,
    /// Reads the number of holders.
    Load,
}

/// The reply of a `CountCore` to a step.
#[derive(Clone, Copy, Debug, PartialEq, Eq)]
pub enum CountReply {
    /// The holder is counted.
    Counted,
    /// There are 2^64 - 1 holders, and this one isn't counted.
    Full,
    /// The holder isn't counted any more.
    Done,
    /// The number of holders.
    Count(usize),
    /// There is no holder. The count is unchanged.
    Unknown,
}

/// The number of live holders.
#[derive(Drop)]
pub struct CountCore {
    count: usize,
}

impl CountCore {
    /// Creates a count without holders.
    pub fn new() -> CountCore
        ensures { Opens result }
    {
        CountCore { count: 0 }
    }

    #[inline(always)]
    fn take(&mut self) -> CountReply
        ensures { FollowsMachine StandsFor HolderSteps self.old CountStep.Take result self.new }
    {
        if self.count == usize::MAX {
            return CountReply::Full;
        }
        self.count += 1;
        CountReply::Counted
    }

    #[inline(always)]
    fn give(&mut self) -> CountReply
        ensures { FollowsMachine StandsFor HolderSteps self.old CountStep.Give result self.new }
    {
        if self.count == 0 {
            return CountReply::Unknown;
        }
        self.count -= 1;
        CountReply::Done
    }
}

impl Core for CountCore {
    type Step = CountStep;

    type Reply = CountReply;

    type Terms = ();

    ghost use Rattle.tower_latch.specs.LatchLemmas.{none_held, no_terms};

    ghost opens = { Opens };

    ghost steps = { StepsAs StandsFor HolderSteps };

    ghost is_wait = { λ _. false };

    ghost terms = { λ _. tt };

    ghost starts = { none_held _ };

    ghost counts = { no_terms _ };

    #[inline(always)]
    fn step(&mut self, step: CountStep) -> (CountReply, Wakes) {
        match step {
            CountStep::Take => (self.take(), Wakes::Nobody),
            CountStep::Give => (self.give(), Wakes::Nobody),
            CountStep::Load => (CountReply::Count(self.count), Wakes::Nobody),
        }
    }

    #[inline(always)]
    fn terms(&self) {}
}
