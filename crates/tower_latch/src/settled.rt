//! Nobody who could go on is left asleep at a latch.
ghost use Rattle.tower_latch.specs.LatchMachine.{LeavesNoneAsleep, WakesNoneInVain};

use crate::Core;

/// States what a `Guarded` keeps under its lock: each key at which somebody waits stalls, so whoever
/// waits there would still be told to wait. Each step of the latch preserves it. Those who no longer
/// stall are named, and were taken out to be woken.
pub fn law<C: Core>()
    ensures { LeavesNoneAsleep C.Core }
{}

/// States the converse: a step that names one key, which no longer stalls, wakes nobody who still
/// stalls. A core may name a key that stalls, and then whoever waits there is polled in vain.
pub fn only<C: Core>()
    ensures { WakesNoneInVain C.Core }
{}
