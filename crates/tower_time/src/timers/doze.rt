//! The two calls of the system on which the thread of the timers rests. Each returns what nothing else makes.
ghost use Rattle.std.specs.Prelude.{◌≡◌};

use std::sync::{Condvar, Wait};
use std::time::Duration;

/// All threads that sleep here were woken.
#[derive(Drop)]
pub struct Rung(());

/// A sleep that the thread has made: for how long, and not at all if there were more rings than those.
#[derive(Drop)]
pub struct Dozed {
    rings: u64,
    nanos: u64,
}

/// Wakes all threads that sleep here.
pub fn notify(condvar: &Condvar) -> Rung {
    condvar.notify_all();
    Rung(())
}

/// Sleeps for so many nanoseconds at most, and not at all if there were more rings than these.
pub fn doze<W: Wait>(condvar: &Condvar, rt: &W, rings: u64, nanos: u64) -> Dozed
    ensures { (result.rings ≡ rings) × (result.nanos ≡ nanos) }
{
    condvar.sleep(rt, rings, Duration::from_nanos(nanos));
    Dozed { rings, nanos }
}
