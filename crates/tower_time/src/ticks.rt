//! Between nanoseconds and the ticks of timers, and sleeps.
ghost use Rattle.std.specs.Prelude.{◌≡◌, ◌⊎◌, ◌+◌, ◌-◌, ◌*◌, ◌^◌, ◌<◌, ◌≤◌, min};
ghost use Rattle.tower_time.specs.Clocks.{IsTickOf};

use std::time::Duration;
use std::{rt, thread};

/// A tick is a microsecond: less than the system's own delay of a sleep. (tokio's is a millisecond, which
/// would slow a rate limit of a thousand calls a second.)
const NANOS_PER_TICK: u64 = 1_000;

/// No clock reaches this tick.
pub const LAST_TICK: u64 = u64::MAX;

/// Returns the first tick that isn't before the moment, or the last tick.
pub fn tick_from(moment: u128) -> u64
    ensures { IsTickOf result moment }
{
    let nanos_per_tick = NANOS_PER_TICK as u128;
    let ticks = moment / nanos_per_tick + u128::from(moment % nanos_per_tick != 0);
    ticks.min(LAST_TICK as u128) as u64
}

/// Returns the last tick that isn't after the moment.
pub fn tick_at(moment: u64) -> u64
    ensures not_after { result * 1000 ≤ moment }
    ensures last { moment < result * 1000 + 1000 }
{
    moment / NANOS_PER_TICK
}

/// Returns the nanoseconds from the moment to the tick, or `most` if they are more.
pub fn nanos_until(tick: u64, moment: u64, most: u64) -> u64
    ensures { result ≡ min (tick * 1000 - moment) most }
{
    let left = (tick as u128 * NANOS_PER_TICK as u128).saturating_sub(moment as u128);
    left.min(most as u128) as u64
}

/// A sleep that a thread has made. Only a sleep makes one.
#[derive(Drop)]
pub struct Slept {
    nanos: u64,
}

impl Slept {
    /// Before the first sleep.
    pub fn not_yet() -> Slept
        ensures { result.nanos ≡ 0 }
    {
        Slept { nanos: 0 }
    }

    /// Sleeps for so many nanoseconds.
    pub fn sleep<R: rt::Clock>(rt: &R, nanos: u64) -> Slept
        ensures { result.nanos ≡ nanos }
    {
        thread::sleep(rt, Duration::from_nanos(nanos));
        Slept { nanos }
    }
}
