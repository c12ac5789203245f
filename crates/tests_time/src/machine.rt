//! A machine whose clock a test sets, and whose sleep moves it.

use std::alloc::AllocGlobal;
use std::cell::Cell;
use std::io;
use std::random::RandomSource;
use std::sync::Wait;
use std::test::Fail;
use std::time::{self, Duration};
use tower_base::service::{Clock, Sleep, SystemClock};
use tower_time::ClockLoop;

/// In nanoseconds.
const DAY: u64 = 86_400_000_000_000;

/// Its moment is in nanoseconds. It counts its sleeps.
#[derive(Clone, Copy)]
struct Machine<'a> {
    moment: &'a Cell<u64>,
    sleeps: &'a Cell<u64>,
}

impl time::Clock for Machine<'_> {
    fn monotonic(&self) -> io::Result<Duration> {
        Ok(Duration::from_nanos(self.moment.get()))
    }

    fn since_1970(&self) -> io::Result<Duration> {
        self.monotonic()
    }

    fn sleep(&self, duration: Duration) {
        let nanos = u64::try_from(duration.as_nanos()).unwrap_or(u64::MAX);
        self.moment.set(self.moment.get().saturating_add(nanos));
        self.sleeps.set(self.sleeps.get().saturating_add(1));
    }
}

// The readings of a clock at these moments, from one on.
fn readings(from: u64, moments: [u64; 3]) -> io::Result<[u64; 3]> {
    let (moment, sleeps) = (Cell::new(from), Cell::new(0));
    let machine = Machine {
        moment: &moment,
        sleeps: &sleeps,
    };
    let mut clock = SystemClock::new(machine)?;
    let mut read = [0; 3];
    for (place, at) in read.iter_mut().zip(moments) {
        moment.set(at);
        *place = clock.now();
    }
    Ok(read)
}

#[test]
fn clock_goes_on_after_thirty_days(rt: HostRuntime) -> Result<(), Fail> {
    let read = readings(5, [30 * DAY + 5, 31 * DAY + 6, 10_000 * DAY + 5])?;
    assert_eq!(rt; read, [30 * DAY, 31 * DAY + 1, 10_000 * DAY]);
    Ok(())
}

// The machine's moment once a sleep of so many nanoseconds is over, and how often the machine slept.
fn sleep<R>(rt: &R, nanos: u64) -> io::Result<(u64, u64)>
where
    R: Wait + RandomSource + AllocGlobal,
{
    let (moment, sleeps) = (Cell::new(0), Cell::new(0));
    let machine = Machine {
        moment: &moment,
        sleeps: &sleeps,
    };
    let mut tasks = ClockLoop::new(machine, rt)?;
    tasks.block_on(rt, Sleep::new(tasks.clock(), nanos))?;
    Ok((moment.get(), sleeps.get()))
}

// A loop sleeps for a millisecond at most, and ends at the first microsecond that isn't before the deadline.
#[test]
fn loop_sleeps_until_the_deadline(rt: HostRuntime) -> Result<(), Fail> {
    let (moment, sleeps) = sleep(&rt, 20_000_500)?;
    assert_eq!(rt; moment, 20_001_000);
    assert!(rt; (21..=30).contains(&sleeps));
    Ok(())
}
