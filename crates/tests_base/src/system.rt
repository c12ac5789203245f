//! The machine's own clock.

use futures::test::MockTask;
use std::cell::Cell;
use std::rt::Clock as ReadsClock;
use std::test::Fail;
use std::time::Duration;
use std::{io, thread};
use tests_support::checks::Checks;
use tower_base::service::{Clock, Sleep, SystemClock};

#[test]
fn system_clock_goes_on_from_its_start(rt: HostRuntime) -> Result<(), Fail> {
    let mut clock = SystemClock::new(rt)?;
    let first = clock.now();
    assert!(rt; first < 10_000_000_000, "{first} at once");
    let second = clock.now();
    assert!(rt; first <= second, "{second} after {first}");
    thread::sleep(&rt, Duration::from_millis(2));
    let third = clock.now();
    assert!(rt;
        third.saturating_sub(second) >= 1_000_000,
        "{third} two milliseconds after {second}"
    );
    // A share that began anew would be behind.
    let mut share = clock.share();
    let shared = share.now();
    assert!(rt; third <= shared, "{shared} by a share after {third}");
    let last = clock.now();
    assert!(rt; shared <= last, "{last} after {shared} by a share");
    Ok(())
}

#[test]
fn system_clock_goes_on_past_a_second(rt: HostRuntime) -> Result<(), Fail> {
    let mut clock = SystemClock::new(rt)?;
    let first = clock.now();
    thread::sleep(&rt, Duration::from_millis(1100));
    let passed = clock.now().saturating_sub(first);
    assert!(rt; passed >= 1_100_000_000, "{passed} in 1.1 seconds");
    assert!(rt; passed < 30_000_000_000, "{passed} in 1.1 seconds");
    Ok(())
}

// A computer whose clock shows this, or can't be read.
#[derive(Clone, Copy)]
struct Computer<'a> {
    shows: &'a Cell<Option<Duration>>,
}

impl ReadsClock for Computer<'_> {
    fn monotonic(&self) -> io::Result<Duration> {
        match self.shows.get() {
            Some(shown) => Ok(shown),
            None => Err(io::Error::other("no reading")),
        }
    }

    fn since_1970(&self) -> io::Result<Duration> {
        self.monotonic()
    }
}

// The computer's clock goes on by a nanosecond, by 72 minutes and to the last moment, and meanwhile can't be read, goes back, and goes
// past the last moment.
#[test]
fn system_clock_reads_what_the_computer_shows(rt: HostRuntime) -> Result<(), Fail> {
    let checks = Checks::new(rt.alloc());
    let shows = Cell::new(Some(Duration::from_nanos(5)));
    let mut clock = SystemClock::new(Computer { shows: &shows })?;
    for (shown, reading) in [
        (Some(Duration::from_nanos(5)), 0),
        (Some(Duration::from_nanos(6)), 1),
        (Some(Duration::from_secs(4320)), 4_319_999_999_995),
        (None, 4_319_999_999_995),
        (Some(Duration::from_nanos(7)), 4_319_999_999_995),
        (Some(Duration::from_secs(20_000_000_000)), 4_319_999_999_995),
        (
            Some(Duration::from_nanos(u64::MAX)),
            18_446_744_073_709_551_610,
        ),
    ] {
        shows.set(shown);
        checks.same(&clock.now(), &reading);
        checks.same(&clock.share().now(), &reading);
    }
    // What waits for it is polled again at once.
    let task = MockTask::new(&rt)?;
    let mut sleep = Sleep::new(clock, 1);
    checks.holds(task.poll(&mut sleep).is_pending());
    checks.holds(task.is_woken());
    checks.verdict()
}
