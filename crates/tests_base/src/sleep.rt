//! `Sleep`: when it reads its clock.

use futures::test::MockTask;
use std::cell::Cell;
use std::test::Fail;
use tests_support::checks::Checks;
use tests_support::clock::Hand;
use tests_support::log::Log;
use tower_base::service::Sleep;

#[test]
fn sleep_reads_as_it_is_made_and_at_each_poll(rt: HostRuntime) -> Result<(), Fail> {
    let checks = Checks::new(rt.alloc());
    let log = Log::new(rt.alloc())?;
    let moment = Cell::new(5);
    let task = MockTask::new(&rt)?;
    let mut sleep = Sleep::new(Hand::new(&log, &moment), 10);
    checks.told(&log, "clock read 5;");
    moment.set(14);
    assert!(rt; task.poll(&mut sleep).is_pending());
    checks.holds(task.is_woken());
    moment.set(15);
    checks.holds(task.poll(&mut sleep).is_ready());
    drop(sleep);
    checks.told(&log, "clock read 14;clock read 15;clock dropped;");
    checks.verdict()
}

#[test]
fn sleep_of_no_time_is_over_at_once(rt: HostRuntime) -> Result<(), Fail> {
    let checks = Checks::new(rt.alloc());
    let log = Log::new(rt.alloc())?;
    let moment = Cell::new(5);
    let task = MockTask::new(&rt)?;
    let mut sleep = Sleep::new(Hand::new(&log, &moment), 0);
    checks.holds(task.poll(&mut sleep).is_ready());
    checks.told(&log, "clock read 5;clock read 5;");
    checks.verdict()
}
