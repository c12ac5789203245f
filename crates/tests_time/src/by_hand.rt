//! Polls by hand, by a clock that the test sets.
ghost use Rattle.std.specs.Prelude.{◌≡◌, true};

use crate::flight::Late;
use futures::future::Future;
use futures::test::MockTask;
use std::alloc::AllocGlobal;
use std::cell::Cell;
use std::io;
use std::random::RandomSource;
use std::test::Fail;
use tower_base::service::{Clock, Service};
use tower_paused::HandClock;
use tower_ware::timeout::Timeout;

/// In nanoseconds.
const HOUR: u64 = 3_600_000_000_000;

// Polls the response at the moment. Returns whether it is pending.
fn is_pending_at<F>(task: &MockTask, moment: &Cell<u64>, at: u64, response: &mut F) -> bool
where
    F: Future<Output: Drop>,
    requires { F.can_poll response.old }
    ensures { result ≡ true → F.can_poll response.new }
{
    moment.set(at);
    task.poll(response).is_pending()
}

// Whether a response that takes two hours, under a timeout of one, is pending before that hour and at its end.
fn timeout<R>(rt: &R) -> io::Result<(bool, bool)>
where
    R: RandomSource + AllocGlobal,
{
    let (moment, task) = (Cell::new(0), MockTask::new(rt)?);
    let clock = HandClock::new(&moment);
    let mut service = Timeout::new(Late::new(clock.share()), HOUR, clock);
    let mut response = service.call(2 * HOUR);
    let is_pending_before = is_pending_at(&task, &moment, HOUR - 1, &mut response);
    let is_pending_then = is_pending_at(&task, &moment, HOUR, &mut response);
    Ok((is_pending_before, is_pending_then))
}

#[test]
fn timeout_comes_at_its_moment(rt: HostRuntime) -> Result<(), Fail> {
    assert_eq!(rt; timeout(&rt)?, (true, false));
    Ok(())
}
