//! `tower::retry::backoff`: the words of the default.

use futures::task::Poll;
use futures::test::MockTask;
use std::cell::Cell;
use std::process::Abort;
use std::test::Fail;
use tests_support::clock::Hand;
use tests_support::log::Log;
use tower_base::service::{Clock, Polled};
use tower_base::util::rng::{HasherRng, Rng};
use tower_retry::retry::backoff::{Backoff, ExponentialBackoffMaker, MakeBackoff};

const MS: u64 = 1_000_000;

// The next wait from moment 0 on takes so long, and no less. A generic body.
fn lasts<B: Backoff>(
    rt: &impl Abort,
    task: &MockTask,
    moment: &Cell<u64>,
    backoff: &mut B,
    wait: u64,
)
    requires { B.sound backoff.old }
    ensures { B.sound backoff.new }
{
    moment.set(0);
    let mut future = Polled::new(backoff.next_backoff());
    moment.set(wait.saturating_sub(1));
    match task.poll(&mut future) {
        Poll::Pending => {
            moment.set(wait);
            assert!(rt;
                matches!(task.poll(&mut future), Poll::Ready(())),
                "at {wait}"
            );
        }
        Poll::Ready(()) => assert!(rt; wait == 0, "before {wait}"),
    }
}

// So long are the waits of one backoff, one after another.
fn each_lasts<R: Rng + Clone, C: Clock>(
    rt: &impl Abort,
    task: &MockTask,
    moment: &Cell<u64>,
    mut maker: ExponentialBackoffMaker<R, C>,
    waits: &[u64],
) -> Result<(), Fail> {
    let mut backoff = maker.make_backoff()?;
    for wait in waits {
        lasts(rt, task, moment, &mut backoff, *wait);
    }
    Ok(())
}

// Each wait is longer by its word's part of 99 in 100.
#[test]
fn by_default_from_fifty_milliseconds(rt: HostRuntime) -> Result<(), Fail> {
    let (moment, log) = (Cell::new(0), Log::new(rt.alloc())?);
    let mut words = HasherRng::new();
    let mut waits = Vec::new(rt.alloc());
    for base in [50 * MS, 100 * MS, 200 * MS, 400 * MS] {
        let part = words.next_u64() >> 11;
        let share = base as u128 * part as u128 / (1 << 53);
        let jitter = (share * 99 / 100) as u64;
        waits.push(base.saturating_add(jitter))?;
    }
    let maker = ExponentialBackoffMaker::with_clock(Hand::new(&log, &moment));
    each_lasts(&rt, &MockTask::new(&rt)?, &moment, maker, waits.as_slice())
}
