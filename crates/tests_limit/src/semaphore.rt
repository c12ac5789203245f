//! `tower::limit::concurrency::PollSemaphore`: who is woken.

use futures::task::{Context, Poll};
use futures::test::MockTask;
use std::alloc::{AllocError, AllocGlobal};
use std::process::Abort;
use std::random::RandomSource;
use std::test::Fail;
use tests_support::checks::Checks;
use tower_latch::Latch;
use tower_limit::limit::concurrency::{LineCore, PollSemaphore, Semaphore};

fn is_ok<T: Drop, E: Drop>(answer: &Poll<Result<T, E>>) -> bool {
    matches!(answer, Poll::Ready(Ok(_)))
}

// Two that ask for permits.
fn two_of<L: Latch<LineCore>>(
    semaphore: &Semaphore<L>,
) -> Result<(PollSemaphore<L>, PollSemaphore<L>), AllocError> {
    let first = PollSemaphore::new(semaphore.share()?);
    Ok((first, PollSemaphore::new(semaphore.share()?)))
}

fn tasks_are_kept<R, L>(rt: &R, semaphore: Semaphore<L>) -> Result<(), Fail>
where
    R: Abort + RandomSource + AllocGlobal,
    L: Latch<LineCore>,
{
    let checks = Checks::new(rt.alloc());
    let (one, two) = (MockTask::new(rt)?, MockTask::new(rt)?);
    let (mut first, mut holder) = two_of(&semaphore)?;
    // The one that was made, beside its first share.
    let mut second = PollSemaphore::new(semaphore);
    // Each is the only task of its executor.
    let number = one.enter(|cx: &mut Context<'_>| cx.task());
    checks.same(&two.enter(|cx: &mut Context<'_>| cx.task()), &number);
    let permit = one.enter(|cx| holder.poll_acquire(cx));
    checks.holds(is_ok(&permit));
    assert!(rt; one.enter(|cx| first.poll_acquire(cx)).is_pending());
    assert!(rt; two.enter(|cx| second.poll_acquire(cx)).is_pending());
    checks.holds(!one.is_woken() && !two.is_woken());
    // Only the one that gets the permit is woken.
    drop(permit);
    checks.holds(one.is_woken());
    checks.holds(!two.is_woken());
    assert!(rt; two.enter(|cx| second.poll_acquire(cx)).is_pending());
    let permit = one.enter(|cx| first.poll_acquire(cx));
    checks.holds(is_ok(&permit));
    checks.holds(!two.is_woken());
    drop(permit);
    checks.holds(two.is_woken());
    checks.verdict()
}

#[test]
fn tasks_of_two_executors_are_both_kept(rt: HostRuntime) -> Result<(), Fail> {
    tasks_are_kept(&rt, Semaphore::new(rt, rt.alloc(), 1)?)
}
