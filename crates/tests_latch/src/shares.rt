//! Shares of one latch are numbered apart: tasks that have one number, each of an executor of its own, wait at one key of a slot.

use futures::task::Context;
use futures::test::MockTask;
use std::alloc::{AllocError, AllocGlobal, Global};
use std::process::Abort;
use std::random::RandomSource;
use std::sync::atomic::{AtomicU64, Ordering};
use std::test::Fail;
use std::thread;
use std::thread::Threads;
use tests_support::checks::Checks;
use tower_latch::{Guarded, Latch};
use tower_pool::spawn_ready::{SlotCore, SlotStep};

type Slot = SlotCore<u8, u8>;

// The task waits at the share for an abort.
fn wait<L: Latch<Slot>>(task: &MockTask, share: &L) {
    task.enter(|cx: &mut Context<'_>| {
        let (_reply, token) = share.wait(SlotStep::Aborted, cx);
        token.end();
    });
}

// One task waits at the latch, and then another with the same number at one share after another. Nobody takes the first one's place.
fn shares_are_apart<R, L>(rt: &R, latch: L) -> Result<(), Fail>
where
    R: Abort + RandomSource + AllocGlobal,
    L: Latch<Slot>,
{
    let checks = Checks::new(rt.alloc());
    let (one, two) = (MockTask::new(rt)?, MockTask::new(rt)?);
    let number = one.enter(|cx: &mut Context<'_>| cx.task());
    checks.same(&two.enter(|cx: &mut Context<'_>| cx.task()), &number);
    latch.step(SlotStep::Start);
    wait(&one, &latch);
    for _ in 0..300u32 {
        wait(&two, &latch.share()?);
    }
    checks.holds(!one.is_woken() && !two.is_woken());
    latch.step(SlotStep::Abort);
    checks.holds(one.is_woken() && two.is_woken());
    checks.verdict()
}

#[test]
fn three_hundred_shares_are_told_apart(rt: HostRuntime) -> Result<(), Fail> {
    shares_are_apart(&rt, Guarded::new(rt, rt.alloc(), Slot::new())?)
}

const EACH: usize = 5000;

// So many shares, made once the other thread makes them too.
fn shares_of<L: Latch<Slot>>(
    alloc: Global,
    latch: &L,
    mine: &AtomicU64,
    other: &AtomicU64,
) -> Result<Vec<L>, AllocError> {
    let mut shares = Vec::with_capacity(alloc, EACH)?;
    mine.store(1, Ordering::SeqCst);
    for _ in 0..1_000_000_u32 {
        if other.load(Ordering::SeqCst) == 1 {
            break;
        }
    }
    for _ in 0..EACH {
        shares.push(latch.share()?)?;
    }
    Ok(shares)
}

// No share of one thread has the number of one of the other.
fn threads_are_apart<R, L>(rt: &R, latch: L) -> Result<(), Fail>
where
    R: Threads + Abort + RandomSource + AllocGlobal + Sync,
    L: Latch<Slot> + Send + Sync,
{
    latch.step(SlotStep::Start);
    let (here, there) = (AtomicU64::new(0), AtomicU64::new(0));
    let (first, second) = thread::join(
        rt,
        || shares_of(rt.alloc(), &latch, &here, &there),
        || shares_of(rt.alloc(), &latch, &there, &here),
    );
    let (one, two) = (MockTask::new(rt)?, MockTask::new(rt)?);
    for share in &first? {
        wait(&one, share);
    }
    for share in &second? {
        wait(&two, share);
    }
    if one.is_woken() {
        return Err("two shares have one number".into());
    }
    Ok(())
}

#[test]
fn shares_of_two_threads_are_told_apart(rt: HostRuntime) -> Result<(), Fail> {
    threads_are_apart(&rt, Guarded::new(rt, rt.alloc(), Slot::new())?)
}
