//! Waits of half a second, which `scripts/time.py` measures.

use futures::StreamExt;
use futures::executor::block_on;
use futures::stream::FuturesUnordered;
use futures::task::{Doorbell, Solo};
use std::alloc::{AllocError, AllocGlobal};
use std::io;
use std::random::RandomSource;
use std::rt::Clock as ReadsClock;
use std::sync::Wait;
use std::test::Fail;
use std::thread::Threads;
use tower_base::service::{Clock, Executor, Sleep};
use tower_spawn::Spawner;
use tower_time::{ClockLoop, Timers};

/// In nanoseconds.
const WAIT: u64 = 500_000_000;

/// An hour, in nanoseconds.
const LATEST: u64 = 3_600_000_000_000;

// So many sleeps beside one more, in a loop.
fn in_a_loop<R>(rt: R, count: u64) -> io::Result<()>
where
    R: Wait + RandomSource + AllocGlobal + ReadsClock + Copy,
{
    let mut tasks = ClockLoop::new(rt, &rt)?;
    let spawner = Spawner::new(rt.alloc())?;
    let clock = tasks.clock();
    for _ in 0..count {
        if spawner.spawn(Sleep::new(clock.share(), WAIT)).is_err() {
            return Err(AllocError.into());
        }
    }
    tasks.run_with(&rt, Sleep::new(clock, WAIT), &spawner)
}

fn sleep_in_a_set<R, C>(rt: &R, clock: &C, count: u64) -> io::Result<u64>
where
    R: Wait + RandomSource + AllocGlobal,
    C: Clock,
{
    let mut set = FuturesUnordered::new(rt.alloc())?;
    for _ in 0..count {
        let _ = set.push(Sleep::new(clock.share(), WAIT));
    }
    Ok(block_on(rt, set.count())? as u64)
}

fn beside_timers<R>(rt: R, count: u64) -> io::Result<u64>
where
    R: Wait + RandomSource + AllocGlobal + Threads + ReadsClock + Copy + Send + Sync,
{
    let timers = Timers::new(rt, rt.alloc())?;
    timers.beside(&rt, || sleep_in_a_set(&rt, &timers.clock(), count))
}

// Brings the next turn of the thread forward so often that a count in 16 bits would wrap, and then sleeps.
fn sleep_after_rings<R, C>(rt: &R, clock: C) -> io::Result<()>
where
    R: Wait + RandomSource + AllocGlobal,
    C: Clock,
{
    let solo = Solo::new(rt, Doorbell::spinning())?;
    let mut cx = solo.begin();
    let mut early = clock.share();
    for place in 0..70_000u64 {
        early.wake_at(
            u128::from(LATEST.saturating_sub(place.saturating_mul(1_000))),
            &mut cx,
        );
    }
    cx.cancel();
    block_on(rt, Sleep::new(clock, WAIT))
}

fn rings_beside_timers<R>(rt: R) -> io::Result<()>
where
    R: Wait + RandomSource + AllocGlobal + Threads + ReadsClock + Copy + Send + Sync,
{
    let timers = Timers::new(rt, rt.alloc())?;
    timers.beside(&rt, || sleep_after_rings(&rt, timers.clock()))
}

#[test]
fn sleep_after_many_rings(rt: HostRuntime) -> Result<(), Fail> {
    Ok(rings_beside_timers(rt)?)
}

#[test]
fn one_task_in_a_loop(rt: HostRuntime) -> Result<(), Fail> {
    Ok(in_a_loop(rt, 1)?)
}

#[test]
fn thousand_tasks_in_a_loop(rt: HostRuntime) -> Result<(), Fail> {
    Ok(in_a_loop(rt, 1_000)?)
}

#[test]
fn one_sleep_beside_timers(rt: HostRuntime) -> Result<(), Fail> {
    assert_eq!(rt; beside_timers(rt, 1)?, 1);
    Ok(())
}

#[test]
fn thousand_sleeps_beside_timers(rt: HostRuntime) -> Result<(), Fail> {
    assert_eq!(rt; beside_timers(rt, 1_000)?, 1_000);
    Ok(())
}

#[test]
fn seventy_thousand_sleeps_beside_timers(rt: HostRuntime) -> Result<(), Fail> {
    assert_eq!(rt; beside_timers(rt, 70_000)?, 70_000);
    Ok(())
}
