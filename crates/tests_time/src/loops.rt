//! Loops whose tasks wait for the machine's clock.

use crate::flight::{Board, Flight};
use futures::executor::TaskSet;
use futures::task::Doorbell;
use std::alloc::{AllocError, AllocGlobal};
use std::io;
use std::random::RandomSource;
use std::rt::Clock as ReadsClock;
use std::sync::Wait;
use std::test::Fail;
use tower_base::service::{Clock, Executor, Sleep};
use tower_spawn::Spawner;
use tower_time::ClockLoop;

/// The responses answer after 20 ms, far below their limit, in nanoseconds.
const WAIT: u64 = 20_000_000;

const LIMIT: u64 = 100_000_000_000;

fn flight<'a, C: Clock>(clock: &C, board: &'a Board) -> Flight<'a, C> {
    Flight::new(clock, board, WAIT, LIMIT)
}

// Two responses beside a sleep.
fn beside_a_spawner<R>(rt: R) -> io::Result<(u64, u64)>
where
    R: Wait + RandomSource + AllocGlobal + ReadsClock + Copy,
{
    let board = Board::new();
    let mut tasks = ClockLoop::new(rt, &rt)?;
    let spawner = Spawner::new(rt.alloc())?;
    let clock = tasks.clock();
    for _ in 0..2 {
        if spawner.spawn(flight(&clock, &board)).is_err() {
            return Err(AllocError.into());
        }
    }
    tasks.run_with(&rt, Sleep::new(clock, WAIT), &spawner)?;
    Ok(board.told())
}

// Two responses in a set, beside a third.
fn beside_a_set<R>(rt: R) -> io::Result<(u64, u64)>
where
    R: Wait + RandomSource + AllocGlobal + ReadsClock + Copy,
{
    let board = Board::new();
    let mut tasks = ClockLoop::new(rt, &rt)?;
    let set = TaskSet::new(&rt, Doorbell::spinning(), 1)?;
    let clock = tasks.clock();
    for _ in 0..2 {
        set.spawn(flight(&clock, &board))?;
    }
    tasks.block_on_with(&rt, &set, flight(&clock, &board))?;
    Ok(board.told())
}

// Three responses that come out of a stream. It ends, since the spawner is dropped.
fn run_all<R>(rt: R) -> io::Result<(u64, u64)>
where
    R: Wait + RandomSource + AllocGlobal + ReadsClock + Copy,
{
    let board = Board::new();
    let mut tasks = ClockLoop::new(rt, &rt)?;
    let spawner = Spawner::new(rt.alloc())?;
    let other = spawner.clone()?;
    let clock = tasks.clock();
    for _ in 0..3 {
        if other.spawn(flight(&clock, &board)).is_err() {
            return Err(AllocError.into());
        }
    }
    let spawned = spawner.spawned().ok_or(AllocError)?;
    drop(spawner);
    drop(other);
    tasks.run_all(&rt, spawned)?;
    Ok(board.told())
}

#[test]
fn tasks_of_a_spawner_sleep_in_a_loop(rt: HostRuntime) -> Result<(), Fail> {
    assert_eq!(rt; beside_a_spawner(rt)?, (2, 0));
    Ok(())
}

#[test]
fn tasks_of_a_set_are_polled_in_a_loop(rt: HostRuntime) -> Result<(), Fail> {
    assert_eq!(rt; beside_a_set(rt)?, (3, 0));
    Ok(())
}

#[test]
fn ample_run_of_a_stream(rt: HostRuntime) -> Result<(), Fail> {
    assert_eq!(rt; run_all(rt)?, (3, 0));
    Ok(())
}

// If no error is told, each task ended.
#[test]
fn refused_run_of_a_stream_is_told(rt: HostRuntime) -> Result<(), Fail> {
    if let Ok((answered, _often)) = run_all(rt) {
        assert_eq!(rt; answered, 3);
    }
    Ok(())
}
