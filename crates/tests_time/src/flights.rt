//! Ten thousand responses in flight at once.

use crate::flight::{Board, Flight};
use futures::StreamExt;
use futures::executor::{LocalPool, TaskSet, block_on};
use futures::stream::FuturesUnordered;
use futures::task::Doorbell;
use std::alloc::AllocGlobal;
use std::io;
use std::random::RandomSource;
use std::rt::Clock as ReadsClock;
use std::sync::Wait;
use std::test::Fail;
use std::thread::{self, Threads};
use tower_base::service::{Clock, Sleep};
use tower_time::Timers;

const COUNT: u64 = 10_000;

/// Each answers after 20 ms and some microseconds, far below its limit, in nanoseconds.
const FIRST: u64 = 20_000_000;

const LIMIT: u64 = 100_000_000_000;

fn wait_of(place: u64) -> u64 {
    place.saturating_mul(1_000).saturating_add(FIRST)
}

fn in_pool<R, C>(rt: &R, clock: &C, board: &Board) -> io::Result<()>
where
    R: Wait + RandomSource + AllocGlobal,
    C: Clock,
{
    let mut pool = LocalPool::with_doorbell(rt, Doorbell::parking())?;
    let spawner = pool.spawner()?;
    for place in 0..COUNT {
        let _ = spawner.spawn(Flight::new(clock, board, wait_of(place), LIMIT));
    }
    pool.run(rt);
    Ok(())
}

fn in_set<R, C>(rt: &R, clock: &C, board: &Board) -> io::Result<()>
where
    R: Wait + RandomSource + AllocGlobal + Threads + Sync,
    C: Clock + Send,
{
    let set = TaskSet::new(rt, Doorbell::parking(), 2)?;
    for place in 0..COUNT {
        let _ = set.spawn(Flight::new(clock, board, wait_of(place), LIMIT));
    }
    let ((), ()) = thread::join(rt, || set.work(rt, 0), || set.work(rt, 1));
    Ok(())
}

fn in_unordered<R, C>(rt: &R, clock: &C, board: &Board) -> io::Result<u64>
where
    R: Wait + RandomSource + AllocGlobal,
    C: Clock,
{
    let mut set = FuturesUnordered::new(rt.alloc())?;
    for place in 0..COUNT {
        let _ = set.push(Flight::new(clock, board, wait_of(place), LIMIT));
    }
    Ok(block_on(rt, set.count())? as u64)
}

fn all<R, C>(rt: &R, clock: C, boards: &[Board; 3]) -> io::Result<u64>
where
    R: Wait + RandomSource + AllocGlobal + Threads + Sync,
    C: Clock + Send,
{
    block_on(rt, Sleep::new(clock.share(), 1_000_000))?;
    in_pool(rt, &clock, &boards[0])?;
    in_set(rt, &clock, &boards[1])?;
    in_unordered(rt, &clock, &boards[2])
}

// What each of the three told, and how many responses the last one ended.
fn told_beside<R>(rt: R) -> io::Result<([(u64, u64); 3], u64)>
where
    R: Wait + RandomSource + AllocGlobal + Threads + ReadsClock + Copy + Send + Sync,
{
    let boards = [Board::new(), Board::new(), Board::new()];
    let timers = Timers::new(rt, rt.alloc())?;
    let ended = timers.beside(&rt, || all(&rt, timers.clock(), &boards))?;
    Ok((
        [boards[0].told(), boards[1].told(), boards[2].told()],
        ended,
    ))
}

#[test]
fn each_flight_is_polled_three_times_at_most(rt: HostRuntime) -> Result<(), Fail> {
    assert_eq!(rt; told_beside(rt)?, ([(COUNT, 0); 3], COUNT));
    Ok(())
}
