//! Calls through a limit, and without one.

use crate::echo::Echo;
use crate::queued::{clones_of, sum_of, total};
use std::alloc::AllocGlobal;
use std::random::RandomSource;
use std::sync::Wait;
use std::thread::Threads;
use std::{io, thread};
use tower::latch::Latch;
use tower::limit::ConcurrencyLimit;
use tower::limit::concurrency::{LineCore, Semaphore};

/// The sum of the responses. The callers share `max` permits, and each of them makes so many calls.
pub fn sum<R, L>(rt: &R, line: L, max: usize, callers: usize, each: u64) -> io::Result<u64>
where
    R: Threads + Wait + RandomSource + AllocGlobal + Sync,
    L: Latch<LineCore> + Send,
{
    let limit = ConcurrencyLimit::with_semaphore(Echo, Semaphore::with_latch(line, max));
    let clones = clones_of(rt.alloc(), limit, callers)?;
    total(thread::map_vec(rt, clones, &|limit| sum_of(rt, limit, each))?)
}

/// The sum of the responses without a limit: what the threads and their waiters take.
pub fn alone<R>(rt: &R, callers: usize, each: u64) -> io::Result<u64>
where
    R: Threads + Wait + RandomSource + AllocGlobal + Sync,
{
    let clones = clones_of(rt.alloc(), Echo, callers)?;
    total(thread::map_vec(rt, clones, &|echo| sum_of(rt, echo, each))?)
}
