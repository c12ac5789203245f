//! One response at a time.

use crate::flight::{Board, Flight, Late};
use futures::executor::block_on;
use futures::future::Future;
use futures::task::{Context, Doorbell, Poll, Solo};
use std::alloc::AllocGlobal;
use std::cell::Cell;
use std::io;
use std::random::RandomSource;
use std::rt::Clock as ReadsClock;
use std::sync::Wait;
use std::test::Fail;
use std::thread::Threads;
use tower_base::service::{Clock, Service};
use tower_limit::limit::rate::{Rate, RateLimit};
use tower_time::{ClockLoop, Timers};

/// The responses answer after 20 ms, far below their limit, in nanoseconds.
const WAIT: u64 = 20_000_000;

const LIMIT: u64 = 100_000_000_000;

// One response: whether it answered, and how many were polled more than three times.
fn one_call<R, C>(rt: &R, clock: C, limit: u64) -> io::Result<(u64, u64)>
where
    R: Wait + RandomSource + AllocGlobal,
    C: Clock,
{
    let board = Board::new();
    block_on(rt, Flight::new(&clock, &board, WAIT, limit))?;
    Ok(board.told())
}

// Polls a response once, and drops it. Returns whether it was pending, and how many timers there were then.
fn dropped<R, K>(rt: &R, timers: &Timers<K>) -> io::Result<(bool, usize)>
where
    R: RandomSource + AllocGlobal,
    K: ReadsClock + Copy,
{
    let board = Board::new();
    let solo = Solo::new(rt, Doorbell::spinning())?;
    let mut flight = Flight::new(&timers.clock(), &board, LIMIT, LIMIT);
    let mut cx = solo.begin();
    let polled = flight.poll(&mut cx);
    cx.cancel();
    Ok((polled == Poll::Pending, timers.len()))
}

// What `dropped` found beside its timers, and how many timers were left.
fn dropped_beside<R>(rt: R) -> io::Result<(bool, usize, usize)>
where
    R: Wait + RandomSource + AllocGlobal + Threads + ReadsClock + Copy + Sync,
{
    let timers = Timers::new(rt, rt.alloc())?;
    let (was_pending, count) = timers.beside(&rt, || dropped(&rt, &timers))?;
    Ok((was_pending, count, timers.len()))
}

// There are two timers: that of the response, and that of its timeout.
#[test]
fn dropped_response_leaves_no_timer(rt: HostRuntime) -> Result<(), Fail> {
    assert_eq!(rt; dropped_beside(rt)?, (true, 2, 0));
    Ok(())
}

// 2^64 - 1 nanoseconds from a moment that isn't zero.
#[test]
fn limit_past_the_last_moment(rt: HostRuntime) -> Result<(), Fail> {
    assert_eq!(rt; call_beside(rt, u64::MAX)?, (1, 0));
    Ok(())
}

// Leaves the task at a deadline that is far past the last tick, 2^64 microseconds. Returns whether it is to be polled again at once,
// and the clock, whose drop would remove the timer.
fn left_for_ever<C: Clock>(solo: &Solo, mut clock: C) -> (bool, C) {
    let mut cx = solo.begin();
    clock.wake_at(u128::MAX, &mut cx);
    cx.park();
    (is_woken(solo), clock)
}

fn is_woken(solo: &Solo) -> bool {
    match solo.sleep() {
        Some(asleep) => {
            asleep.end();
            false
        }
        None => true,
    }
}

// Whether such a task is to be polled again at once, and whether it is at the end.
fn left_beside<R>(rt: R) -> io::Result<(bool, bool)>
where
    R: Wait + RandomSource + AllocGlobal + Threads + ReadsClock + Copy + Sync,
{
    let timers = Timers::new(rt, rt.alloc())?;
    let solo = Solo::new(&rt, Doorbell::spinning())?;
    let (woken_at_once, _clock) = timers.beside(&rt, || left_for_ever(&solo, timers.clock()));
    Ok((woken_at_once, is_woken(&solo)))
}

#[test]
fn deadline_past_the_last_tick_lasts_until_the_end(rt: HostRuntime) -> Result<(), Fail> {
    assert_eq!(rt; left_beside(rt)?, (false, true));
    Ok(())
}

/// More than half of 2^16, in which a key or a count might wrap.
const MANY: usize = 40_000;

// Has a clock wait, then a share of it, and so on.
fn wait_often<R, C>(rt: &R, solo: &Solo, clock: C) -> io::Result<Vec<C>>
where
    R: AllocGlobal,
    C: Clock,
{
    let mut clocks = Vec::new(rt.alloc());
    let mut last = clock;
    for _ in 0..MANY {
        let next = last.share();
        let (_is_woken, left) = left_for_ever(solo, last);
        clocks.push(left)?;
        last = next;
    }
    Ok(clocks)
}

// How many timers there are once all clocks wait, at the end, and once the clocks are dropped.
fn counts<R>(rt: R) -> io::Result<(usize, usize, usize)>
where
    R: Wait + RandomSource + AllocGlobal + Threads + ReadsClock + Copy + Sync,
{
    let timers = Timers::new(rt, rt.alloc())?;
    let solo = Solo::new(&rt, Doorbell::spinning())?;
    let waiting = || -> io::Result<(Vec<_>, usize)> {
        let clocks = wait_often(&rt, &solo, timers.clock())?;
        Ok((clocks, timers.len()))
    };
    let (clocks, count) = timers.beside(&rt, waiting)?;
    let at_the_end = timers.len();
    drop(clocks);
    Ok((count, at_the_end, timers.len()))
}

#[test]
fn each_share_has_a_timer_until_its_drop(rt: HostRuntime) -> Result<(), Fail> {
    assert_eq!(rt; counts(rt)?, (MANY, MANY, 0));
    Ok(())
}

// What a call told before a thread fires the timers, after it, and outside its loop.
fn busy<R>(rt: R) -> io::Result<[(u64, u64); 3]>
where
    R: Wait + RandomSource + AllocGlobal + Threads + ReadsClock + Copy + Sync,
{
    let timers = Timers::new(rt, rt.alloc())?;
    let before = one_call(&rt, timers.clock(), LIMIT)?;
    timers.beside(&rt, || ());
    let after = one_call(&rt, timers.clock(), LIMIT)?;
    Ok([before, after, outside_its_loop(rt)?])
}

fn outside_its_loop<R>(rt: R) -> io::Result<(u64, u64)>
where
    R: Wait + RandomSource + AllocGlobal + ReadsClock + Copy,
{
    let tasks = ClockLoop::new(rt, &rt)?;
    one_call(&rt, tasks.clock(), LIMIT)
}

// One response in its loop.
fn in_its_loop<R>(rt: R) -> io::Result<(u64, u64)>
where
    R: Wait + RandomSource + AllocGlobal + ReadsClock + Copy,
{
    let board = Board::new();
    let mut tasks = ClockLoop::new(rt, &rt)?;
    let flight = Flight::new(&tasks.clock(), &board, WAIT, LIMIT);
    tasks.block_on(&rt, flight)?;
    Ok(board.told())
}

#[test]
fn not_busy_in_its_loop(rt: HostRuntime) -> Result<(), Fail> {
    assert_eq!(rt; in_its_loop(rt)?, (1, 0));
    Ok(())
}

// Without a thread that fires the timers, and outside its loop, a clock's task is polled all the while.
#[test]
fn busy_without_the_thread_or_the_loop(rt: HostRuntime) -> Result<(), Fail> {
    assert_eq!(rt; busy(rt)?, [(1, 1); 3]);
    Ok(())
}

// What a call under timers told, or an error if the timers or the executor got no memory.
fn call_beside<R>(rt: R, limit: u64) -> io::Result<(u64, u64)>
where
    R: Wait + RandomSource + AllocGlobal + Threads + ReadsClock + Copy + Sync,
{
    let timers = Timers::new(rt, rt.alloc())?;
    timers.beside(&rt, || one_call(&rt, timers.clock(), limit))
}

#[test]
fn refused_wait_loses_nothing(rt: HostRuntime) -> Result<(), Fail> {
    if let Ok((answered, _often)) = call_beside(rt, LIMIT) {
        assert_eq!(rt; answered, 1);
    }
    Ok(())
}

#[test]
fn ample_wait(rt: HostRuntime) -> Result<(), Fail> {
    assert_eq!(rt; call_beside(rt, LIMIT)?, (1, 0));
    Ok(())
}

// The readiness of a service, whose polls are counted.
#[derive(Drop)]
struct Asked<'a, S> {
    service: S,
    polls: &'a Cell<u64>,
}

impl<S: Service<u64>> Future for Asked<'_, S> {
    type Output = Result<(), S::Error>;

    ghost can_poll = { λ a. S.sound a.service };

    fn poll(&mut self, cx: &mut Context<'_>) -> Poll<Result<(), S::Error>> {
        self.polls.set(self.polls.get().saturating_add(1));
        self.service.poll_ready(cx)
    }
}

// Waits until the service is ready. Returns how often it was polled, or none if it failed.
fn polls_of<R, S>(rt: &R, service: S) -> io::Result<Option<u64>>
where
    R: Wait + RandomSource + AllocGlobal,
    S: Service<u64>,
    requires { S.sound service }
{
    let polls = Cell::new(0u64);
    let asked = Asked {
        service,
        polls: &polls,
    };
    let is_ready = block_on(rt, asked)?.is_ok();
    Ok(is_ready.then_some(polls.get()))
}

// Makes a call, and then waits for the next one.
fn second_call<R, S>(rt: &R, mut service: S) -> io::Result<Option<u64>>
where
    R: Wait + RandomSource + AllocGlobal,
    S: Service<u64>,
    requires { S.sound service }
{
    let solo = Solo::new(rt, Doorbell::spinning())?;
    let mut cx = solo.begin();
    let answer = service.poll_ready(&mut cx);
    cx.cancel();
    let Poll::Ready(Ok(())) = answer else {
        return Ok(None);
    };
    drop(service.call(0));
    polls_of(rt, service)
}

// How often a rate of one call in 20 ms is polled before its second call.
fn limited<R, C>(rt: &R, clock: C) -> io::Result<Option<u64>>
where
    R: Wait + RandomSource + AllocGlobal,
    C: Clock,
{
    let late = Late::new(clock.share());
    let limit = RateLimit::new(rt.alloc(), late, Rate::new(1, WAIT), clock)?;
    second_call(rt, limit)
}

// The same beside timers.
fn limited_beside<R>(rt: R) -> io::Result<Option<u64>>
where
    R: Wait + RandomSource + AllocGlobal + Threads + ReadsClock + Copy + Sync,
{
    let timers = Timers::new(rt, rt.alloc())?;
    timers.beside(&rt, || limited(&rt, timers.clock()))
}

// Once when it is asked, and once at the deadline, or a little before it.
#[test]
fn rate_limit_is_polled_three_times_at_most(rt: HostRuntime) -> Result<(), Fail> {
    assert!(rt; matches!(limited_beside(rt)?, Some(2..=3)));
    Ok(())
}
