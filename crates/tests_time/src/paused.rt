//! Tasks of a loop whose time stands still while one can go on.

use futures::future::{Future, pending};
use futures::task::{Context, Poll};
use std::alloc::AllocGlobal;
use std::cell::Cell;
use std::random::RandomSource;
use std::sync::Wait;
use std::test::Fail;
use tower_base::service::{Clock, Executor, Sleep, Steps};
use tower_paused::{Advance, PausedClock, PausedError, PausedLoop};
use tower_spawn::Spawner;

/// The last four things that tasks did: which task, and at which moment.
type Log = Cell<[(u8, u64); 4]>;

const EMPTY: [(u8, u64); 4] = [(0, 0); 4];

fn note(log: &Log, task: u8, moment: u64) {
    let [_, second, third, fourth] = log.get();
    log.set([second, third, fourth, (task, moment)]);
}

/// Sleeps, and notes when it is awake.
#[derive(Drop)]
struct Sleeper<'a> {
    sleep: Sleep<PausedClock>,
    clock: PausedClock,
    name: u8,
    log: &'a Log,
}

impl<'a> Sleeper<'a> {
    fn new(clock: &PausedClock, wait: u64, name: u8, log: &'a Log) -> Sleeper<'a> {
        Sleeper {
            sleep: Sleep::new(clock.share(), wait),
            clock: clock.share(),
            name,
            log,
        }
    }
}

impl Future for Sleeper<'_> {
    type Output = ();

    fn poll(&mut self, cx: &mut Context<'_>) -> Poll<()> {
        match self.sleep.step(cx) {
            Poll::Ready(()) => {
                note(self.log, self.name, self.clock.now());
                Poll::Ready(())
            }
            Poll::Pending => Poll::Pending,
        }
    }
}

/// Lets time pass, and notes when it goes on.
#[derive(Drop)]
struct Leader<'a> {
    advance: Advance,
    clock: PausedClock,
    log: &'a Log,
}

impl Future for Leader<'_> {
    type Output = ();

    fn poll(&mut self, cx: &mut Context<'_>) -> Poll<()> {
        match self.advance.poll(cx) {
            Poll::Ready(()) => {
                note(self.log, 9, self.clock.now());
                Poll::Ready(())
            }
            Poll::Pending => Poll::Pending,
        }
    }
}

// Runs tasks that sleep so long, and a leader that lets time pass.
fn run<R>(rt: &R, waits: [u64; 3], by: u64, log: &Log) -> Result<u64, PausedError>
where
    R: Wait + RandomSource + AllocGlobal,
{
    let mut tasks = PausedLoop::new(rt)?;
    let Ok(spawner) = Spawner::new(rt.alloc()) else {
        return Err(PausedError::NoMemory);
    };
    let clock = tasks.clock();
    let mut name = 1u8;
    for wait in waits {
        let _ = spawner.spawn(Sleeper::new(&clock, wait, name, log));
        name = name.saturating_add(1);
    }
    let leader = Leader {
        advance: clock.advance(by),
        clock,
        log,
    };
    tasks.run_with(rt, leader, &spawner)?;
    Ok(tasks.now())
}

// Equal deadlines fire in the order of arming. The leader goes on once no other task can.
#[test]
fn deadlines_fire_in_order_at_their_moments(rt: HostRuntime) -> Result<(), Fail> {
    let log = Cell::new(EMPTY);
    assert_eq!(rt; run(&rt, [5, 3, 5], 5, &log), Ok(5));
    assert_eq!(rt; log.get(), [(2, 3), (1, 5), (3, 5), (9, 5)]);
    Ok(())
}

// `advance(0)` lets all others run, and then time goes on by itself.
#[test]
fn all_others_run_before_no_time_has_passed(rt: HostRuntime) -> Result<(), Fail> {
    let log = Cell::new(EMPTY);
    assert_eq!(rt;
        run(&rt, [0, 0, 7_200_000_000_001], 0, &log),
        Ok(7_200_000_000_001)
    );
    assert_eq!(rt; log.get(), [(1, 0), (2, 0), (9, 0), (3, 7_200_000_000_001)]);
    Ok(())
}

// No clock gets to the end of time. Three sleepers have two clocks each, of whom one is left.
#[test]
fn deadlock_tells_what_waits(rt: HostRuntime) -> Result<(), Fail> {
    let log = Cell::new(EMPTY);
    let deadlock = PausedError::Deadlock {
        moment: 5,
        tasks: 1,
        clocks: 2,
    };
    assert_eq!(rt; run(&rt, [5, u64::MAX, 5], 0, &log), Err(deadlock));
    Ok(())
}

fn nothing_comes<R>(rt: &R) -> Result<(), PausedError>
where
    R: Wait + RandomSource + AllocGlobal,
{
    PausedLoop::new(rt)?.block_on(rt, pending::<()>())
}

#[test]
fn nothing_that_comes_is_a_deadlock(rt: HostRuntime) -> Result<(), Fail> {
    let deadlock = PausedError::Deadlock {
        moment: 0,
        tasks: 0,
        clocks: 0,
    };
    assert_eq!(rt; nothing_comes(&rt), Err(deadlock));
    Ok(())
}
