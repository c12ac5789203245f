//! How often tasks of one pool are polled that wait for each other at a latch. Polls in one pool are exact, so each number is
//! compared as it is. If memory for a waker is refused, no task is left asleep: the crowds of the refused test end.

mod crowds;
mod tasks;

use crate::polls::crowds::{Crowd, Patience, buffered, limited};
use crate::polls::tasks::{Echo, LATE, PROMPT};
use std::alloc::AllocGlobal;
use std::io;
use std::random::RandomSource;
use std::sync::Wait;
use std::test::Fail;
use tests_support::checks::Checks;

// Crowds that call through a limit: its calls at a time, the tasks, the patience of every other one, and then the polls of
// the tasks and the answers.
const LIMITED: [(usize, u64, Patience, u64, u64); 7] = [
    (1, 10, Patience::Endless, 29, 10),
    (1, 100, Patience::Endless, 299, 100),
    (1, 1_000, Patience::Endless, 2_999, 1_000),
    (1, 10_000, Patience::Endless, 29_999, 10_000),
    (8, 1_000, Patience::Endless, 2_992, 1_000),
    // every other one leaves
    (1, 1_000, Patience::Polls(1), 2_499, 500),
    // every other response is dropped
    (1, 1_000, Patience::Call, 2_499, 500),
];

// Crowds that call through a buffer: its places, the service, the tasks, the patience of every other one, and then the polls
// of the tasks, those of the worker, and the answers.
const BUFFERED: [(usize, Echo, u64, Patience, u64, u64, u64); 9] = [
    (64, PROMPT, 10, Patience::Endless, 20, 2, 10),
    (64, PROMPT, 100, Patience::Endless, 207, 5, 100),
    (64, PROMPT, 1_000, Patience::Endless, 2_936, 29, 1_000),
    (64, PROMPT, 10_000, Patience::Endless, 29_936, 253, 10_000),
    // all in flight
    (1_000, LATE, 1_000, Patience::Endless, 3_000, 17, 1_000),
    // every other waiter leaves
    (64, PROMPT, 1_000, Patience::Polls(1), 2_468, 15, 500),
    // every other caller leaves
    (64, PROMPT, 1_000, Patience::Polls(2), 2_936, 27, 532),
    // every other response is dropped
    (1_000, LATE, 1_000, Patience::Polls(2), 3_000, 17, 500),
    // every other message is cancelled
    (64, PROMPT, 1_000, Patience::Call, 2_436, 28, 500),
];

// Compares the polls of each crowd.
fn count_all<R: Wait + RandomSource + AllocGlobal + Copy>(
    rt: R,
    checks: &Checks,
) -> io::Result<()> {
    for (max, tasks, patience, callers, answers) in LIMITED {
        let polls = limited(rt, max, Crowd { tasks, patience })?;
        checks.same(&[polls.callers, polls.answers], &[callers, answers]);
    }
    for (bound, service, tasks, patience, callers, worker, answers) in BUFFERED {
        let polls = buffered(rt, service, bound, Crowd { tasks, patience })?;
        checks.same(
            &[polls.callers, polls.worker, polls.answers],
            &[callers, worker, answers],
        );
    }
    Ok(())
}

#[test]
fn polls_of_crowds(rt: HostRuntime) -> Result<(), Fail> {
    let checks = Checks::new(rt.alloc());
    count_all(rt, &checks)?;
    checks.verdict()
}

// Lets ten tasks call through a limit of one, and ten through a buffer of two places. Returns whether each was answered, after
// as many polls as without a refusal: of the buffer's, two have a place at once, and eight wait for one. Each sends, and polls a
// response that is pending once.
fn few<R: Wait + RandomSource + AllocGlobal + Copy>(rt: R) -> io::Result<bool> {
    let through_limit = limited(rt, 1, Crowd::staying(10))?;
    let through_buffer = buffered(rt, LATE, 2, Crowd::staying(10))?;
    Ok(
        through_limit.callers == 29
            && through_limit.answers == 10
            && through_buffer.callers == 2 * 3 + 8 * 4
            && through_buffer.worker <= 12
            && through_buffer.answers == 10,
    )
}

#[test]
fn refused_wakers_leave_nobody_asleep(rt: HostRuntime) -> Result<(), Fail> {
    let _ended = few(rt);
    Ok(())
}

#[test]
fn ample_wakers(rt: HostRuntime) -> Result<(), Fail> {
    let checks = Checks::new(rt.alloc());
    checks.holds(few(rt)?);
    checks.verdict()
}
