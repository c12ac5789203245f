//! Refused memory: waiters whose slab can't grow, the waker of a permit that is waited for, and counts of pending requests, whose room is
//! made before anything is asked.

use futures::task::{Poll, Solo};
use futures::test::MockTask;
use std::alloc::{AllocError, AllocGlobal, Global};
use std::convert::Infallible;
use std::random::RandomSource;
use std::sync::Wait;
use std::test::Fail;
use tests_support::refused::{desk, judged};
use tests_support::script::Script;
use tests_support::service::Scripted;
use tower_latch::{Core, Latch};
use tower_limit::discover::{Change, Discover, ServiceList};
use tower_limit::limit::concurrency::{LineCore, LineReply, LineStep, PollSemaphore, Semaphore};
use tower_limit::load::{CompleteOnResponse, Error, PendingRequests, PendingRequestsDiscover};

// Nine wait for a line's permit, where nobody has one. A refused one isn't in the line, all others are as before, and at its
// second try it gets the key that it would have had.
fn nine_join(alloc: Global, again: bool) -> Result<(), Fail> {
    let mut line = LineCore::new(alloc, 0);
    for key in 0..9u64 {
        let mut reply = line.step(LineStep::Join).0;
        if again && reply == LineReply::Memory {
            if line.step(LineStep::Look(key)).0 != LineReply::Unknown {
                return Err("a refused one waits".into());
            }
            for earlier in 0..key {
                if line.step(LineStep::Look(earlier)).0 != LineReply::Waiting(earlier) {
                    return Err("one that waits is lost".into());
                }
            }
            reply = line.step(LineStep::Join).0;
        }
        if reply != LineReply::Waiting(key) {
            return Err("not waiting".into());
        }
    }
    Ok(())
}

#[test]
fn refused_join_leaves_the_line(rt: HostRuntime) -> Result<(), Fail> {
    nine_join(rt.alloc(), true)
}

#[test]
fn ample_joins(rt: HostRuntime) -> Result<(), Fail> {
    nine_join(rt.alloc(), false)
}

// A wait that is polled a hundred times keeps one waker: only its first one may find no room, and then its task is woken.
fn hundred_polls<L: Latch<LineCore>>(
    waiting: &mut PollSemaphore<L>,
    task: &MockTask,
    again: bool,
) -> bool {
    for poll in 0..100u8 {
        let is_waiting = match task.enter(|cx| waiting.poll_acquire(cx)) {
            Poll::Pending => true,
            Poll::Ready(Err(AllocError)) => again,
            Poll::Ready(Ok(_)) => false,
        };
        if !is_waiting || task.is_woken() && (!again || poll > 1) {
            return false;
        }
    }
    true
}

fn one_waker<R>(rt: R, again: bool) -> Result<bool, AllocError>
where
    R: Wait + RandomSource + AllocGlobal + Copy,
{
    let mut waiting = PollSemaphore::new(Semaphore::new(rt, rt.alloc(), 0)?);
    match MockTask::new(&rt) {
        Ok(task) => Ok(hundred_polls(&mut waiting, &task, again)),
        Err(_) => Err(AllocError),
    }
}

#[test]
fn refused_waker_is_kept_at_the_next_poll(rt: HostRuntime) -> Result<(), Fail> {
    judged(one_waker(rt, true), true)
}

#[test]
fn ample_waker(rt: HostRuntime) -> Result<(), Fail> {
    judged(one_waker(rt, false), false)
}

// What came of a poll.
#[derive(Drop)]
enum Came {
    Insert,
    Memory,
    Else,
}

fn found<D: Discover<Error = Error<Infallible>>>(solo: &Solo, discovery: &mut D) -> Came
    requires { D.sound discovery.old }
    ensures sound { D.sound discovery.new }
{
    let mut cx = solo.begin();
    let answer = discovery.poll_discover(&mut cx);
    cx.end(&answer);
    match answer {
        Poll::Ready(Some(Ok(Change::Insert(_, _)))) => Came::Insert,
        Poll::Ready(Some(Err(Error::Memory))) => Came::Memory,
        _ => Came::Else,
    }
}

// A poll that finds an insert. Where there is no memory for its count nothing was asked, so the next poll finds it.
fn inserts<D: Discover<Error = Error<Infallible>>>(
    solo: &Solo,
    mut discovery: D,
    again: bool,
) -> bool
    requires { D.sound discovery }
{
    match found(solo, &mut discovery) {
        Came::Insert => true,
        Came::Memory if again => matches!(found(solo, &mut discovery), Came::Insert),
        Came::Memory | Came::Else => false,
    }
}

fn counted<R>(rt: R, again: bool) -> Result<bool, AllocError>
where
    R: Wait + RandomSource + AllocGlobal + Copy,
{
    let alloc = rt.alloc();
    let (log, solo) = desk(&rt)?;
    let script = Script::new(&log);
    let services = vec![in alloc; Scripted::new(&script, 'a')]?;
    let list = ServiceList::new(services);
    let discovery = PendingRequestsDiscover::new(rt, alloc, list, CompleteOnResponse);
    let is_found = inserts(&solo, discovery, again);
    PendingRequests::new(rt, alloc, Scripted::new(&script, 's'), CompleteOnResponse)?;
    Ok(is_found)
}

#[test]
fn refused_counts_ask_for_nothing(rt: HostRuntime) -> Result<(), Fail> {
    judged(counted(rt, true), true)
}

#[test]
fn ample_counts(rt: HostRuntime) -> Result<(), Fail> {
    judged(counted(rt, false), false)
}
