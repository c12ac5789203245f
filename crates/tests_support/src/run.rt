//! Polls and calls by hand, and transcripts as text.
ghost use Rattle.std.specs.Prelude.{IfSome};
ghost use Rattle.futures.specs.Poll.{OnPending};
ghost use Rattle.futures.specs.Task.{IsArmed};

use futures::task::{Context, Doorbell, Poll, Solo};
use std::alloc::{AllocError, AllocGlobal, Global};
use std::fmt::{Display, Write};
use std::io;
use std::random::RandomSource;
use tower_base::drive::{Entry, Transcript};
use tower_base::service::{Service, Steps};

// How many polls `fire` makes of a service, and of its response.
const POLLS: u8 = 9;

/// A task to poll in. Nothing runs it but the test.
pub fn task<R: RandomSource + AllocGlobal>(rt: &R) -> io::Result<Solo> {
    Solo::new(rt, Doorbell::spinning())
}

/// Ends a poll that gave this answer. Its task stays, to be polled again.
pub fn end<T>(mut cx: Context<'_>, answer: &Poll<T>)
    requires { OnPending answer.now (IsArmed cx) }
{
    match answer {
        Poll::Pending => cx.park(),
        Poll::Ready(_) => {
            let _: Poll<()> = cx.yield_now();
            cx.park();
        }
    }
}

/// One poll of readiness, with what the service means by its answer: a call may follow.
pub fn readiness<Request, S: Service<Request>>(
    solo: &Solo,
    service: &mut S,
) -> Poll<Result<(), S::Error>>
    requires { S.sound service.old }
    ensures polled { S.polled service.old result service.new }
    ensures sound { S.sound service.new }
{
    let mut cx = solo.begin();
    let answer = service.poll_ready(&mut cx);
    end(cx, &answer);
    answer
}

/// One poll of readiness. What the service means by its answer isn't told: at a service of several types it would cost the prover
/// much.
pub fn polled<Request, S: Service<Request>>(
    solo: &Solo,
    service: &mut S,
) -> Poll<Result<(), S::Error>>
    requires { S.sound service.old }
    ensures sound { S.sound service.new }
{
    readiness(solo, service)
}

/// Whether one poll of readiness answers `Ok`.
pub fn is_ready<Request, S: Service<Request>>(solo: &Solo, service: &mut S) -> bool
    requires { S.sound service.old }
    ensures sound { S.sound service.new }
{
    matches!(readiness(solo, service), Poll::Ready(Ok(())))
}

/// A poll of readiness, and a call where it answers `Ok`.
pub fn called<Request: Drop, S: Service<Request>>(
    solo: &Solo,
    service: &mut S,
    request: Request,
) -> Option<S::Future>
    requires { S.sound service.old }
    ensures can_poll { IfSome result S.Future.can_poll }
    ensures sound { S.sound service.new }
{
    match readiness(solo, service) {
        Poll::Ready(Ok(())) => Some(service.call(request)),
        _ => None,
    }
}

/// One poll of a future.
pub fn stepped<F: Steps>(solo: &Solo, future: &mut F) -> Poll<F::Output>
    requires { F.can_poll future.old }
    ensures again { OnPending result (F.can_poll future.new) }
{
    let mut cx = solo.begin();
    let answer = future.step(&mut cx);
    end(cx, &answer);
    answer
}

/// Whether the task was woken since its last poll began, which was pending.
pub fn is_woken(solo: &Solo) -> bool {
    match solo.sleep() {
        Some(asleep) => {
            asleep.end();
            false
        }
        None => true,
    }
}

/// The answer of a future, which is dropped, or none after so many polls.
pub fn awaited<F: Steps>(solo: &Solo, mut future: F) -> Option<F::Output>
    requires { F.can_poll future }
{
    for _ in 0..POLLS {
        match stepped(solo, &mut future) {
            Poll::Ready(answer) => return Some(answer),
            Poll::Pending => {}
        }
    }
    None
}

/// The answer of the service to one call, or none after so many polls of it or of the call's future. Both are
/// dropped, the future first.
pub fn fire<Request: Drop, S: Service<Request>>(
    solo: &Solo,
    mut service: S,
    request: Request,
) -> Option<Result<S::Response, S::Error>>
    requires { S.sound service }
{
    for _ in 0..POLLS {
        match readiness(solo, &mut service) {
            Poll::Ready(Ok(())) => {
                let future = service.call(request);
                return awaited(solo, future);
            }
            Poll::Ready(Err(error)) => return Some(Err(error)),
            Poll::Pending => {}
        }
    }
    None
}

/// The entries, a word or a few each before a semicolon.
pub fn text_of<A: Display, E: Display, U: Display>(
    alloc: Global,
    transcript: &Transcript<A, E, U>,
) -> Result<String, AllocError> {
    let mut text = String::new(alloc);
    for entry in &transcript.entries {
        let _ = match entry {
            Entry::Polled(Poll::Ready(Ok(()))) => write!(text, "ready;"),
            Entry::Polled(Poll::Ready(Err(error))) => write!(text, "error {error};"),
            Entry::Polled(Poll::Pending) => write!(text, "pending;"),
            Entry::Called(index) => write!(text, "call {index};"),
            Entry::Answered(index, Poll::Ready(Ok(value))) => write!(text, "{index} ok {value};"),
            Entry::Answered(index, Poll::Ready(Err(error))) => write!(
                text,
                "{index} error {error};"
            ),
            Entry::Answered(index, Poll::Pending) => write!(text, "{index} pending;"),
            Entry::Dropped(index) => write!(text, "drop {index};"),
            Entry::Turned(value) => write!(text, "at {value};"),
            Entry::Skipped => write!(text, "skipped;"),
        };
    }
    Ok(text)
}
