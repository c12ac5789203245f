//! Rounds of a buffer with its worker, and of a service that gets ready in a task of its own.
ghost use Rattle.std.specs.Prelude.{IfSome};

use crate::inner::{Echo, Pace};
use crate::rounds::rounds;
use futures::task::{Context, Poll};
use std::alloc::{AllocError, AllocGlobal};
use std::sync::Wait;
use tower::Service;
use tower::buffer::Buffer;
use tower::service::{Executor, Steps};
use tower::spawn_ready::SpawnReady;

/// A buffer of 64. A round is a poll of readiness, a call, one poll of the worker, and one of the response.
pub fn buffered<R: Wait + AllocGlobal + Copy>(
    rt: R,
    cx: &mut Context<'_>,
    count: u64,
) -> Result<u64, AllocError> {
    let (buffer, worker) = Buffer::pair(rt, rt.alloc(), Echo, 64)?;
    Ok(both(cx, buffer, Some(worker), count))
}

fn both<B, W>(cx: &mut Context<'_>, mut buffer: B, mut worker: Option<W>, count: u64) -> u64
where
    B: Service<u64, Response = u64>,
    W: Steps<Output = ()>,
    requires buffer { B.sound buffer }
    requires worker { IfSome worker W.can_poll }
{
    let mut sum = 0u64;
    for number in 0..count {
        if let Some(response) = round(cx, &mut buffer, &mut worker, number ^ sum) {
            sum = sum.wrapping_add(response);
        }
    }
    sum
}

// One round: its response, if there is one.
fn round<B, W>(
    cx: &mut Context<'_>,
    buffer: &mut B,
    worker: &mut Option<W>,
    request: u64,
) -> Option<u64>
where
    B: Service<u64, Response = u64>,
    W: Steps<Output = ()>,
    requires buffer { B.sound buffer.old }
    requires worker { IfSome worker.old W.can_poll }
    ensures buffer { B.sound buffer.new }
    ensures worker { IfSome worker.new W.can_poll }
{
    let Poll::Ready(Ok(())) = buffer.poll_ready(cx) else {
        return None;
    };
    let mut future = buffer.call(request);
    work(cx, worker);
    match future.step(cx) {
        Poll::Ready(Ok(response)) => Some(response),
        _ => None,
    }
}

// One poll of the worker, unless it has ended.
fn work<W: Steps<Output = ()>>(cx: &mut Context<'_>, worker: &mut Option<W>)
    requires { IfSome worker.old W.can_poll }
    ensures { IfSome worker.new W.can_poll }
{
    let Some(mut left) = worker.take() else {
        return;
    };
    if left.step(cx).is_pending() {
        *worker = Some(left);
    }
}

/// Takes no task.
#[derive(Drop)]
pub struct Nobody;

impl<T> Executor<T> for Nobody {
    fn spawn(&self, task: T) -> Result<(), T> {
        Err(task)
    }
}

/// A service that is ready at once, so that no task is spawned.
pub fn spawned<R: Wait + AllocGlobal + Copy>(
    rt: R,
    cx: &mut Context<'_>,
    pace: &Pace,
    count: u64,
) -> Result<u64, AllocError> {
    let service = SpawnReady::new(rt, rt.alloc(), Echo, Nobody)?;
    Ok(rounds(cx, service, pace, count))
}
