//! A service with a task of its own, in a loop whose time stands still.

use crate::flight::Late;
use futures::future::Future;
use std::alloc::{AllocError, AllocGlobal};
use std::random::RandomSource;
use std::sync::Wait;
use std::test::Fail;
use tower_base::service::{Executor, Service};
use tower_buffer::buffer::Buffer;
use tower_paused::{PausedError, PausedLoop};
use tower_spawn::Spawner;
use tower_util::util::Oneshot;

/// In nanoseconds.
const HOUR: u64 = 3_600_000_000_000;

fn spawner_of<F: Future>(rt: &impl AllocGlobal) -> Result<Spawner<F>, PausedError> {
    Spawner::new(rt.alloc()).map_err(|_| PausedError::NoMemory)
}

// One call, beside the task. Returns the moment of the answer, if it is one.
fn call<R, S, W>(
    rt: &R,
    mut tasks: PausedLoop,
    service: S,
    task: W,
) -> Result<Option<u64>, PausedError>
where
    R: Wait + RandomSource + AllocGlobal,
    S: Service<u64, Response = ()>,
    W: Future<Output = ()>,
    requires sound { S.sound service }
    requires can_poll { W.can_poll task }
{
    let spawner = spawner_of(rt)?;
    let _ = spawner.spawn(task);
    let answer = tasks.run_with(rt, Oneshot::new(service, HOUR), &spawner)?;
    Ok(answer.is_ok().then_some(tasks.now()))
}

fn call_buffer<R>(rt: R) -> Result<Option<u64>, PausedError>
where
    R: Wait + RandomSource + AllocGlobal + Copy,
{
    let tasks = PausedLoop::new(&rt)?;
    match Buffer::pair(rt, rt.alloc(), Late::new(tasks.clock()), 2) {
        Ok((buffer, worker)) => call(&rt, tasks, buffer, worker),
        Err(AllocError) => Err(PausedError::NoMemory),
    }
}

// The worker's task ends with the buffer.
#[test]
fn buffer_answers_after_an_hour(rt: HostRuntime) -> Result<(), Fail> {
    assert_eq!(rt; call_buffer(rt)?, Some(HOUR));
    Ok(())
}
