//! Calls through buffers.

use crate::echo::{Echo, Lost, Response};
use futures::executor::LocalPool;
use futures::future::Future;
use futures::task::Doorbell;
use std::alloc::{AllocError, AllocGlobal, Global};
use std::random::RandomSource;
use std::sync::Wait;
use std::thread::Threads;
use std::{io, thread};
use tower::Service;
use tower::buffer::{Buffer, MailCore, Worker};
use tower::latch::Latch;
use tower::latch::held::Pollable;
use tower::util::{Sealed, Waiter};

type Mail = MailCore<u64, Pollable<Response>, Lost>;

type Front<L> = Buffer<u64, Response, Lost, L>;

type Back<L> = Worker<Echo, u64, Response, Lost, L>;

/// The sum of the responses. Each buffer has so many callers, and each of them makes so many calls.
pub fn sum<R, L>(rt: &R, mails: Vec<L>, callers: usize, each: u64) -> io::Result<u64>
where
    R: Threads + Wait + RandomSource + AllocGlobal + Sync,
    L: Latch<Mail> + Send,
{
    total(thread::map_vec(rt, mails, &|mail| queued(rt, mail, callers, each))?)
}

/// The sum of what threads made.
pub fn total(sums: Vec<io::Result<u64>>) -> io::Result<u64> {
    let mut sum = 0u64;
    for made in sums {
        sum = sum.wrapping_add(made?);
    }
    Ok(sum)
}

// Buffer and worker are moved on at once: a drop of either isn't covered here.
fn queued<R, L>(rt: &R, mail: L, callers: usize, each: u64) -> io::Result<u64>
where
    R: Threads + Wait + RandomSource + AllocGlobal + Sync,
    L: Latch<Mail> + Send,
{
    match Buffer::with_latch(mail, Echo) {
        Ok((buffer, worker)) => run(rt, buffer, worker, callers, each),
        Err(AllocError) => Err(AllocError.into()),
    }
}

fn run<R, L>(
    rt: &R,
    buffer: Front<L>,
    worker: Back<L>,
    callers: usize,
    each: u64,
) -> io::Result<u64>
where
    R: Threads + Wait + RandomSource + AllocGlobal + Sync,
    L: Latch<Mail> + Send,
{
    let (ended, sums) = thread::join(
        rt,
        || serve(rt, worker),
        || call_all(rt, buffer, callers, each),
    );
    ended?;
    total(sums?)
}

fn serve<R, L>(rt: &R, worker: Back<L>) -> io::Result<()>
where
    R: Wait + RandomSource + AllocGlobal,
    L: Latch<Mail>,
{
    run_task(rt, worker)
}

// The task of a pool, until it ends.
fn run_task<R, W>(rt: &R, task: W) -> io::Result<()>
where
    R: Wait + RandomSource + AllocGlobal,
    W: Future<Output = ()> + Drop,
    requires { W.can_poll task }
{
    let mut pool = LocalPool::with_doorbell(rt, Doorbell::parking())?;
    pool.spawner()?.spawn(task)?;
    pool.run(rt);
    Ok(())
}

fn call_all<R, L>(
    rt: &R,
    buffer: Front<L>,
    callers: usize,
    each: u64,
) -> Result<Vec<io::Result<u64>>, AllocError>
where
    R: Threads + Wait + RandomSource + AllocGlobal + Sync,
    L: Latch<Mail> + Send,
{
    let clones = clones_of(rt.alloc(), buffer, callers)?;
    thread::map_vec(rt, clones, &|buffer| call(rt, buffer, each))
}

/// So many clones of a service, which is dropped.
pub fn clones_of<B: Clone + Drop>(
    alloc: Global,
    buffer: B,
    count: usize,
) -> Result<Vec<B>, AllocError> {
    let mut clones = Vec::new(alloc);
    for _ in 0..count {
        clones.push(buffer.clone()?)?;
    }
    Ok(clones)
}

fn call<R, L>(rt: &R, buffer: Front<L>, each: u64) -> io::Result<u64>
where
    R: Wait + RandomSource + AllocGlobal,
    L: Latch<Mail>,
{
    sum_of(rt, buffer, each)
}

/// The sum of the responses to so many calls of one service, one after another.
pub fn sum_of<R, B>(rt: &R, service: B, each: u64) -> io::Result<u64>
where
    R: Wait + RandomSource + AllocGlobal,
    B: Service<u64, Response = u64>,
    requires { B.sound service }
{
    let mut service = Sealed::new(service);
    let mut waiter = Waiter::new(rt)?;
    let mut sum = 0u64;
    for number in 0..each {
        if let Ok(response) = waiter.block_on_call(rt, &mut service, number ^ sum)? {
            sum = sum.wrapping_add(response);
        }
    }
    Ok(sum)
}
