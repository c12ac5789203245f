//! A job queue: four producers in threads of their own, each with a clone of one buffer over a rate limit
//! and a retry. The buffer's worker is a task of a pool, in a fifth thread, which sleeps while the rate is
//! used up: its clock is one of timers, whose thread wakes the task.
//!
//! The check covers threads that take a buffer over any latch, if the service's response type has no
//! parameter. So the mail is made in `main`, and `queued` takes any latch.
#![tactic(auto)]

mod jobs;

use futures::executor::LocalPool;
use futures::future::{Future, Ready};
use futures::task::Doorbell;
use jobs::{Again, Job, Lost, Response, Square};
use std::alloc::{AllocError, AllocGlobal, Global};
use std::random::RandomSource;
use std::sync::Wait;
use std::thread::Threads;
use std::{io, thread};
use tower::Service;
use tower::buffer::{Buffer, MailCore, Worker};
use tower::latch::held::Pollable;
use tower::latch::{Guarded, Latch};
use tower::limit::rate::{Rate, RateLimit};
use tower::retry::future::ResponseFuture;
use tower::retry::{self, Retry};
use tower::service::Clock;
use tower::util::{Sealed, Waiter};
use tower_time::Timers;

const PRODUCERS: usize = 4;

// The number of jobs of each producer.
const JOBS: u64 = 25;

// The response of a job, after its retries.
type Answer = ResponseFuture<Again, Square, Job, Response, Ready<()>>;

type Failure = retry::Error<Lost>;

type Mail = MailCore<Job, Pollable<Answer>, Failure>;

type Front<L> = Buffer<Job, Answer, Failure, L>;

type Back<C, L> = Worker<RateLimit<Retry<Again, Square>, C>, Job, Answer, Failure, L>;

fn main(rt: HostRuntime) -> io::Result<()> {
    let mail = Guarded::new(rt, rt.alloc(), MailCore::new(rt.alloc(), 8))?;
    let timers = Timers::new(rt, rt.alloc())?;
    for sum in timers.beside(&rt, || queued(&rt, mail, timers.clock()))? {
        println!(rt; "a producer's sum: {}", sum?)?;
    }
    Ok(())
}

// Returns the sum of each producer. The buffer and the worker are passed on at once, since the check
// doesn't cover a drop of either here.
fn queued<R, L, C>(rt: &R, mail: L, clock: C) -> io::Result<Vec<io::Result<u64>>>
where
    R: Threads + Wait + RandomSource + AllocGlobal + Sync,
    L: Latch<Mail> + Send,
    C: Clock + Send,
{
    // At most 50 jobs in each millisecond.
    let rate = Rate::new(50, 1_000_000);
    let service = RateLimit::new(rt.alloc(), Retry::new(Again, Square), rate, clock)?;
    match Buffer::with_latch(mail, service) {
        Ok((buffer, worker)) => run(rt, buffer, worker),
        Err(AllocError) => Err(AllocError.into()),
    }
}

// Returns once the last clone of the buffer is gone and then the worker has ended.
fn run<R, L, C>(rt: &R, buffer: Front<L>, worker: Back<C, L>) -> io::Result<Vec<io::Result<u64>>>
where
    R: Threads + Wait + RandomSource + AllocGlobal + Sync,
    L: Latch<Mail> + Send,
    C: Clock + Send,
{
    let (ended, sums) = thread::join(rt, || serve(rt, worker), || produce_all(rt, buffer));
    ended?;
    Ok(sums?)
}

fn serve<R, L, C>(rt: &R, worker: Back<C, L>) -> io::Result<()>
where
    R: Wait + RandomSource + AllocGlobal,
    L: Latch<Mail>,
    C: Clock,
{
    run_task(rt, worker)
}

// Runs the task in a pool until it ends.
fn run_task<R, W>(rt: &R, task: W) -> io::Result<()>
where
    R: Wait + RandomSource + AllocGlobal,
    W: Future<Output = ()> + Drop,
    requires { W.can_poll task }
{
    let mut pool = LocalPool::with_doorbell(rt, Doorbell::parking())?;
    pool.spawner()?.spawn(task)?;
    pool.run(rt);
    Ok(())
}

fn produce_all<R, L>(rt: &R, buffer: Front<L>) -> Result<Vec<io::Result<u64>>, AllocError>
where
    R: Threads + Wait + RandomSource + AllocGlobal + Sync,
    L: Latch<Mail> + Send,
{
    let clones = clones_of(rt.alloc(), buffer)?;
    thread::map_vec(rt, clones, &|buffer| produce(rt, buffer))
}

// Returns one clone for each producer.
fn clones_of<B: Clone + Drop>(alloc: Global, buffer: B) -> Result<Vec<B>, AllocError> {
    let mut clones = Vec::new(alloc);
    for _ in 0..PRODUCERS {
        clones.push(buffer.clone()?)?;
    }
    Ok(clones)
}

fn produce<R, L>(rt: &R, buffer: Front<L>) -> io::Result<u64>
where
    R: Wait + RandomSource + AllocGlobal,
    L: Latch<Mail>,
{
    sum_of(rt, buffer)
}

// Does one job after another, and returns the sum of their squares. All that is known of the service is
// that it is sound.
fn sum_of<R, B>(rt: &R, service: B) -> io::Result<u64>
where
    R: Wait + RandomSource + AllocGlobal,
    B: Service<Job, Response = u64>,
    requires { B.sound service }
{
    let mut service = Sealed::new(service);
    let mut waiter = Waiter::new(rt)?;
    let mut sum = 0u64;
    for number in 1..=JOBS {
        let job = Job {
            number,
            failures: 0,
        };
        if let Ok(square) = waiter.block_on_call(rt, &mut service, job)? {
            sum = sum.saturating_add(square);
        }
    }
    Ok(sum)
}
