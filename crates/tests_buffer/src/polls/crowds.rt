//! Polls of a crowd of tasks, each of which makes one call of a clone of one service.
ghost use Rattle.std.specs.Prelude.{◌≡◌};

use crate::polls::tasks::{Answered, Counted, LATE};
use futures::executor::{LocalPool, LocalSpawner};
use futures::future::{Either, Future, ready};
use futures::task::Doorbell;
use std::alloc::{AllocError, AllocGlobal};
use std::cell::Cell;
use std::io;
use std::random::RandomSource;
use std::sync::Wait;
use tower::util::Oneshot;
use tower_base::service::Service;
use tower_buffer::buffer::{Buffer, MailCore};
use tower_latch::held::Pollable;
use tower_latch::{Guarded, Latch};
use tower_limit::limit::ConcurrencyLimit;

/// How often the tasks that call were polled, and how often the worker, and how many answers came.
#[derive(Clone, Copy)]
pub struct Polls {
    pub callers: u64,
    pub worker: u64,
    pub answers: u64,
}

/// How long a task waits for its answer.
#[derive(Clone, Copy)]
pub enum Patience {
    /// It stays.
    Endless,
    /// It leaves at the poll after so many.
    Polls(u64),
    /// It drops a response that is pending in the poll of its call.
    Call,
}

impl Patience {
    // Returns after how many polls the task leaves.
    fn polls(self) -> u64 {
        match self {
            Patience::Polls(polls) => polls,
            _ => u64::MAX,
        }
    }

    // Returns whether the task waits for a response that is pending in the poll of its call.
    fn waits(self) -> bool {
        !matches!(self, Patience::Call)
    }
}

/// A crowd of tasks, every other of which has this patience. The others stay.
#[derive(Clone, Copy)]
pub struct Crowd {
    pub tasks: u64,
    pub patience: Patience,
}

impl Crowd {
    /// A crowd in which each task stays.
    pub fn staying(tasks: u64) -> Crowd {
        Crowd {
            tasks,
            patience: Patience::Endless,
        }
    }

    // Returns the patience of the task of this number.
    fn patience_of(self, number: u64) -> Patience {
        if number % 2 == 1 {
            return self.patience;
        }
        Patience::Endless
    }
}

/// Lets a crowd call through a limit of `max`, whose responses are pending once.
pub fn limited<R>(rt: R, max: usize, crowd: Crowd) -> io::Result<Polls>
where
    R: Wait + RandomSource + AllocGlobal + Copy,
{
    let limit = ConcurrencyLimit::new(rt, rt.alloc(), LATE, max)?;
    called(rt, limit, ready(()), crowd)
}

/// Lets a crowd call through a buffer of `bound` places, of one at least, over the service, whose type is
/// a parameter here, since the check refuses a buffer that is made over a concrete stack.
pub fn buffered<R, S>(rt: R, service: S, bound: usize, crowd: Crowd) -> io::Result<Polls>
where
    R: Wait + RandomSource + AllocGlobal + Copy,
    S: Service<u64, Response = u64>,
    S::Error: Clone,
    requires sound { S.sound service }
    requires same { (x y : S.Error) → S.Error.is_clone x y → y ≡ x }
{
    let mail = Guarded::new(rt, rt.alloc(), MailCore::new(rt.alloc(), bound.max(1)))?;
    queued(rt, mail, service, crowd)
}

// Lets a crowd call through a buffer over any latch.
fn queued<R, L, S>(rt: R, mail: L, service: S, crowd: Crowd) -> io::Result<Polls>
where
    R: Wait + RandomSource + AllocGlobal + Copy,
    L: Latch<MailCore<u64, Pollable<S::Future>, S::Error>>,
    S: Service<u64, Response = u64>,
    S::Error: Clone,
    requires { S.sound service }
{
    match Buffer::with_latch(mail, service) {
        Ok((buffer, worker)) => called(rt, buffer, worker, crowd),
        Err(AllocError) => Err(AllocError.into()),
    }
}

// The counts of a crowd, which its tasks share.
#[derive(Drop)]
struct Counts {
    callers: Cell<u64>,
    worker: Cell<u64>,
    answers: Cell<u64>,
}

// A task of the pool: the worker, or a caller.
type Task<'a, W, S> = Either<
    Counted<W, &'a Cell<u64>>,
    Counted<Oneshot<Answered<'a, S>, u64>, &'a Cell<u64>>,
>;

// Runs the worker and the crowd in one pool, until each task has its answer or has left.
fn called<R, W, S>(rt: R, service: S, worker: W, crowd: Crowd) -> io::Result<Polls>
where
    R: Wait + RandomSource + AllocGlobal + Copy,
    W: Future<Output = ()> + Drop,
    S: Service<u64> + Clone + Drop,
    requires sound { S.sound service }
    requires clones { (x y : S) → S.is_clone x y → S.sound x → S.sound y }
    requires can_poll { W.can_poll worker }
{
    let counts = Counts {
        callers: Cell::new(0),
        worker: Cell::new(0),
        answers: Cell::new(0),
    };
    let mut pool = LocalPool::with_doorbell(&rt, Doorbell::parking())?;
    spawn_all(&pool.spawner()?, service, worker, crowd, &counts)?;
    pool.run(&rt);
    Ok(Polls {
        callers: counts.callers.get(),
        worker: counts.worker.get(),
        answers: counts.answers.get(),
    })
}

// Spawns the worker and the callers.
fn spawn_all<'a, W, S>(
    spawner: &LocalSpawner<Task<'a, W, S>>,
    service: S,
    worker: W,
    crowd: Crowd,
    counts: &'a Counts,
) -> Result<(), AllocError>
where
    W: Future<Output = ()> + Drop,
    S: Service<u64> + Clone + Drop,
    requires sound { S.sound service }
    requires clones { (x y : S) → S.is_clone x y → S.sound x → S.sound y }
    requires can_poll { W.can_poll worker }
{
    let worker = Counted::new(worker, &counts.worker, u64::MAX);
    if spawner.spawn(Either::Left(worker)).is_err() {
        return Err(AllocError);
    }
    for number in 0..crowd.tasks {
        spawn_caller(
            spawner,
            service.clone()?,
            number,
            crowd.patience_of(number),
            counts,
        );
    }
    Ok(())
}

// Spawns a task that makes one call.
fn spawn_caller<'a, W, S>(
    spawner: &LocalSpawner<Task<'a, W, S>>,
    service: S,
    number: u64,
    patience: Patience,
    counts: &'a Counts,
)
where
    W: Future<Output = ()> + Drop,
    S: Service<u64> + Drop,
    requires { S.sound service }
{
    let asked = Answered::new(service, &counts.answers, patience.waits());
    let caller = Counted::new(
        Oneshot::new(asked, number),
        &counts.callers,
        patience.polls(),
    );
    let _refused = spawner.spawn(Either::Right(caller));
}
