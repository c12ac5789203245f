//! Buffers whose workers are tasks of one set, and threads that call. Several threads run the tasks.
//!
//! The check covers threads that take a buffer over any latch, if the service's response type has no
//! parameter. So the mail is made in `main`.

use crate::jobs::{Answer, Job, Searcher, Unfinished};
use crate::policy::GoesOn;
use futures::executor::TaskSet;
use futures::future::{Future, Ready};
use futures::task::Doorbell;
use std::alloc::{AllocError, AllocGlobal, Global};
use std::fmt::Display;
use std::io::{self, Eprint};
use std::random::RandomSource;
use std::sync::Wait;
use std::sync::atomic::{AtomicU64, Ordering};
use std::thread;
use std::thread::Threads;
use tower::Service;
use tower::buffer::{Buffer, MailCore, Worker};
use tower::latch::Latch;
use tower::latch::held::Pollable;
use tower::retry::future::ResponseFuture;
use tower::retry::{self, Retry};
use tower::util::{Sealed, Waiter};

type Slice = Ready<Result<u64, Unfinished>>;

type Search = ResponseFuture<GoesOn, Searcher, Job, Slice, Ready<()>>;

type Failure = retry::Error<Unfinished>;

/// The mail of one worker: its jobs.
pub type Mail = MailCore<Job, Pollable<Search>, Failure>;

type Front<L> = Buffer<Job, Search, Failure, L>;

type Back<L> = Worker<Retry<GoesOn, Searcher>, Job, Search, Failure, L>;

/// Returns the answer to each line, in the order of the lines. Each mail has a worker and a thread that
/// calls.
pub fn answers<R, L>(
    rt: &R,
    mails: Vec<L>,
    lines: Vec<Option<Job>>,
    shows_progress: bool,
) -> io::Result<Vec<Answer>>
where
    R: Threads + Wait + RandomSource + AllocGlobal + Eprint + Sync,
    L: Latch<Mail> + Send,
{
    let mut answers = Vec::new(rt.alloc());
    for line in 1..=lines.len() {
        answers.push(Answer::Wrong { line })?;
    }
    let desk = Desk {
        lines,
        taken: AtomicU64::new(0),
        done: AtomicU64::new(0),
        shows_progress,
    };
    for told in gathered(rt, &desk, mails)? {
        for (place, answer) in told? {
            if let Some(slot) = answers.get_mut(place) {
                *slot = answer;
            }
        }
    }
    if shows_progress {
        eprintln!(rt)?;
    }
    Ok(answers)
}

// The outcome of a thread that calls: the place of each line that it took, with its answer.
type Told = io::Result<Vec<(usize, Answer)>>;

// The state that the callers share.
#[derive(Drop)]
struct Desk {
    lines: Vec<Option<Job>>,
    taken: AtomicU64,
    done: AtomicU64,
    shows_progress: bool,
}

// Places a buffer before each worker, and runs them. All are passed on, since the check doesn't cover a
// drop of either at a type that has a parameter.
fn gathered<R, L>(rt: &R, desk: &Desk, mails: Vec<L>) -> io::Result<Vec<Told>>
where
    R: Threads + Wait + RandomSource + AllocGlobal + Eprint + Sync,
    L: Latch<Mail> + Send,
{
    let mut crew = Crew::new(rt, mails.len())?;
    for mail in mails {
        match Buffer::with_latch(mail, Retry::new(GoesOn::new(), Searcher)) {
            Ok((buffer, worker)) => crew.add(buffer, worker),
            Err(AllocError) => crew.lacks_memory = true,
        }
    }
    match crew.complete() {
        Ok((callers, workers)) => run(rt, desk, callers, workers),
        Err(AllocError) => Err(AllocError.into()),
    }
}

// The callers, and the set of the workers of their buffers.
#[derive(Drop)]
struct Crew<C, W: Future<Output = ()>> {
    callers: Vec<C>,
    workers: TaskSet<W>,
    lacks_memory: bool,
}

impl<C: Drop, W: Future<Output = ()> + Drop> Crew<C, W> {
    fn new<R: RandomSource + AllocGlobal>(rt: &R, threads: usize) -> io::Result<Crew<C, W>> {
        Ok(Crew {
            callers: Vec::new(rt.alloc()),
            workers: TaskSet::new(rt, Doorbell::parking(), threads)?,
            lacks_memory: false,
        })
    }

    fn add(&mut self, caller: C, worker: W)
        requires { W.can_poll worker }
    {
        if self.workers.spawn(worker).is_err() || self.callers.push(caller).is_err() {
            self.lacks_memory = true;
        }
    }

    fn complete(self) -> Result<(Vec<C>, TaskSet<W>), AllocError> {
        let Crew {
            callers,
            workers,
            lacks_memory,
        } = self;
        if lacks_memory {
            return Err(AllocError);
        }
        Ok((callers, workers))
    }
}

// Gives each caller a thread, and has as many threads run the tasks, until no buffer is left.
fn run<R, L>(
    rt: &R,
    desk: &Desk,
    callers: Vec<Front<L>>,
    workers: TaskSet<Back<L>>,
) -> io::Result<Vec<Told>>
where
    R: Threads + Wait + RandomSource + AllocGlobal + Eprint + Sync,
    L: Latch<Mail> + Send,
{
    let threads = callers.len();
    let (told, worked) = thread::join(
        rt,
        || call_all(rt, desk, callers),
        || work_all(rt, &workers, threads),
    );
    let_go(workers);
    worked?;
    Ok(told?)
}

fn let_go<T: Drop>(_value: T) {}

fn work_all<R, L>(rt: &R, workers: &TaskSet<Back<L>>, threads: usize) -> Result<Vec<()>, AllocError>
where
    R: Threads + Wait + AllocGlobal + Sync,
    L: Latch<Mail> + Send,
{
    thread::map_indices(rt, rt.alloc(), threads, &|thread| workers.work(rt, thread))
}

fn call_all<R, L>(rt: &R, desk: &Desk, callers: Vec<Front<L>>) -> Result<Vec<Told>, AllocError>
where
    R: Threads + Wait + RandomSource + AllocGlobal + Eprint + Sync,
    L: Latch<Mail> + Send,
{
    thread::map_vec(rt, callers, &|buffer| call(rt, desk, buffer))
}

fn call<R, L>(rt: &R, desk: &Desk, buffer: Front<L>) -> Told
where
    R: Wait + RandomSource + AllocGlobal + Eprint,
    L: Latch<Mail>,
{
    ask(rt, desk, buffer)
}

// Takes one line after another, and calls the service with its job. All that is known of the service is
// that it is sound.
fn ask<R, B>(rt: &R, desk: &Desk, buffer: B) -> Told
where
    R: Wait + RandomSource + AllocGlobal + Eprint,
    B: Service<Job, Response = u64>,
    B::Error: Display,
    requires { B.sound buffer }
{
    let mut buffer = Sealed::new(buffer);
    let mut waiter = Waiter::new(rt)?;
    let mut told = Vec::new(rt.alloc());
    for _ in 0..desk.lines.len() {
        let place = desk.take();
        let Some(line) = desk.lines.get(place) else {
            break;
        };
        if let Some(job) = line {
            let answer = waiter.block_on_call(rt, &mut buffer, *job)?;
            told.push((place, answer_of(rt.alloc(), job.number, answer)?))?;
        }
        desk.tell(rt);
    }
    Ok(told)
}

fn answer_of<E: Display + Drop>(
    alloc: Global,
    number: u64,
    answer: Result<u64, E>,
) -> io::Result<Answer> {
    match answer {
        Ok(factor) => Ok(Answer::Factor { number, factor }),
        Err(error) => {
            let reason = format!(in alloc; "{error}")?;
            Ok(Answer::Failed { number, reason })
        }
    }
}

impl Desk {
    // Returns the next line's place, or one without a line if there are no more.
    fn take(&self) -> usize {
        let place = self.taken.fetch_add(1, Ordering::SeqCst);
        usize::try_from(place).unwrap_or(usize::MAX)
    }

    // Reports that one more line is done.
    fn tell<R: Eprint>(&self, rt: &R) {
        let done = self.done.fetch_add(1, Ordering::SeqCst).saturating_add(1);
        if self.shows_progress {
            let _ = eprint!(rt; "\r{done} of {}", self.lines.len());
        }
    }
}
