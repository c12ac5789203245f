//! A storm: many threads that take and release the permits of one semaphore.
ghost use Rattle.std.specs.Prelude.{◌≡◌, ℕ, ◌*◌, ◌≤◌, All, IfOk, MatchOption, vec_len};
ghost use Rattle.std.specs.Vec.{vec_capacity};
ghost use Rattle.tower_run.specs.Storm.{Fits, AreWritten};

use crate::fault::Fault;
use crate::rounds::Rounds;
use crate::script::read_number;
use futures::future::Future;
use futures::task::{Context, Poll};
use std::alloc::{AllocError, AllocGlobal};
use std::fmt::Display;
use std::random::RandomSource;
use std::sync::Wait;
use std::thread::{Promise, PromisedHandle, Threads};
use std::{fmt, thread};
use tower::util::Waiter;
use tower_latch::Latch;
use tower_limit::limit::concurrency::{LineCore, Permit, PollSemaphore, Semaphore};

const MAX_THREADS: u64 = 64;

const MAX_ROUNDS: u64 = 1_000_000;

const MAX_PERMITS: u64 = 1_000_000;

/// How many threads there are, how many rounds each of them makes, and how many permits they share.
#[derive(Clone, Copy)]
pub struct Storm {
    pub threads: u64,
    pub rounds: u64,
    pub permits: u64,
    ghost fits: { Fits threads rounds permits },
}

/// What a thread does in each round while it holds its permit.
pub trait Gate {
    /// Passes the gate in this round of this thread. Both are counted from 0.
    fn enter(&self, thread: u64, round: u64);
}

/// The gate of the program, which does nothing.
#[derive(Clone, Copy)]
pub struct Open;

impl Gate for Open {
    fn enter(&self, _thread: u64, _round: u64) {}
}

/// What a storm reports: how many threads it had, how many rounds they made, and how many of the permits are
/// free in the end.
#[derive(Drop)]
pub struct Report {
    pub threads: u64,
    pub rounds: Rounds,
    pub free: usize,
    pub permits: u64,
}

impl Display for Report {
    fn fmt<W: fmt::Write>(&self, f: &mut fmt::Formatter<W>) -> fmt::Result {
        let Report {
            threads,
            rounds,
            free,
            permits,
        } = self;
        write!(
            f,
            "threads {threads} rounds {rounds} free {free} of {permits}"
        )
    }
}

impl Storm {
    /// Reads the three numbers. Returns `None` if a number isn't written as a script's numbers are, or
    /// isn't within its bounds: 1 to 64 threads, 0 to 1000000 rounds, 1 to 1000000 permits.
    pub fn parse(threads: &str, rounds: &str, permits: &str) -> Option<Storm>
        ensures { MatchOption result
            ((t r p : ℕ) → Fits t r p → ¬ AreWritten threads.now rounds.now permits.now t r p)
            (λ s. AreWritten threads.now rounds.now permits.now s.threads s.rounds s.permits) }
    {
        let threads = read_number(threads.as_bytes())?;
        let rounds = read_number(rounds.as_bytes())?;
        let permits = read_number(permits.as_bytes())?;
        let fits = (1..=MAX_THREADS).contains(&threads)
            && rounds <= MAX_ROUNDS
            && (1..=MAX_PERMITS).contains(&permits);
        if !fits {
            return None;
        }
        Some(Storm {
            threads,
            rounds,
            permits,
        })
    }

    /// Runs the storm, joins every thread, and returns its report.
    ///
    /// If a thread can't be started, the started ones end first, and the fault is `CannotStart`. If
    /// allocation fails in any of them, or in this one, or one gets no random number, the fault is `Memory`.
    pub fn run<H, G>(self, rt: &H, gate: &G) -> Result<Report, Fault>
    where
        H: Threads + Wait + RandomSource + AllocGlobal + Copy + Send + Drop + 'static,
        G: Gate + Clone + Send + Drop + 'static,
        ensures threads { IfOk result (λ report. report.threads ≡ self.threads) }
        ensures rounds { IfOk result (λ report. report.rounds ≡ self.threads * self.rounds) }
        ensures permits { IfOk result (λ report. report.permits ≡ self.permits) }
    {
        let alloc = rt.alloc();
        let semaphore = Semaphore::new(*rt, alloc, self.permits as usize).map_err(
            |_| Fault::Memory,
        )?;
        let handles = Vec::with_capacity(alloc, self.threads as usize).map_err(|_| Fault::Memory)?;
        let mut crew = Crew {
            storm: self,
            handles,
        };
        let started = crew.start(rt, &semaphore, gate);
        let joined = crew.join(rt);
        started?;
        let rounds = joined.map_err(|_| Fault::Memory)?;
        Ok(Report {
            threads: self.threads,
            rounds,
            free: semaphore.available_permits(),
            permits: self.permits,
        })
    }
}

// The rounds that a thread promises, unless memory is refused.
#[derive(Clone, Copy)]
struct Promised(u64);

impl Promise<Result<Rounds, AllocError>> for Promised {
    ghost kept_by = { λ promised made. IfOk made (λ rounds. rounds ≡ promised.0) };
}

// The threads of a storm that were started. This type has no `Drop`: it must end in `join`, on each way out of a storm.
struct Crew {
    storm: Storm,
    handles: Vec<PromisedHandle<Result<Rounds, AllocError>, Promised>>,
    ghost few: { vec_len handles ≤ storm.threads },
    ghost room: { storm.threads ≤ vec_capacity handles },
    ghost each: { All (λ handle. handle.promise.0 ≡ storm.rounds) handles.items },
}

impl Crew {
    // Starts all threads, or those before the first that can't be started.
    fn start<H, L, G>(&mut self, rt: &H, semaphore: &Semaphore<L>, gate: &G) -> Result<(), Fault>
    where
        H: Threads + Wait + RandomSource + AllocGlobal + Copy + Send + Drop + 'static,
        L: Latch<LineCore> + Send + 'static,
        G: Gate + Clone + Send + Drop + 'static,
        requires { vec_len self.old.handles ≡ 0 }
        ensures same { self.new.storm ≡ self.old.storm }
        ensures all { IfOk result (λ _. vec_len self.new.handles ≡ self.old.storm.threads) }
    {
        for thread in 0..self.storm.threads {
            let handle = start_thread(rt, semaphore, gate, thread, self.storm.rounds)?;
            self.handles.push_reserved(handle);
        }
        Ok(())
    }

    // Joins every thread, and returns the rounds of all. Returns an error if memory was refused to one of them.
    fn join<H: Threads>(self, rt: &H) -> Result<Rounds, AllocError>
        ensures { IfOk result (λ rounds. rounds ≡ vec_len self.handles * self.storm.rounds) }
    {
        let Crew { storm: _, handles } = self;
        let mut all = Ok(Rounds::none());
        for handle in handles {
            all = match (all, handle.join(rt)) {
                (Ok(rounds), Ok(others)) => Ok(rounds.and(others)),
                _ => Err(AllocError),
            };
        }
        all
    }
}

// Starts the thread of this number.
fn start_thread<H, L, G>(
    rt: &H,
    semaphore: &Semaphore<L>,
    gate: &G,
    thread: u64,
    count: u64,
) -> Result<PromisedHandle<Result<Rounds, AllocError>, Promised>, Fault>
where
    H: Threads + Wait + RandomSource + AllocGlobal + Copy + Send + Drop + 'static,
    L: Latch<LineCore> + Send + 'static,
    G: Gate + Clone + Send + Drop + 'static,
    ensures { IfOk result (λ handle. handle.promise.0 ≡ count) }
{
    let semaphore = semaphore.share().map_err(|_| Fault::Memory)?;
    let gate = gate.clone().map_err(|_| Fault::Memory)?;
    let rt = *rt;
    thread::spawn_with(
        &rt,
        Promised(count),
        move || rounds(&rt, semaphore, &gate, thread, count),
    )
    .map_err(|_| Fault::CannotStart)
}

// Makes the rounds of one thread, which sleeps while it waits. Returns how many it made.
fn rounds<H, L, G>(
    rt: &H,
    semaphore: Semaphore<L>,
    gate: &G,
    thread: u64,
    count: u64,
) -> Result<Rounds, AllocError>
where
    H: Wait + RandomSource + AllocGlobal,
    L: Latch<LineCore>,
    G: Gate,
    ensures { IfOk result (λ rounds. rounds ≡ count) }
{
    let Ok(mut waiter) = Waiter::new(rt) else {
        return Err(AllocError);
    };
    let mut made = Rounds::none();
    for round in 0..count {
        let asking = PollSemaphore::new(semaphore.share()?);
        let Ok(acquired) = waiter.block_on(rt, Acquire { asking }) else {
            return Err(AllocError);
        };
        let permit = acquired?;
        gate.enter(thread, round);
        made.count(permit);
    }
    Ok(made)
}

// A future of a permit.
#[derive(Drop)]
struct Acquire<L: Latch<LineCore>> {
    asking: PollSemaphore<L>,
}

impl<L: Latch<LineCore>> Future for Acquire<L> {
    type Output = Result<Permit<L>, AllocError>;

    fn poll(&mut self, cx: &mut Context<'_>) -> Poll<Result<Permit<L>, AllocError>> {
        self.asking.poll_acquire(cx)
    }
}
