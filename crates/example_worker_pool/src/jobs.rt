//! Jobs: how they are read, done and answered.
ghost use Rattle.std.specs.Prelude.{◌≤◌};

use futures::future::{Ready, ready};
use futures::task::{Context, Poll};
use std::alloc::Global;
use std::fmt::{self, Display};
use std::io::{self, BufRead, BufReader, Read};
use std::str;
use tower::Service;

/// The number of divisors that are tried in one call.
const SLICE: u64 = 100_000;

/// A number, and the divisor from which the search for a factor goes on.
#[derive(Clone, Copy, Debug)]
pub struct Job {
    pub number: u64,
    pub from: u64,
    ghost begins: { 2 ≤ from },
}

/// The error of a search that has found no factor yet, with the job that is left.
#[derive(Clone, Copy, Debug)]
pub struct Unfinished {
    pub rest: Job,
}

impl Display for Unfinished {
    fn fmt<W: fmt::Write>(&self, f: &mut fmt::Formatter<W>) -> fmt::Result {
        write!(f, "no factor below {}", self.rest.from)
    }
}

/// Returns the smallest prime factor if the next divisors determine it, and `Unfinished` if not.
pub fn search(job: Job) -> Result<u64, Unfinished> {
    let next = job.from.saturating_add(SLICE);
    for divisor in job.from..next {
        if job.number % divisor == 0 {
            return Ok(divisor);
        }
        if divisor > job.number / divisor {
            return Ok(job.number);
        }
    }
    let rest = Job {
        number: job.number,
        from: next,
    };
    Err(Unfinished { rest })
}

/// A service that searches among a job's next divisors at each call.
#[derive(Clone, Copy, Debug)]
pub struct Searcher;

impl Service<Job> for Searcher {
    type Response = u64;

    type Error = Unfinished;

    type Future = Ready<Result<u64, Unfinished>>;

    // It may always be called.
    ghost readies = { λ _ _ _. tt };

    fn poll_ready(&mut self, _cx: &mut Context<'_>) -> Poll<Result<(), Unfinished>> {
        Poll::Ready(Ok(()))
    }

    fn call(&mut self, job: Job) -> Self::Future {
        ready(search(job))
    }
}

/// Reads the job of each line. It is `None` if the line isn't a number from 2 on.
pub fn read_lines<R: Read + Drop>(alloc: Global, reader: R) -> io::Result<Vec<Option<Job>>> {
    let mut lines = Vec::new(alloc);
    for line in BufReader::new(alloc, reader)?.split(alloc, b'\n') {
        lines.push(job_of(line?.as_slice()))?;
    }
    Ok(lines)
}

fn job_of(line: &[u8]) -> Option<Job> {
    let number: u64 = str::from_utf8(line).ok()?.trim().parse().ok()?;
    if number < 2 {
        return None;
    }
    Some(Job { number, from: 2 })
}

/// The answer to a line.
#[derive(Debug, Drop)]
pub enum Answer {
    /// The number and its smallest prime factor.
    Factor { number: u64, factor: u64 },
    /// The number and why it has no answer.
    Failed { number: u64, reason: String },
    /// The line of this number, counted from 1, isn't a job.
    Wrong { line: usize },
}

impl Display for Answer {
    fn fmt<W: fmt::Write>(&self, f: &mut fmt::Formatter<W>) -> fmt::Result {
        match self {
            Answer::Factor { number, factor } => write!(f, "{number}: {factor}"),
            Answer::Failed { number, reason } => write!(f, "{number}: {reason}"),
            Answer::Wrong { line } => write!(f, "line {line}: not a number from 2 on"),
        }
    }
}
