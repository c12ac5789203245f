//! Copies lines through a rate limit and a timeout.

use crate::fault::Fault;
use crate::lines::Lines;
use crate::pace::Pace;
use crate::writing::{CannotWrite, Writing};
use std::alloc::AllocGlobal;
use std::cell::RefCell;
use std::io::{Read, Write};
use std::random::RandomSource;
use std::sync::Wait;
use tower::Service;
use tower::limit::rate::{Rate, RateLimit};
use tower::service::Clock;
use tower::timeout::{Error, Timeout};
use tower::util::Waiter;

/// How many nanoseconds a write may take.
const WRITE_TIME: u64 = 10_000_000_000;

/// Where lines come from and go to, and where faults and the progress are shown.
#[derive(Drop)]
pub struct Console<R, W, E> {
    pub reader: R,
    pub out: W,
    pub err: E,
    pub shows_progress: bool,
}

/// Runs the program, and returns its status. `words` are the arguments after its name.
pub fn run<H, R, W, E, C>(rt: &H, words: &[String], console: Console<R, W, E>, clock: C) -> u8
where
    H: Wait + RandomSource + AllocGlobal,
    R: Read + Drop,
    W: Write + Drop,
    E: Write + Drop,
    C: Clock,
{
    let Console {
        reader,
        out,
        mut err,
        shows_progress,
    } = console;
    let Some(pace) = Pace::of(words) else {
        return report(Fault::Usage, err);
    };
    let out = RefCell::new(out);
    let writing = Timeout::new(Writing { out: &out }, WRITE_TIME, clock.share());
    let rate = Rate::new(pace.lines, pace.period);
    let Ok(service) = RateLimit::new(rt.alloc(), writing, rate, clock) else {
        return report(Fault::Memory, err);
    };
    let lines = match Lines::new(rt.alloc(), reader) {
        Ok(lines) => lines,
        Err(fault) => return report(fault, err),
    };
    match copy(rt, service, lines, &mut err, shows_progress) {
        Ok(()) => 0,
        Err(fault) => report(fault, err),
    }
}

/// Writes the fault's line, and returns its status even if the line can't be written.
pub fn report<E: Write + Drop>(fault: Fault, mut err: E) -> u8 {
    let _ = writeln!(err, "{fault}");
    fault.status()
}

// Copies the lines, each once the service is ready for it. One waiter waits for all of them.
fn copy<H, S, R, E>(
    rt: &H,
    mut service: S,
    mut lines: Lines<R>,
    err: &mut E,
    shows_progress: bool,
) -> Result<(), Fault>
where
    H: Wait + RandomSource + AllocGlobal,
    S: Service<Vec<u8>, Response = (), Error = Error<CannotWrite>>,
    R: Read + Drop,
    E: Write,
    requires { S.sound service }
{
    let mut waiter = Waiter::new(rt).map_err(|_| Fault::Memory)?;
    for count in 1..u64::MAX {
        let Some(line) = lines.next_line()? else {
            break;
        };
        match waiter.block_on_call(rt, &mut service, line) {
            Ok(Ok(())) => {}
            Ok(Err(Error::Inner(CannotWrite))) => return Err(Fault::CannotWrite),
            Ok(Err(Error::Elapsed)) => return Err(Fault::TimedOut),
            Err(_) => return Err(Fault::Memory),
        }
        if shows_progress {
            let _ = write!(err, "\r{count} lines");
        }
    }
    if shows_progress {
        let _ = writeln!(err);
    }
    Ok(())
}
