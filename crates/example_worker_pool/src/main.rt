//! A pool of workers: the smallest prime factor of each number on standard input, in the order of the input.
#![tactic(auto)]

mod jobs;
mod policy;
mod pool;

use jobs::{Answer, read_lines};
use pool::answers;
use std::io::{self, IsTerminal};
use tower::buffer::MailCore;
use tower::latch::Guarded;

/// The number of buffers, each with its worker.
const WORKERS: usize = 4;

fn main(rt: HostRuntime) -> io::Result<()> {
    let lines = read_lines(rt.alloc(), rt.stdin())?;
    let shows_progress = rt.stderr().is_terminal();
    let mut is_complete = true;
    let mut mails = Vec::new(rt.alloc());
    for _ in 0..WORKERS {
        mails.push(Guarded::new(rt, rt.alloc(), MailCore::new(rt.alloc(), 1))?)?;
    }
    for answer in answers(&rt, mails, lines, shows_progress)? {
        println!(rt; "{answer}")?;
        is_complete = is_complete && matches!(answer, Answer::Factor { .. });
    }
    if is_complete {
        Ok(())
    } else {
        Err(io::Error::other("a line has no answer"))
    }
}
