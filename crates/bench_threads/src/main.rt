//! `bench-threads N T`: N calls of T threads, behind a lock, through one, two and four buffers of 64, without a
//! limit and through one of one, two and eight calls, and of a retry budget.
//!
//! Each buffer has its share of the callers, and its worker is a task of a pool in a thread of its own.
#![tactic(auto)]

mod echo;
mod limited;
mod locked;
mod paid;
mod queued;

use std::alloc::AllocGlobal;
use std::random::RandomSource;
use std::rt::{Clock, Env};
use std::sync::Wait;
use std::thread::Threads;
use std::time::Instant;
use std::{env, io};
use tower::buffer::MailCore;
use tower::latch::Guarded;
use tower::limit::concurrency::LineCore;
use tower::retry::budget::TpsBudget;
use tower::service::SystemClock;

fn main(rt: HostRuntime) -> io::Result<()> {
    let words: Vec<String> = env::args(&rt)?.skip(1).collect(rt.alloc())?;
    if let [count, callers] = words.as_slice() {
        if let (Ok(count), Ok(callers)) = (count.parse::<u64>(), callers.parse::<usize>()) {
            if let Some(each) = count.checked_div(callers as u64) {
                return all(rt, callers, each);
            }
        }
    }
    println!(rt; "usage: bench-threads N T")
}

// Prints the time of each line, with so many calls for each caller.
fn all<R>(rt: R, callers: usize, each: u64) -> io::Result<()>
where
    R: Threads + Wait + RandomSource + AllocGlobal + Clock + Print + Copy + Send + Sync,
{
    let start = Instant::now(&rt)?;
    let sum = locked::sum(&rt, callers, each)?;
    println!(rt; "lock: sum {sum}, {} us", micros(&rt, start)?)?;
    for buffers in [1usize, 2, 4] {
        let share = callers.checked_div(buffers).unwrap_or(0);
        if share > 0 {
            let start = Instant::now(&rt)?;
            let mut mails = Vec::new(rt.alloc());
            for _ in 0..buffers {
                mails.push(Guarded::new(rt, rt.alloc(), MailCore::new(rt.alloc(), 64))?)?;
            }
            let sum = queued::sum(&rt, mails, share, each)?;
            println!(rt; "{buffers} of 64: sum {sum}, {} us", micros(&rt, start)?)?;
        }
    }
    let start = Instant::now(&rt)?;
    let sum = limited::alone(&rt, callers, each)?;
    println!(rt; "no limit: sum {sum}, {} us", micros(&rt, start)?)?;
    for max in [1, 2, 8] {
        let line = Guarded::new(rt, rt.alloc(), LineCore::new(rt.alloc(), max))?;
        let start = Instant::now(&rt)?;
        let sum = limited::sum(&rt, line, max, callers, each)?;
        println!(rt; "a limit of {max}: sum {sum}, {} us", micros(&rt, start)?)?;
    }
    let budget = TpsBudget::with_clock(rt, rt.alloc(), SystemClock::new(rt)?)?;
    let start = Instant::now(&rt)?;
    let sum = paid::sum(&rt, budget, callers, each)?;
    println!(rt; "a budget: sum {sum}, {} us", micros(&rt, start)?)
}

fn micros<R: Clock>(rt: &R, start: Instant) -> io::Result<u128> {
    Ok(start.elapsed(rt)?.as_micros())
}
