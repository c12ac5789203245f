//! One stack and ten requests: readiness, a call and its response, again and again.
#![tactic(auto)]

mod policy;

use futures::future::{Ready, ready};
use policy::{Busy, TwoRetries};
use std::cell::Cell;
use std::io;
use tower::retry::budget::TpsBudget;
use tower::service::SystemClock;
use tower::{BlockOnExt, ServiceBuilder};

// Squares a number, but fails at every third call.
fn square(calls: &Cell<u64>, side: u64) -> Result<u64, Busy> {
    calls.set(calls.get().saturating_add(1));
    if calls.get() % 3 == 0 {
        Err(Busy)
    } else {
        Ok(side.wrapping_mul(side))
    }
}

fn main(rt: HostRuntime) -> io::Result<()> {
    let alloc = rt.alloc();
    let calls = Cell::new(0);
    let budget = TpsBudget::with_clock(rt, alloc, SystemClock::new(rt)?)?;
    let mut stack = ServiceBuilder::new()
        .concurrency_limit(rt, alloc, 1)
        .timeout(1_000_000_000, SystemClock::new(rt)?)
        .retry(TwoRetries::new(budget))
        .service_fn(|side: u64| -> Ready<Result<u64, Busy>> { ready(square(&calls, side)) })?;
    for side in 0..10 {
        match stack.block_on_call(&rt, side)? {
            Ok(area) => println!(rt; "the square of {side} is {area}")?,
            Err(error) => println!(rt; "no answer for {side}: {error}")?,
        }
    }
    println!(rt; "inner calls: {}", calls.get())
}
