//! Ten requests to a stack of ten middleware, in one `main`.
#![tactic(auto)]

mod policy;
mod short;

use futures::future::{Ready, ready};
use policy::{Busy, TwoRetries};
use short::Short;
use std::cell::Cell;
use std::io;
use tower::retry::budget::TpsBudget;
use tower::service::SystemClock;
use tower::{BlockOnExt, ServiceBuilder};

// Squares a number, but fails at every third call.
fn square(calls: &Cell<u64>, side: u64) -> Result<u64, u64> {
    calls.set(calls.get().saturating_add(1));
    if calls.get() % 3 == 0 {
        Err(calls.get())
    } else {
        Ok(side.wrapping_mul(side))
    }
}

fn main(rt: HostRuntime) -> io::Result<()> {
    let alloc = rt.alloc();
    let calls = Cell::new(0);
    let budget = TpsBudget::with_clock(rt, alloc, SystemClock::new(rt)?)?;
    let mut stack = ServiceBuilder::new()
        .timeout(1_000_000_000, SystemClock::new(rt)?)
        .load_shed()
        .concurrency_limit(rt, alloc, 2)
        .rate_limit(alloc, 100, 1_000_000_000, SystemClock::new(rt)?)
        .filter(Short)
        .retry(TwoRetries::new(budget))
        .map_request(|side: u64| side.wrapping_add(1))
        .map_response(|square: u64| square / 2)
        .map_err(|call: u64| Busy(call))
        .then(|answer: Result<u64, u64>| -> Ready<Result<u64, u64>> {
            ready(answer.map(|square| square.wrapping_mul(2)))
        })
        .service_fn(|side: u64| -> Ready<Result<u64, u64>> { ready(square(&calls, side)) })?;
    for side in 0..10 {
        match stack.block_on_call(&rt, side)? {
            Ok(area) => println!(rt; "the area of {side} is {area}")?,
            Err(error) => println!(rt; "no answer for {side}: {error}")?,
        }
    }
    println!(rt; "inner calls: {}", calls.get())
}
