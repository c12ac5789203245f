//! A first stack: a service by a closure, under a timeout and a limit of one call at a time.
#![tactic(auto)]

use futures::future::{Ready, ok};
use std::convert::Infallible;
use std::io;
use tower::service::SystemClock;
use tower::{BlockOnExt, Refusal, ServiceBuilder, StackError};

fn main(rt: HostRuntime) -> io::Result<()> {
    // The layer that is added first is outermost.
    let mut stack = ServiceBuilder::new()
        .map_response(|square: u64| square / 2)
        .timeout(1_000_000_000, SystemClock::new(rt)?)
        .concurrency_limit(rt, rt.alloc(), 1)
        .service_fn(|side: u64| -> Ready<Result<u64, Infallible>> { ok(side.wrapping_mul(side)) })?;

    // Readiness, one call, and its response.
    match stack.block_on_call(&rt, 9)? {
        Ok(area) => println!(rt; "half of the square is {area}"),
        Err(error) if error.refusal() == Some(Refusal::Elapsed) => println!(rt; "too slow"),
        Err(error) => println!(rt; "no answer: {error}"),
    }
}
