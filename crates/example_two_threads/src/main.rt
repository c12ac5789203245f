//! Two threads, each of which makes a hundred calls to a clone of one limited stack.
#![tactic(auto)]

use futures::future::{Ready, ok};
use std::alloc::AllocGlobal;
use std::convert::Infallible;
use std::random::RandomSource;
use std::sync::Wait;
use std::sync::atomic::{AtomicU64, Ordering};
use std::{io, thread};
use tower::util::Sealed;
use tower::{BlockOnExt, Service, ServiceBuilder};

// Makes a hundred calls, and returns the sum of their answers. All that is known of the service is that it
// is sound, and the seal keeps it so through the loop.
fn hundred<S, R>(rt: &R, stack: S) -> io::Result<u64>
where
    S: Service<u64, Response = u64>,
    R: Wait + RandomSource + AllocGlobal,
    requires { S.sound stack }
{
    let mut stack = Sealed::new(stack);
    let mut sum = 0u64;
    for side in 0..100 {
        if let Ok(area) = stack.block_on_call(rt, side)? {
            sum = sum.saturating_add(area);
        }
    }
    Ok(sum)
}

fn main(rt: HostRuntime) -> io::Result<()> {
    let calls = AtomicU64::new(0);
    // At most one call is in flight, whichever clone makes it.
    let first = ServiceBuilder::new()
        .concurrency_limit(rt, rt.alloc(), 1)
        .service_fn(|side: u64| -> Ready<Result<u64, Infallible>> {
            calls.fetch_add(1, Ordering::SeqCst);
            ok(side.wrapping_mul(side))
        })?;
    let second = first.clone()?;
    let (first, second) = thread::join(&rt, || hundred(&rt, first), || hundred(&rt, second));
    println!(rt; "the first thread's sum: {}", first?)?;
    println!(rt; "the second thread's sum: {}", second?)?;
    println!(rt; "calls: {}", calls.load(Ordering::SeqCst))
}
