//! A client that retries failed requests, after a wait that doubles, while a budget pays for it.
#![tactic(auto)]

mod policy;

use futures::future::{Ready, ready};
use policy::{Failure, Patient};
use std::cell::Cell;
use std::io;
use tower::retry::backoff::{ExponentialBackoffMaker, MakeBackoff};
use tower::retry::budget::TpsBudget;
use tower::service::{Fraction, SystemClock};
use tower::{BlockOnExt, ServiceBuilder};

/// Attempts to fetch a page from a flaky server, which is busy at every third attempt and at each from the
/// ninth on. Prints each attempt.
fn fetch<R: Print>(rt: &R, attempts: &Cell<u64>, page: u64) -> Result<u64, Failure> {
    let attempt = attempts.get().saturating_add(1);
    attempts.set(attempt);
    if attempt % 3 == 0 || attempt > 8 {
        let _ = println!(rt; "  attempt {attempt}: busy");
        return Err(Failure::Busy);
    }
    let _ = println!(rt; "  attempt {attempt}: done");
    Ok(page.saturating_mul(1000))
}

fn main(rt: HostRuntime) -> io::Result<()> {
    let (alloc, attempts) = (rt.alloc(), Cell::new(0));
    // For a minute each success pays for half a retry. Nothing else pays.
    let clock = SystemClock::new(rt)?;
    let budget = TpsBudget::new(rt, alloc, 60_000_000_000, 0, Fraction::new(1, 2), clock)?;
    // The first wait is 50 milliseconds, and each later one is twice as long.
    let mut waits = ExponentialBackoffMaker::with_clock(SystemClock::new(rt)?);
    let backoff = waits.make_backoff()?;
    let mut client = ServiceBuilder::new()
        .retry(Patient { budget, backoff })
        .service_fn(|page: u64| -> Ready<Result<u64, Failure>> {
            ready(fetch(&rt, &attempts, page))
        })?;
    for page in 1..8 {
        match client.block_on_call(&rt, page)? {
            Ok(words) => println!(rt; "page {page} has {words} words")?,
            Err(error) => println!(rt; "page {page}: {error}")?,
        }
    }
    Ok(())
}
