//! Custom middleware, stacked among the library's.
#![tactic(auto)]

mod counted;
mod errors;
mod stacked;

use errors::CountErrorsLayer;
use futures::future::{Ready, err, ok};
use futures::task::{Doorbell, Poll, Solo};
use stacked::driven;
use std::cell::Cell;
use std::convert::Infallible;
use std::io;
use tower::drive::{Entry, Event, Transcript};
use tower::service::SystemClock;
use tower::timeout::Error;
use tower::{BlockOnExt, ServiceBuilder, service_fn};

fn show(rt: &impl Print, transcript: &Transcript<u64, Error<Infallible>, u64>) -> io::Result<()> {
    for entry in &transcript.entries {
        match entry {
            Entry::Polled(_) => println!(rt; "polled")?,
            Entry::Called(index) => println!(rt; "call {index}")?,
            Entry::Answered(index, Poll::Ready(Ok(half))) => println!(rt;
                "{index} answered {half}"
            )?,
            Entry::Answered(index, _) => println!(rt; "{index} has no answer")?,
            Entry::Dropped(_) | Entry::Turned(_) => {}
            Entry::Skipped => println!(rt; "skipped")?,
        }
    }
    Ok(())
}

fn main(rt: HostRuntime) -> io::Result<()> {
    let alloc = rt.alloc();
    let events = vec![in alloc;
        Event::Call(1),
        Event::Poll,
        Event::Call(20),
        Event::Future(0),
    ]?;
    let inner = service_fn(|n: u64| -> Ready<Result<u64, Infallible>> { ok(n / 2) });
    let clock = SystemClock::new(rt)?;
    let solo = Solo::new(&rt, Doorbell::spinning())?;
    let mut cx = solo.begin();
    let transcript = driven(alloc, &mut cx, inner, clock, events, |turn: u64| turn);
    cx.cancel();
    show(&rt, &transcript?)?;

    let errors = Cell::new(0);
    let mut stack = ServiceBuilder::new()
        .timeout(1_000_000_000, SystemClock::new(rt)?)
        .layer(CountErrorsLayer::new(&errors))
        .service_fn(|n: u64| -> Ready<Result<u64, u64>> {
            if n % 3 == 0 { err(n) } else { ok(n / 2) }
        })?;
    for n in 0..10 {
        if let Err(error) = stack.block_on_call(&rt, n)? {
            println!(rt; "error {error}")?;
        }
    }
    println!(rt; "errors: {}", errors.get())
}
