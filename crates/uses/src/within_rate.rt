//! A rate limit under layers of the library and a custom one. Whatever is polled, called, dropped or
//! answered, the calls that reach the server keep to the rate.
ghost use Rattle.std.specs.Prelude.{IfOk};
ghost use Rattle.tower_base.specs.Projection.{AtMostOnce, MappedOrNone, Once, Through};
ghost use Rattle.tower_base.specs.ServiceRun.{made};
ghost use Rattle.tower.specs.WaitRuns.{WithinRate};
ghost use Rattle.tower_limit.specs.Rate.{StandsFor, initial};
ghost use Rattle.tower_limit.specs.RateRun.{KeepsRate};
ghost use Rattle.tower_ware.specs.Projections.{LetsThrough};

use crate::counted::Counted;
use crate::filter::{Odd, even};
use crate::server::Server;
use futures::task::{Context, Doorbell, Solo};
use std::alloc::{AllocError, AllocGlobal, Global};
use std::cell::Cell;
use std::io;
use std::random::RandomSource;
use std::sync::Wait;
use tower::Service;
use tower::drive::{Entry, Event, Transcript};
use tower::filter::{self, Filter, Predicate};
use tower::latch::Latch;
use tower::limit::concurrency::{self, ConcurrencyLimit, LineCore, Semaphore};
use tower::limit::rate::{Rate, RateLimit, drive_within_rate};
use tower::service::{Clock, Monotonic, SystemClock};
use tower::timeout::{self, Timeout};
use tower::util::block_on_each_within_rate;

type Failure<E, P> = timeout::Error<filter::Error<concurrency::Error<E>, P>>;

// A timeout, a filter, a concurrency limit and the custom layer, over a rate limit.
type Five<S, C, L, U, D> = Timeout<Filter<ConcurrencyLimit<Counted<RateLimit<S, C>>, L>, U>, D>;

// Drives the five. At most `num` of the calls that reach the server come in any interval of length `per`,
// if the limit is new.
fn drive_five<S, C, D, U, L, T>(
    alloc: Global,
    cx: &mut Context<'_>,
    stack: Five<S, C, L, U, D>,
    events: Vec<Event<T, ()>>,
) -> Result<Transcript<S::Response, Failure<S::Error, U::Error>, ()>, AllocError>
where
    T: Drop,
    S: Service<u32>,
    C: Monotonic,
    D: Clock,
    U: Predicate<T, Request = u32>,
    L: Latch<LineCore>,
    requires server { S.sound stack.inner.inner.inner.inner }
    requires predicate { U.sound stack.inner.predicate }
    ensures { IfOk result (λ transcript. (last : _) × KeepsRate S.Service C.Clock (Through (MappedOrNone (LetsThrough U.Predicate)) Once)
        stack.inner.inner.inner (made events.items transcript.entries.items) last) }
{
    let transcript = drive_within_rate(alloc, cx, stack, events, |_: ()| {})?;
    Ok(transcript)
}

// Calls the five with each request, and waits for each response. At most 20 of the calls that reach the
// server come in any second, if the limit is new.
fn ask_five<S, C, D, U, L, T, R, F>(
    rt: &R,
    stack: &mut Five<S, C, L, U, D>,
    requests: Vec<T>,
    each: F,
) -> io::Result<()>
where
    T: Drop,
    S: Service<u32>,
    C: Monotonic,
    D: Clock,
    U: Predicate<T, Request = u32>,
    L: Latch<LineCore>,
    R: Wait + RandomSource + AllocGlobal,
    F: FnMut(Result<S::Response, Failure<S::Error, U::Error>>) + Drop,
    requires server { S.sound stack.old.inner.inner.inner.inner }
    requires predicate { U.sound stack.old.inner.predicate }
    requires callable { F.IsAlwaysCallable each }
    requires new { StandsFor stack.old.inner.inner.inner.core (initial 20 1000000000) }
    ensures { IfOk result (λ _. WithinRate 20 1000000000 S.Service C.Clock (Through AtMostOnce (Through (MappedOrNone (LetsThrough U.Predicate)) Once))
        stack.old.inner.inner.inner requests.items stack.new.inner.inner.inner) }
{
    block_on_each_within_rate(stack, rt, requests, each)?;
    Ok(())
}

/// A predicate that accepts even requests.
#[derive(Drop)]
pub struct Even;

impl Predicate<u32> for Even {
    type Request = u32;

    type Error = Odd;

    fn check(&mut self, request: u32) -> Result<u32, Odd> {
        even(request)
    }
}

// Returns how many calls were made.
fn calls<A, E>(transcript: &Transcript<A, E, ()>) -> u64 {
    let mut made: u64 = 0;
    for entry in &transcript.entries {
        if let Entry::Called(_) = entry {
            made = made.saturating_add(1);
        }
    }
    made
}

/// Attempts three calls, two of which reach the server within the hour.
pub fn hold_back<R>(rt: R) -> io::Result<()>
where
    R: Wait + RandomSource + AllocGlobal + Print + std::time::Clock + Copy,
{
    let alloc = rt.alloc();
    let events = vec![in alloc;
        Event::Poll,
        Event::Call(2),
        Event::Poll,
        Event::Call(4),
        Event::Poll,
        Event::Call(6),
    ]?;
    let rate = Rate::new(2, 3_600_000_000_000);
    let own = Counted::new(RateLimit::new(alloc, Server(1), rate, SystemClock::new(rt)?)?);
    let bounded = ConcurrencyLimit::with_semaphore(own, Semaphore::new(rt, alloc, 3)?);
    let stack = Timeout::new(
        Filter::new(bounded, Even),
        1_000_000_000,
        SystemClock::new(rt)?,
    );
    let solo = Solo::new(&rt, Doorbell::spinning())?;
    let mut cx = solo.begin();
    let transcript = drive_five(alloc, &mut cx, stack, events);
    cx.cancel();
    println!(rt; "within_rate: {} of 3 calls", calls(&transcript?))
}

/// Calls such a stack with three requests, one after another. Two of them reach the server.
pub fn wait_for_each<R>(rt: R) -> io::Result<()>
where
    R: Wait + RandomSource + AllocGlobal + Print + std::time::Clock + Copy,
{
    let (alloc, served) = (rt.alloc(), Cell::new(0));
    let rate = Rate::new(20, 1_000_000_000);
    let limited = RateLimit::new(alloc, Server(1), rate, SystemClock::new(rt)?)?;
    let own = Counted::new(limited);
    let bounded = ConcurrencyLimit::with_semaphore(own, Semaphore::new(rt, alloc, 3)?);
    let mut stack = Timeout::new(
        Filter::new(bounded, Even),
        1_000_000_000,
        SystemClock::new(rt)?,
    );
    let requests = vec![in alloc; 1, 2, 4]?;
    ask_five(&rt, &mut stack, requests, |answer| {
        if answer.is_ok() {
            served.set(u32::saturating_add(served.get(), 1));
        }
    })?;
    println!(rt; "within_rate: {} of 3 responses", served.get())
}
