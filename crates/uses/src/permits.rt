//! Permits of one semaphore, gathered from its shares: never more than it has; those of the responses of a
//! program that waits; and those inside the responses of a whole stack.
ghost use Rattle.std.specs.Prelude.{◌≡◌, ◌≤◌, IfOk};
ghost use Rattle.tower_limit.specs.Concurrency.{initial};
ghost use Rattle.uses.specs.Permits.{RanWithPermits};

use crate::server::Server;
use futures::task::{Context, Doorbell, Poll, Solo};
use std::alloc::{AllocError, AllocGlobal, Global};
use std::cell::Cell;
use std::random::RandomSource;
use std::sync::Wait;
use std::{io, rt};
use tower::drive::Event;
use tower::latch::Latch;
use tower::limit::concurrency::{
    ConcurrencyLimit, Error, LineCore, Permit, PollSemaphore, Semaphore,
};
use tower::load_shed::LoadShed;
use tower::service::{Clock, SystemClock};
use tower::timeout::Timeout;
use tower::util::runs;
use tower::{BlockOnExt, Service};
use tower_laws::concurrency_limit;
use tower_laws::limited::drive_within_limit;

// Requests a permit from each of `shares` shares. Returns how many were there at once.
fn gathered<L: Latch<LineCore>>(
    alloc: Global,
    semaphore: &Semaphore<L>,
    shares: usize,
    cx: &mut Context<'_>,
) -> Result<usize, AllocError>
    ensures { IfOk result (λ held. held ≤ L.terms semaphore.now.latch) }
{
    let mut permits: Vec<Permit<L>> = Vec::new(alloc);
    for _ in 0..shares {
        let mut asking = PollSemaphore::new(semaphore.share()?);
        if let Poll::Ready(permit) = asking.poll_acquire(cx) {
            permits.push(permit?)?;
        }
    }
    Ok(semaphore.release_all(permits))
}

// Returns a response's permit, which outlives the response.
fn of_a_response<S, L>(
    limit: &mut ConcurrencyLimit<S, L>,
    cx: &mut Context<'_>,
) -> Option<Permit<L>>
where
    S: Service<u32>,
    L: Latch<LineCore>,
    requires { S.sound limit.old.inner }
{
    match limit.poll_ready(cx) {
        Poll::Ready(Ok(())) => limit.call(1).into_permit(),
        _ => None,
    }
}

// Calls a new limit with each request, and waits for each response, which holds a permit of its semaphore.
fn ask_each<S, L, R, F>(
    rt: &R,
    limit: &mut ConcurrencyLimit<S, L>,
    requests: Vec<u32>,
    each: F,
) -> io::Result<()>
where
    S: Service<u32>,
    L: Latch<LineCore>,
    R: Wait + RandomSource + AllocGlobal,
    F: FnMut(Result<S::Response, Error<S::Error>>) + Drop,
    requires new { limit.old ≡ initial limit.old.inner limit.old.asking.semaphore }
    requires sound { S.sound limit.old.inner }
    requires callable { F.IsAlwaysCallable each }
    ensures { IfOk result (λ _. RanWithPermits L.Latch ⟦<ConcurrencyLimit<S, L> as Service<u32>>⟧ requests.items limit.old limit.new) }
{
    concurrency_limit::law::<u32, S, L>();
    runs::loops::<u32, ConcurrencyLimit<S, L>, F>();
    limit.block_on_each(rt, requests, each)?;
    Ok(())
}

// Drives a load shed and a timeout over a limit of this semaphore. Returns how many responses are alive
// below the limit in the end: never more than it has permits.
fn drive_shed<S, C, L>(
    alloc: Global,
    cx: &mut Context<'_>,
    semaphore: &Semaphore<L>,
    server: S,
    clock: C,
    events: Vec<Event<u32, ()>>,
) -> Result<usize, AllocError>
where
    S: Service<u32>,
    C: Clock,
    L: Latch<LineCore>,
    requires { S.sound server }
    ensures { IfOk result (λ alive. alive ≤ L.terms semaphore.now.latch) }
{
    let limit = ConcurrencyLimit::with_semaphore(server, semaphore.share()?);
    let stack = LoadShed::new(Timeout::new(limit, 1_000_000_000, clock));
    let (_transcript, alive) = drive_within_limit(alloc, cx, semaphore, stack, events, |_: ()| {})?;
    Ok(alive)
}

/// Requests the three permits of a semaphore from five shares, and then keeps the permit of a response.
pub fn hold_three<R>(rt: R) -> io::Result<()>
where
    R: Wait + RandomSource + AllocGlobal + Print + Copy,
{
    let semaphore = Semaphore::new(rt, rt.alloc(), 3)?;
    let mut limit = ConcurrencyLimit::with_semaphore(Server(1), semaphore.share()?);
    let solo = Solo::new(&rt, Doorbell::spinning())?;
    let mut cx = solo.begin();
    let held = gathered(rt.alloc(), &semaphore, 5, &mut cx);
    let kept = of_a_response(&mut limit, &mut cx);
    cx.cancel();
    let free = semaphore.available_permits();
    drop(kept);
    println!(rt;
        "permits: {} of 3 at once, {free} free beside a response's",
        held?
    )
}

/// Calls a limit of two with three requests.
pub fn hold_one_each<R>(rt: R) -> io::Result<()>
where
    R: Wait + RandomSource + AllocGlobal + Print + Copy,
{
    let (alloc, sum) = (rt.alloc(), Cell::new(0));
    let mut limit = ConcurrencyLimit::new(rt, alloc, Server(7), 2)?;
    ask_each(&rt, &mut limit, vec![in alloc; 1, 2, 3]?, |answer| {
        sum.set(u32::saturating_add(sum.get(), answer.unwrap_or(0)));
    })?;
    println!(rt; "permits: {} in three calls", sum.get())
}

/// Makes three calls of a stack over a semaphore of two, of which the last one is shed.
pub fn hold_below_a_stack<R>(rt: R) -> io::Result<()>
where
    R: Wait + RandomSource + AllocGlobal + Print + rt::Clock + Copy,
{
    let (alloc, clock) = (rt.alloc(), SystemClock::new(rt)?);
    let semaphore = Semaphore::new(rt, alloc, 2)?;
    let mut events = Vec::new(alloc);
    for request in 1..=3 {
        events.push(Event::Poll)?;
        events.push(Event::Call(request))?;
    }
    let solo = Solo::new(&rt, Doorbell::spinning())?;
    let mut cx = solo.begin();
    let alive = drive_shed(alloc, &mut cx, &semaphore, Server(1), clock, events);
    cx.cancel();
    println!(rt; "permits: {} alive below three layers", alive?)
}
