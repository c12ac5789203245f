//! Which steps a semaphore asks of its latch if permits are given back together, or taken out of a response. (Those of limits, loads,
//! budgets and hedges are in the scripts `counting_latch`.)

use futures::task::{Context, Poll};
use std::alloc::{AllocError, Global};
use std::cell::Cell;
use std::test::Fail;
use tests_support::checks::Checks;
use tests_support::latch::Noting;
use tests_support::log::Log;
use tests_support::run::{called, task};
use tests_support::script::Script;
use tests_support::service::Scripted;
use tower_latch::{Guarded, Latch};
use tower_limit::limit::ConcurrencyLimit;
use tower_limit::limit::concurrency::{LineCore, Permit, PollSemaphore, Semaphore};

// The steps among these events, each before a semicolon.
fn steps_of(alloc: Global, events: &str) -> Result<String, AllocError> {
    let mut steps = String::new(alloc);
    for event in events.split(';') {
        let step = match event.strip_prefix("latch waited ") {
            Some(step) => Some(step),
            None => event.strip_prefix("latch stepped "),
        };
        if let Some(step) = step {
            steps.push_str(step)?;
            steps.push_str(";")?;
        }
    }
    Ok(steps)
}

// These steps were noted since the last look.
fn check_steps(checks: &Checks, alloc: Global, log: &Log, wanted: &str) {
    let steps = log
        .told(alloc)
        .and_then(|events| steps_of(alloc, events.as_str()));
    match steps {
        Ok(steps) => checks.same(&steps.as_str(), &wanted),
        Err(AllocError) => checks.holds(false),
    }
}

// Requests a permit from each of `shares` shares, and gives all back together. Returns how many they were.
fn gathered<L: Latch<LineCore>>(
    alloc: Global,
    semaphore: &Semaphore<L>,
    shares: usize,
    cx: &mut Context<'_>,
) -> Result<usize, AllocError> {
    let mut permits: Vec<Permit<L>> = Vec::new(alloc);
    for _ in 0..shares {
        let mut asking = PollSemaphore::new(semaphore.share()?);
        if let Poll::Ready(permit) = asking.poll_acquire(cx) {
            permits.push(permit?)?;
        }
    }
    Ok(semaphore.release_all(permits))
}

// A semaphore of three permits: two are given back together, and a third is taken out of a response.
fn check_release<L: Latch<LineCore>>(
    rt: &HostRuntime,
    checks: &Checks,
    log: &Log,
    latch: L,
) -> Result<(), Fail> {
    let (shares, script) = (Cell::new(u8::MAX), Script::new(log));
    let semaphore = Semaphore::with_latch(Noting::new(log, &shares, latch), 3);
    let mut limit = ConcurrencyLimit::with_semaphore(
        Scripted::new(&script, 's'),
        semaphore.share()?,
    );
    let solo = task(rt)?;
    let mut cx = solo.begin();
    let held = gathered(rt.alloc(), &semaphore, 2, &mut cx);
    cx.cancel();
    checks.same(&held?, &2);
    check_steps(checks, rt.alloc(), log, "Join;Join;Release;Release;");
    let response = called(&solo, &mut limit, 7u8).ok_or("not ready")?;
    let permit = response.into_permit();
    check_steps(checks, rt.alloc(), log, "Join;");
    drop(permit);
    check_steps(checks, rt.alloc(), log, "Release;");
    Ok(())
}

#[test]
fn counting_latch(rt: HostRuntime) -> Result<(), Fail> {
    let alloc = rt.alloc();
    let (checks, log) = (Checks::new(alloc), Log::new(alloc)?);
    let three = Guarded::new(rt, alloc, LineCore::new(alloc, 3))?;
    check_release(&rt, &checks, &log, three)?;
    checks.verdict()
}
