//! `ServiceExt` and `BlockOnExt`: their methods that wait.

use futures::executor::block_on;
use futures::future::{Ready, ok};
use std::cell::Cell;
use std::convert::Infallible;
use std::test::Fail;
use tests_support::checks::Checks;
use tests_support::log::Log;
use tests_support::run::{awaited, task};
use tests_support::script::{Readiness, Reply, Script};
use tests_support::service::Scripted;
use tower::util::service_fn;
use tower::{BlockOnExt, Service, ServiceExt};

#[test]
fn ready_gives_the_borrow_back(rt: HostRuntime) -> Result<(), Fail> {
    let checks = Checks::new(rt.alloc());
    let log = Log::new(rt.alloc())?;
    let script = Script::new(&log);
    let solo = task(&rt)?;
    script.readiness(&[Readiness::Pending, Readiness::Ready]);
    let mut service = Scripted::new(&script, 's');
    match block_on(&rt, service.ready())? {
        Ok(lent) => checks.same(&awaited(&solo, lent.call(6)), &Some(Ok(6))),
        Err(_) => checks.holds(false),
    }
    checks.told(
        &log,
        "s pending;s ready;s called 6;s(6) ready;s(6) dropped;",
    );
    checks.verdict()
}

#[test]
fn ready_oneshot_gives_the_service_back(rt: HostRuntime) -> Result<(), Fail> {
    let checks = Checks::new(rt.alloc());
    let log = Log::new(rt.alloc())?;
    let script = Script::new(&log);
    script.readiness(&[Readiness::Pending, Readiness::Ready, Readiness::Error(90)]);
    let service = Scripted::new(&script, 's');
    match block_on(&rt, service.ready_oneshot())? {
        Ok(mut service) => {
            drop(service.call(6));
        }
        Err(_) => checks.holds(false),
    }
    checks.told(&log, "s pending;s ready;s called 6;s(6) dropped;s dropped;");
    match block_on(&rt, Scripted::new(&script, 't').ready_oneshot())? {
        Ok(_) => checks.holds(false),
        Err(error) => checks.same(&error, &90),
    }
    checks.verdict()
}

#[test]
fn oneshot_waits_and_calls_once(rt: HostRuntime) -> Result<(), Fail> {
    let checks = Checks::new(rt.alloc());
    let log = Log::new(rt.alloc())?;
    let script = Script::new(&log);
    script.readiness(&[Readiness::Pending, Readiness::Ready]);
    script.replies(&[Reply::Echo(1)]);
    checks.same(
        &block_on(&rt, Scripted::new(&script, 's').oneshot(6))?,
        &Ok(6),
    );
    checks.told(
        &log,
        "s pending;s ready;s called 6;s dropped;s(6) pending;s(6) ready;s(6) dropped;",
    );
    checks.verdict()
}

#[test]
fn waits_on_a_borrowed_service(rt: HostRuntime) -> Result<(), Fail> {
    let checks = Checks::new(rt.alloc());
    let log = Log::new(rt.alloc())?;
    let script = Script::new(&log);
    script.readiness(&[Readiness::Pending, Readiness::Ready]);
    let mut service = Scripted::new(&script, 's');
    checks.same(&service.block_on_ready(&rt)?, &Ok(()));
    checks.same(&service.block_on_call(&rt, 6)?, &Ok(6));
    checks.told(
        &log,
        "s pending;s ready;s ready;s called 6;s(6) ready;s(6) dropped;",
    );
    let sum = Cell::new(0u8);
    let requests = vec![in rt.alloc(); 7u8, 8]?;
    service.block_on_each(&rt, requests, |answer: Result<u8, u8>| {
        sum.set(sum.get().wrapping_add(answer.unwrap_or(0)));
    })?;
    checks.same(&sum.get(), &15);
    checks.told(
        &log,
        "s ready;s called 7;s(7) ready;s(7) dropped;s ready;s called 8;s(8) ready;s(8) dropped;",
    );
    checks.verdict()
}

#[test]
fn each_of_many_requests_is_answered(rt: HostRuntime) -> Result<(), Fail> {
    let checks = Checks::new(rt.alloc());
    let mut echo = service_fn(|n: u64| -> Ready<Result<u64, Infallible>> { ok(n) });
    let requests: Vec<u64> = (0..1500).collect(rt.alloc())?;
    let right = Cell::new(0u64);
    echo.block_on_each(&rt, requests, |answer: Result<u64, Infallible>| {
        if answer == Ok(right.get()) {
            right.set(right.get().wrapping_add(1));
        }
    })?;
    checks.same(&right.get(), &1500);
    checks.verdict()
}
