//! What a `Metered` asks of its parts, in which order, and what its meter then shows.

use std::alloc::AllocGlobal;
use std::cell::Cell;
use std::test::Fail;
use tests_support::checks::Checks;
use tests_support::clock::Hand;
use tests_support::latch::Noting;
use tests_support::log::Log;
use tests_support::run::{called, fire, is_ready, stepped, task};
use tests_support::script::{Readiness, Reply, Script};
use tests_support::service::Scripted;
use tower_base::layer::Layer;
use tower_latch::{Guarded, Latch};
use tower_meter::{
    Bounds, Kinds, KindsFn, Meter, MeterCore, MeterLayer, Metered, NoKinds, NotGrowing,
};

// An answered call, one that is dropped, and one whose share is refused.
fn check_story<L: Latch<MeterCore>>(
    rt: &HostRuntime,
    checks: &Checks,
    log: &Log,
    inner: L,
) -> Result<(), Fail> {
    let (shares, moment, script) = (Cell::new(u8::MAX), Cell::new(10u64), Script::new(log));
    let solo = task(rt)?;
    let meter = Meter::with_latch(Noting::new(log, &shares, inner));
    let share = meter.share()?;
    checks.told(log, "latch shared;");
    let clock = Hand::new(log, &moment);
    let mut service = Metered::new(Scripted::new(&script, 's'), share, clock, NoKinds);
    script.readiness(&[Readiness::Pending, Readiness::Pending, Readiness::Ready]);
    script.replies(&[Reply::Echo(1)]);
    checks.holds(!is_ready(&solo, &mut service));
    moment.set(20);
    checks.holds(!is_ready(&solo, &mut service));
    checks.told(log, "s pending;clock read 10;s pending;");
    moment.set(25);
    let mut response = called(&solo, &mut service, 1).ok_or("not ready")?;
    checks.told(
        log,
        "s ready;clock read 25;latch stepped Unready(15);clock read 25;latch shared;latch stepped Call;s called 1;clock shared;",
    );
    moment.set(40);
    checks.holds(stepped(&solo, &mut response).is_pending());
    checks.holds(stepped(&solo, &mut response).is_ready());
    drop(response);
    checks.told(
        log,
        "s(1) pending;s(1) ready;clock read 40;latch stepped Answer(true, 0, 15);latch dropped;s(1) dropped;clock dropped;",
    );
    let response = called(&solo, &mut service, 2).ok_or("not ready")?;
    drop(response);
    checks.told(
        log,
        "s ready;clock read 40;latch shared;latch stepped Call;s called 2;clock shared;s(2) dropped;latch stepped Abandon;latch dropped;clock dropped;",
    );
    shares.set(0);
    let response = called(&solo, &mut service, 3).ok_or("not ready")?;
    drop(response);
    checks.told(
        log,
        "s ready;clock read 40;latch refused;latch stepped Uncounted;s called 3;clock shared;s(3) dropped;clock dropped;",
    );
    let reading = meter.read(rt.alloc())?;
    checks.same(
        &[reading.calls, reading.ok, reading.err, reading.dropped],
        &[2, 1, 0, 1],
    );
    checks.same(
        &[
            reading.in_flight,
            reading.highest,
            reading.unready,
            reading.uncounted,
        ],
        &[0, 1, 1, 1],
    );
    checks.same(&(reading.nanos, reading.unready_nanos), &(15, 15));
    Ok(())
}

#[test]
fn metered_story(rt: HostRuntime) -> Result<(), Fail> {
    let checks = Checks::new(rt.alloc());
    let log = Log::new(rt.alloc())?;
    let core = MeterCore::new(Bounds::standard());
    check_story(&rt, &checks, &log, Guarded::new(rt, rt.alloc(), core)?)?;
    checks.verdict()
}

// Two services of a layer, one of its clone, and a clone of a service count at one meter.
fn check_handles<L: Latch<MeterCore>, K: Kinds<u8, u8>>(
    rt: &HostRuntime,
    checks: &Checks,
    log: &Log,
    meter: &Meter<L>,
    kinds: K,
) -> Result<(), Fail>
    requires { K.sound kinds }
{
    let (moment, script, solo) = (Cell::new(0u64), Script::new(log), task(rt)?);
    let layer = MeterLayer::new(meter.share()?, Hand::new(log, &moment), kinds);
    let other = layer.clone()?;
    script.replies(&[
        Reply::Echo(0),
        Reply::Fail(0),
        Reply::Fail(0),
        Reply::Echo(0),
    ]);
    let service = layer.layer(Scripted::new(&script, 'a'))?;
    checks.same(&fire(&solo, service.clone()?, 1), &Some(Ok(1)));
    checks.same(&fire(&solo, service, 2), &Some(Err(2)));
    let service = other.layer(Scripted::new(&script, 'b'))?;
    checks.same(&fire(&solo, service, 3), &Some(Err(3)));
    Ok(())
}

#[test]
fn metered_handles(rt: HostRuntime) -> Result<(), Fail> {
    let checks = Checks::new(rt.alloc());
    let log = Log::new(rt.alloc())?;
    let meter = Meter::new(rt, rt.alloc())?;
    let kinds = KindsFn::new(|answer: &Result<u8, u8>| -> u64 {
        if answer.is_ok() { 3 } else { 99 }
    });
    check_handles(&rt, &checks, &log, &meter, kinds)?;
    let reading = meter.read(rt.alloc())?;
    checks.same(&[reading.calls, reading.ok, reading.err], &[3, 1, 2]);
    let (ok, other, fast) = (reading.kinds[3], reading.kinds[15], reading.buckets[0]);
    checks.same(&[ok, other, fast], &[1, 2, 3]);
    checks.verdict()
}

#[test]
fn bounds_grow(rt: HostRuntime) -> Result<(), Fail> {
    let checks = Checks::new(rt.alloc());
    let mut nanos = Bounds::standard().nanos;
    checks.same(&Bounds::new(nanos), &Ok(Bounds::default()));
    nanos[15] = nanos[14];
    checks.same(&Bounds::new(nanos), &Err(NotGrowing));
    checks.same(
        &NotGrowing.to_string(rt.alloc())?.as_str(),
        &"the bounds of the buckets don't grow",
    );
    checks.verdict()
}
