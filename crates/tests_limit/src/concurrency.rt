//! `tower::limit::ConcurrencyLimit` and its layers: how many calls may be in flight.

use std::alloc::AllocGlobal;
use std::random::RandomSource;
use std::sync::Wait;
use std::test::Fail;
use tests_support::checks::Checks;
use tests_support::log::Log;
use tests_support::run::{called, task};
use tests_support::script::Script;
use tests_support::service::Scripted;
use tower_base::layer::Layer;
use tower_latch::Latch;
use tower_limit::limit::concurrency::{LineCore, Semaphore};
use tower_limit::limit::{ConcurrencyLimit, ConcurrencyLimitLayer, GlobalConcurrencyLimitLayer};

// So many calls are tried.
const CALLS: usize = 1501;

// How many calls are made before it isn't ready, `CALLS` at most, with all responses kept.
fn calls_in_flight<R, L>(
    rt: &R,
    mut service: ConcurrencyLimit<Scripted<'_>, L>,
) -> Result<usize, Fail>
where
    R: RandomSource + AllocGlobal,
    L: Latch<LineCore>,
{
    let solo = task(rt)?;
    let mut responses = Vec::new(rt.alloc());
    for count in 0..CALLS {
        match called(&solo, &mut service, 0) {
            Some(response) => responses.push(response)?,
            None => return Ok(count),
        }
    }
    Ok(CALLS)
}

fn by_itself<R>(rt: R, inner: Scripted<'_>, max: usize) -> Result<usize, Fail>
where
    R: Wait + RandomSource + AllocGlobal + Copy,
{
    calls_in_flight(&rt, ConcurrencyLimit::new(rt, rt.alloc(), inner, max)?)
}

fn by_layer<R>(rt: R, inner: Scripted<'_>, max: usize) -> Result<usize, Fail>
where
    R: Wait + RandomSource + AllocGlobal + Copy,
{
    let layer = ConcurrencyLimitLayer::new(rt, rt.alloc(), max);
    calls_in_flight(&rt, layer.layer(inner)?)
}

fn by_global_layer<R>(rt: R, inner: Scripted<'_>, max: usize) -> Result<usize, Fail>
where
    R: Wait + RandomSource + AllocGlobal + Copy,
{
    let layer = GlobalConcurrencyLimitLayer::new(rt, rt.alloc(), max)?;
    calls_in_flight(&rt, layer.layer(inner)?)
}

#[test]
fn each_constructor_makes_so_many_permits(rt: HostRuntime) -> Result<(), Fail> {
    let checks = Checks::new(rt.alloc());
    let log = Log::new(rt.alloc())?;
    let script = Script::new(&log);
    for max in [0, 1, 1500, 4_294_967_296, usize::MAX] {
        let made = max.min(CALLS);
        checks.same(&by_itself(rt, Scripted::new(&script, 's'), max)?, &made);
        checks.same(&by_layer(rt, Scripted::new(&script, 's'), max)?, &made);
        checks.same(
            &by_global_layer(rt, Scripted::new(&script, 's'), max)?,
            &made,
        );
        log.told(rt.alloc())?;
    }
    let whole = Semaphore::new(rt, rt.alloc(), usize::MAX)?;
    checks.same(&whole.available_permits(), &usize::MAX);
    checks.verdict()
}
