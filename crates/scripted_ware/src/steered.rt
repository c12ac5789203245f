//! `steered_limits`: a `Steer` of two limits of one permit each, over locks, of which the first is picked.
ghost use Rattle.std.specs.Prelude.{◌<◌, length};

use scripted::report::Report;
use scripted::script::Script;
use std::alloc::AllocError;
use std::fmt::{Debug, Display};
use std::sync::Wait;
use tests_support::service::Scripted;
use tower_base::service::Service;
use tower_latch::Guarded;
use tower_limit::limit::ConcurrencyLimit;
use tower_limit::limit::concurrency::LineCore;
use tower_ware::steer::{Picker, Steer};

// Picks the first service.
#[derive(Clone, Copy, Drop)]
struct First;

impl<S> Picker<S, u8> for First {
    fn pick(&mut self, _request: &u8, _services: &[S]) -> usize {
        0
    }
}

pub fn play<R: Wait + Copy>(
    rt: R,
    script: &Script<'_>,
    report: &mut Report<'_>,
) -> Result<(), AllocError> {
    match made(rt, script) {
        Ok((first, second)) => of_two(script, report, first, second),
        Err(AllocError) => script.over(report, "out of memory"),
    }
}

type Locked<'a, R> = ConcurrencyLimit<Scripted<'a>, Guarded<LineCore, R>>;

// The two limits.
fn made<'a, R: Wait + Copy>(
    rt: R,
    script: &Script<'a>,
) -> Result<(Locked<'a, R>, Locked<'a, R>), AllocError> {
    let (first, second) = (script.service('s'), script.service('t'));
    let first = ConcurrencyLimit::new(rt, script.alloc(), first, 1)?;
    let second = ConcurrencyLimit::new(rt, script.alloc(), second, 1)?;
    Ok((first, second))
}

// The list is made over any service: at a lock's type it is past the check's limits.
fn of_two<S>(
    script: &Script<'_>,
    report: &mut Report<'_>,
    first: S,
    second: S,
) -> Result<(), AllocError>
where
    S: Service<u8> + Clone,
    S::Response: Display,
    S::Error: Debug + Display,
    requires sound { (service : S) → S.sound service }
{
    let mut services = Vec::new(script.alloc());
    services.push(first)?;
    services.push(second)?;
    if services.is_empty() {
        return script.unread(report);
    }
    played(script, report, services)
}

// Plays by a steer of the services.
fn played<S>(
    script: &Script<'_>,
    report: &mut Report<'_>,
    services: Vec<S>,
) -> Result<(), AllocError>
where
    S: Service<u8> + Clone,
    S::Response: Display,
    S::Error: Debug + Display,
    requires some { 0 < length services.items }
    requires sound { (service : S) → S.sound service }
{
    match Steer::new(script.alloc(), services, First) {
        Ok(steer) => script.play(report, steer),
        Err(AllocError) => script.over(report, "out of memory"),
    }
}
