//! `spawn_ready [at_once] [by_turns]`: over a latch whose steps are noted; each task is polled as soon as it is handed over, and the service is
//! pending by turns. `spawn_ready_layer [cloned]`: what the layer, or its clone, makes.
//! (Types with a lifetime are let into generic functions one after another: a bound at such a type isn't covered by the check.)
ghost use Rattle.std.specs.Prelude.{IfOk};
ghost use Rattle.tower_pool.specs.SpawnReady.{New, Sound, view_of};

use crate::slot::{Hitches, Told};
use crate::tasks::{Spawner, Tasks, Working};
use crate::turns::Turns;
use futures::task::Solo;
use scripted::report::Report;
use scripted::script::{Numbers, Script};
use std::alloc::{AllocError, AllocGlobal};
use std::fmt::{Debug, Display};
use std::random::RandomSource;
use std::sync::Wait;
use tests_support::run::task;
use tower_base::layer::Layer;
use tower_base::service::{Executor, Service, Steps};
use tower_latch::held::Viewed;
use tower_latch::{Guarded, Latch};
use tower_pool::spawn_ready::{ReadyTask, SlotCore, SpawnReady};

pub fn play<R: Wait + RandomSource + AllocGlobal + Copy>(
    rt: R,
    script: &Script<'_>,
    report: &mut Report<'_>,
) -> Result<(), AllocError> {
    let other = task(&rt).map_err(|_| AllocError)?;
    let at_once = if script.has("at_once") {
        Some(&other)
    } else {
        None
    };
    over_slot(
        rt,
        script,
        report,
        Turns::new(script, script.has("by_turns")),
        at_once,
    )
}

fn over_slot<S, R>(
    rt: R,
    script: &Script<'_>,
    report: &mut Report<'_>,
    service: S,
    at_once: Option<&Solo>,
) -> Result<(), AllocError>
where
    S: Service<u8, Response = u8, Error = u8>,
    R: Wait + Copy,
    requires { S.sound service }
{
    let hitches = Hitches::new();
    let Ok(guarded) = Guarded::new(rt, script.alloc(), SlotCore::new()) else {
        drop(service);
        return script.over(report, "out of memory");
    };
    let latch = Told::new(script.stage().log, &hitches, guarded);
    over_latch(script, report, service, latch, &hitches, at_once)
}

fn over_latch<S, L>(
    script: &Script<'_>,
    report: &mut Report<'_>,
    service: S,
    latch: L,
    hitches: &Hitches,
    at_once: Option<&Solo>,
) -> Result<(), AllocError>
where
    S: Service<u8, Response = u8, Error = u8>,
    L: Latch<SlotCore<Viewed<S, u8>, u8>>,
    requires { S.sound service }
{
    let tasks = Tasks::new(script.alloc());
    let spawner = Spawner {
        log: script.stage().log,
        tasks: &tasks,
        at_once,
    };
    let handle = SpawnReady::with_latch(service, spawner, latch);
    played(script, report, handle, &tasks, hitches)
}

pub fn play_layer<R: Wait + Copy>(
    rt: R,
    script: &Script<'_>,
    report: &mut Report<'_>,
) -> Result<(), AllocError> {
    layered(rt, script, report, Turns::new(script, false), None)
}

fn layered<S, R>(
    rt: R,
    script: &Script<'_>,
    report: &mut Report<'_>,
    service: S,
    at_once: Option<&Solo>,
) -> Result<(), AllocError>
where
    S: Service<u8, Response = u8, Error = u8>,
    R: Wait + Copy,
    requires { S.sound service }
{
    let tasks = Tasks::new(script.alloc());
    let hitches = Hitches::new();
    let spawner = Spawner {
        log: script.stage().log,
        tasks: &tasks,
        at_once,
    };
    match made(rt, script, service, spawner) {
        Ok(handle) => worked(script, report, handle, &tasks, &hitches),
        Err(AllocError) => script.over(report, "out of memory"),
    }
}

// What the layer, or its clone, makes.
fn made<S, X, R>(
    rt: R,
    script: &Script<'_>,
    service: S,
    executor: X,
) -> Result<SpawnReady<S, u8, u8, X, Guarded<SlotCore<Viewed<S, u8>, u8>, R>>, AllocError>
where
    S: Service<u8, Error = u8>,
    X: Clone + Drop,
    R: Wait + Copy,
    ensures { IfOk result (λ made. New service (view_of made).executor (view_of made)) }
{
    let layer = SpawnReady::<S, u8, u8, X, _>::layer(rt, script.alloc(), executor);
    if script.has("cloned") {
        let layer = layer.clone()?;
        return layer.layer(service);
    }
    layer.layer(service)
}

// What a handle over any latch gives. (Over a lock that is named the check takes more steps than it has.)
fn worked<S, X, L, T>(
    script: &Script<'_>,
    report: &mut Report<'_>,
    handle: SpawnReady<S, u8, u8, X, L>,
    tasks: &Tasks<T>,
    hitches: &Hitches,
) -> Result<(), AllocError>
where
    S: Service<u8, Response = u8, Error = u8>,
    X: Executor<ReadyTask<S, u8, u8, L>> + Drop,
    L: Latch<SlotCore<Viewed<S, u8>, u8>>,
    T: Steps<Output = ()> + Drop,
    requires { Sound S.sound X.Executor (view_of handle) }
{
    played(script, report, handle, tasks, hitches)
}

fn played<H, T>(
    script: &Script<'_>,
    report: &mut Report<'_>,
    handle: H,
    tasks: &Tasks<T>,
    hitches: &Hitches,
) -> Result<(), AllocError>
where
    H: Service<u8, Response = u8>,
    H::Error: Debug + Display,
    T: Steps<Output = ()> + Drop,
    requires { H.sound handle }
{
    let mut working = Working::new(script, tasks, hitches);
    script.play_alone_with(report, handle, &Numbers, &mut working)
}
