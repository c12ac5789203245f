//! Scripts of `tower::{util, make}` in data/util, of `tower::{filter, load_shed, reconnect, steer, timeout}` and of streams of calls in
//! data/ware, and of `tower::{limit, load}` in data/limit.
#![tactic(auto)]

mod answers;
mod beside;
mod call_all;
mod chains;
mod concurrency_limit;
mod filter;
mod from_future;
mod load;
mod load_shed;
mod maps;
mod oneshot;
mod parts;
mod plain;
mod rate_limit;
mod reconnect;
mod semaphore;
mod shared;
mod sides;
mod steer;
mod steered;
mod timeout;

use scripted::player::Services;
use scripted::program::run;
use scripted::report::Report;
use scripted::script::Script;
use std::alloc::AllocError;
use std::io;
use std::sync::Wait;

// The services of this program.
#[derive(Drop)]
struct Ware<R> {
    rt: R,
}

impl<R: Wait + Copy> Services for Ware<R> {
    fn play(&self, script: &Script<'_>, report: &mut Report<'_>) -> Result<(), AllocError> {
        match script.name() {
            "timeout" if script.knows(&["layer", "get_mut", "into_inner"]) => timeout::play(
                script, report,
            ),
            "load_shed" if script.knows(&["layer"]) => load_shed::play(script, report),
            "load_shed_places" if script.knows(&[]) => load_shed::play_places(script, report),
            "filter" if script.knows(&["layer", "get_mut", "checked", "into_inner"]) =>
                filter::play(script, report),
            "async_filter" if script.knows(&["layer", "get_mut", "checked", "into_inner"]) =>
                filter::play_async(script, report),
            "reconnect" if script.knows(&["linked"]) => reconnect::play(script, report),
            "call_all" if script.knows(&["closed"]) => call_all::play(script, report),
            "call_all_unordered" if script.knows(&["closed"]) => call_all::play_unordered(
                script, report,
            ),
            "steer" if script.knows(&["turning"]) => steer::play(script, report),
            _ => play_limit(self.rt, script, report),
        }
    }
}

// The services of `tower::{limit, load}`.
fn play_limit<R: Wait + Copy>(
    rt: R,
    script: &Script<'_>,
    report: &mut Report<'_>,
) -> Result<(), AllocError> {
    match script.name() {
        "concurrency_limit" if script.knows(&["watched", "get_mut", "into_inner", "checked"]) =>
            concurrency_limit::play(rt, script, report),
        "locked_limit" if script.knows(&["layer", "global", "two"]) =>
            concurrency_limit::play_locked(rt, script, report),
        "global_limit_layer" if script.knows(&[]) => concurrency_limit::play_layer(
            rt, script, report,
        ),
        "rate_limit" if script.knows(&["layer", "get_mut", "into_inner"]) => rate_limit::play(
            script, report,
        ),
        "semaphore" if script.knows(&[]) => semaphore::play(rt, script, report),
        "constant" if script.knows(&[]) => load::play_constant(script, report),
        "pending_requests" if script.knows(&[]) => load::play_pending_requests(rt, script, report),
        "steered_limits" if script.knows(&[]) => steered::play(rt, script, report),
        _ => play_util(script, report),
    }
}

// The services of `tower::util` and `tower::make`.
fn play_util(script: &Script<'_>, report: &mut Report<'_>) -> Result<(), AllocError> {
    match script.name() {
        "map_request" if script.knows(&["layer"]) => maps::play_request(script, report),
        "map_response" if script.knows(&["layer"]) => maps::play_response(script, report),
        "map_err" if script.knows(&["layer"]) => maps::play_err(script, report),
        "map_result" if script.knows(&["layer"]) => maps::play_result(script, report),
        "map_future" if script.knows(&["get_mut", "into_inner"]) => maps::play_future(
            script, report,
        ),
        "then" if script.knows(&["layer"]) => chains::play_then(script, report),
        "and_then" if script.knows(&["layer"]) => chains::play_and_then(script, report),
        "plain" => plain::play(script, report),
        "either" if script.knows(&["left", "right"]) => sides::play_either(script, report),
        "optional" if script.knows(&["none"]) => sides::play_optional(script, report),
        "oneshot" if script.knows(&[]) => oneshot::play(script, report),
        "ready_oneshot" if script.knows(&[]) => oneshot::play_ready(script, report),
        "future_service" if script.knows(&["failing", "polled", "at_once"]) => from_future::play(
            script, report,
        ),
        "service_fn" if script.knows(&[]) => oneshot::play_closure(script, report),
        "shared" if script.knows(&["into_service"]) => shared::play(script, report),
        "as_service" if script.knows(&[]) => shared::play_lent(script, report),
        "into_service" if script.knows(&[]) => shared::play_maker(script, report),
        _ => script.unread(report),
    }
}

fn main(rt: HostRuntime) -> io::Result<()> {
    run(&rt, &Ware { rt })
}
