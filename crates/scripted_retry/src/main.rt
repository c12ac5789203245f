//! Scripts of `tower::retry`, its budget and its backoff, and of `tower::hedge`, in data/retry.
#![tactic(auto)]

mod backoff;
mod budget;
mod delay;
mod hedge;
mod latency;
mod nest;
mod noted;
mod paid;
mod policy;
mod retry;
mod rising;
mod select;

use scripted::player::Services;
use scripted::program::run;
use scripted::report::Report;
use scripted::script::Script;
use std::alloc::AllocError;
use std::io;
use std::sync::Wait;

// The services of this program.
#[derive(Drop)]
struct Retries<R> {
    rt: R,
}

impl<R: Wait + Copy> Services for Retries<R> {
    fn play(&self, script: &Script<'_>, report: &mut Report<'_>) -> Result<(), AllocError> {
        match script.name() {
            "retry" if script.knows(&["uncopied", "layer", "get_mut", "into_inner"]) => retry::play(
                script, report,
            ),
            "retry_limited" if script.knows(&[]) => retry::play_limited(self.rt, script, report),
            "retry_budget" if script.knows(&[]) => paid::play_budget(self.rt, script, report),
            "retry_backoff" if script.knows(&[]) => paid::play_backoff(script, report),
            _ => play_cores(self.rt, script, report),
        }
    }
}

// Budgets and backoffs alone.
fn play_cores<R: Wait + Copy>(
    rt: R,
    script: &Script<'_>,
    report: &mut Report<'_>,
) -> Result<(), AllocError> {
    match script.name() {
        "budget" if script.knows(&[]) => budget::play(rt, script, report),
        "usual_budget" if script.knows(&[]) => budget::play_usual(rt, script, report),
        "backoff" if script.knows(&["refused"]) => backoff::play(script, report),
        _ => play_hedge(rt, script, report),
    }
}

// The services of `tower::hedge`.
fn play_hedge<R: Wait + Copy>(
    rt: R,
    script: &Script<'_>,
    report: &mut Report<'_>,
) -> Result<(), AllocError> {
    match script.name() {
        "delay" if script.knows(&[]) => delay::play(script, report),
        "longest_delay" if script.knows(&[]) => delay::play_longest(script, report),
        "select" if script.knows(&[]) => select::play(script, report),
        "latency" if script.knows(&[]) => latency::play(script, report),
        "hedge" if script.knows(&["unseeded", "thousand"]) => hedge::play(rt, script, report),
        "locked_hedge" if script.knows(&["seeded"]) => hedge::play_locked(rt, script, report),
        _ => script.unread(report),
    }
}

fn main(rt: HostRuntime) -> io::Result<()> {
    run(&rt, &Retries { rt })
}
