//! Scripts of `tower::{balance, ready_cache, spawn_ready}` in data/pool, and of `tower::buffer` in data/buffer.
#![tactic(auto)]

mod around;
mod balance;
mod buffer;
mod cache;
mod findings;
mod fleet;
mod mail;
mod make;
mod parcel;
mod slot;
mod spawn;
mod tasks;
mod turns;
mod words;
mod worker;

use crate::fleet::Never;
use scripted::player::Services;
use scripted::program::run;
use scripted::report::Report;
use scripted::script::Script;
use std::alloc::{AllocError, AllocGlobal};
use std::io;
use std::random::RandomSource;
use std::sync::Wait;

// The services of this program.
#[derive(Drop)]
struct Pools<R> {
    rt: R,
}

impl<R: Wait + RandomSource + AllocGlobal + Copy> Services for Pools<R> {
    fn play(&self, script: &Script<'_>, report: &mut Report<'_>) -> Result<(), AllocError> {
        match script.name() {
            "buffer" if script.knows(&[]) => buffer::play(self.rt, script, report),
            "buffer_round_a_limit" if script.knows(&[]) => buffer::play_round_a_limit(
                self.rt, script, report,
            ),
            "spawn_ready" if script.knows(&["at_once", "by_turns"]) => spawn::play(
                self.rt, script, report,
            ),
            "spawn_ready_layer" if script.knows(&["cloned"]) => spawn::play_layer(
                self.rt, script, report,
            ),
            _ => play_balance(script, report),
        }
    }
}

// The services of `tower::{balance, ready_cache}`.
fn play_balance(script: &Script<'_>, report: &mut Report<'_>) -> Result<(), AllocError> {
    if !script.knows(&["layer"]) {
        return script.unread(report);
    }
    match script.name() {
        "balance" => balance::play::<u8>(script, report),
        "balance_never" => balance::play::<Never>(script, report),
        "make_balance" => make::play(script, report),
        "ready_cache" => cache::play(script, report),
        _ => script.unread(report),
    }
}

fn main(rt: HostRuntime) -> io::Result<()> {
    run(&rt, &Pools { rt })
}
