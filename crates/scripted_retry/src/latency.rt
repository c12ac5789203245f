//! `latency`: latencies are recorded by `n`.

use crate::noted::Noted;
use scripted::report::Report;
use scripted::script::Script;
use std::alloc::AllocError;
use tower_retry::hedge::latency::Latency;

pub fn play(script: &Script<'_>, report: &mut Report<'_>) -> Result<(), AllocError> {
    let latency = Latency::new(Noted::new(script), script.service('s'), script.clock());
    script.play(report, latency)
}
