//! `hedge POINTS [SHARES] [unseeded] [thousand]`: a second request is made after the time that nine of ten calls took, if so many latencies are
//! known. Ten are known at first, or a thousand, of which four of five are of one millisecond and the others of ten; if it is `unseeded`, none
//! is. The histogram stands behind a latch whose steps are noted, and whose shares are refused after so many; its period is a minute.
//!
//! `locked_hedge POINTS NUMERATOR DIVISOR PERIOD [seeded]`: behind a lock; if it is `seeded`, a latency of one millisecond and one of three are known.
ghost use Rattle.std.specs.Prelude.{◌≢◌};

use crate::budget::fraction_at;
use crate::nest::of_hedge;
use crate::noted::Twice;
use scripted::report::Report;
use scripted::script::Script;
use std::alloc::AllocError;
use std::cell::Cell;
use std::sync::Wait;
use tests_support::clock::Hand;
use tests_support::latch::Noting;
use tests_support::service::Scripted;
use tower_base::service::Fraction;
use tower_latch::{Guarded, Latch};
use tower_retry::hedge::Hedge;
use tower_retry::hedge::rotating_histogram::HistoCore;

const MINUTE: u64 = 60_000_000_000;

// Four of five of one millisecond, and then those of ten.
fn latencies(script: &Script<'_>) -> Result<Vec<u64>, AllocError> {
    let (count, short) = if script.has("thousand") {
        (1000, 800)
    } else {
        (10, 8)
    };
    let mut latencies = Vec::new(script.alloc());
    for place in 0..count {
        latencies.push(if place < short { 1 } else { 10 })?;
    }
    Ok(latencies)
}

fn played<'a, L: Latch<HistoCore>>(
    script: &Script<'a>,
    report: &mut Report<'_>,
    made: Result<Hedge<Scripted<'a>, Twice<'a>, L, Hand<'a>>, AllocError>,
) -> Result<(), AllocError> {
    match made {
        Ok(hedge) => of_hedge(script, report, hedge),
        Err(AllocError) => script.over(report, "out of memory"),
    }
}

fn made<'a, L: Latch<HistoCore>>(
    script: &Script<'a>,
    latch: L,
    points: u64,
    latencies: &[u64],
) -> Result<Hedge<Scripted<'a>, Twice<'a>, L, Hand<'a>>, AllocError> {
    let part = Fraction::new(9, 10);
    let service = script.service('s');
    let policy = Twice::new(script);
    if script.has("unseeded") {
        return Hedge::with_latch(latch, service, policy, points, part, script.clock());
    }
    Hedge::with_latch_and_mock_latencies(
        latch,
        service,
        policy,
        points,
        part,
        script.clock(),
        latencies,
    )
}

pub fn play<R: Wait + Copy>(
    rt: R,
    script: &Script<'_>,
    report: &mut Report<'_>,
) -> Result<(), AllocError> {
    let Some(points) = script.number(0) else {
        return script.unread(report);
    };
    let shares = script.number(1).unwrap_or(255);
    let shares = Cell::new(if shares < 255 { shares as u8 } else { 255 });
    let latencies = latencies(script)?;
    let core = HistoCore::new(script.alloc(), MINUTE, 0);
    match Guarded::new(rt, script.alloc(), core) {
        Ok(latch) => {
            let latch = Noting::new(script.stage().log, &shares, latch);
            let made = made(script, latch, points, latencies.as_slice());
            played(script, report, made)
        }
        Err(AllocError) => script.over(report, "out of memory"),
    }
}

pub fn play_locked<R: Wait + Copy>(
    rt: R,
    script: &Script<'_>,
    report: &mut Report<'_>,
) -> Result<(), AllocError> {
    let (Some(points), Some(part), Some(period)) = (
        script.number(0),
        fraction_at(script, 1),
        script.number(3),
    ) else {
        return script.unread(report);
    };
    if period == 0 {
        return script.unread(report);
    }
    let made = made_locked(rt, script, points, part, period);
    played(script, report, made)
}

fn made_locked<'a, R: Wait + Copy>(
    rt: R,
    script: &Script<'a>,
    points: u64,
    part: Fraction,
    period: u64,
) -> Result<Hedge<Scripted<'a>, Twice<'a>, Guarded<HistoCore, R>, Hand<'a>>, AllocError>
    requires { period ≢ 0 }
{
    let (alloc, clock) = (script.alloc(), script.clock());
    let (service, policy) = (script.service('s'), Twice::new(script));
    if script.has("seeded") {
        return Hedge::new_with_mock_latencies(
            rt,
            alloc,
            service,
            policy,
            points,
            part,
            period,
            clock,
            &[1, 3],
        );
    }
    Hedge::new(rt, alloc, service, policy, points, part, period, clock)
}
