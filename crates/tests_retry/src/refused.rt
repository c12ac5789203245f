//! Refused memory: a latency whose room is refused is left out, and the one after it isn't.

use std::alloc::{AllocError, AllocGlobal};
use std::cell::Cell;
use std::sync::Wait;
use std::test::Fail;
use tests_support::clock::Hand;
use tests_support::log::Log;
use tests_support::refused::judged;
use tower_retry::hedge::latency::Record;
use tower_retry::hedge::rotating_histogram::RotatingHistogram;

// A latency of a period is read in the next one.
fn one_latency<R: Wait + AllocGlobal + Copy>(rt: R, again: bool) -> Result<bool, AllocError> {
    let log = Log::new(rt.alloc())?;
    let moment = Cell::new(0);
    let clock = Hand::new(&log, &moment);
    let mut histogram = RotatingHistogram::new(rt, rt.alloc(), 10, clock)?;
    histogram.record(3);
    moment.set(10);
    let points = histogram.points();
    if points > 0 || !again {
        return Ok(points == 1);
    }
    histogram.record(3);
    moment.set(20);
    Ok(histogram.points() == 1)
}

#[test]
fn refused_latency_is_left_out(rt: HostRuntime) -> Result<(), Fail> {
    judged(one_latency(rt, true), true)
}

#[test]
fn ample_latency(rt: HostRuntime) -> Result<(), Fail> {
    judged(one_latency(rt, false), false)
}
