//! `tower::hedge::rotating_histogram`: the core by hand, and what each call asks of it.
ghost use Rattle.std.specs.Prelude.{◌≢◌};

use std::alloc::AllocGlobal;
use std::cell::Cell;
use std::process::Abort;
use std::test::Fail;
use tests_support::checks::Checks;
use tests_support::clock::Hand;
use tests_support::latch::Noting;
use tests_support::log::Log;
use tower_base::service::Fraction;
use tower_latch::{Core, Guarded, Latch};
use tower_retry::hedge::latency::Record;
use tower_retry::hedge::rotating_histogram::{HistoCore, HistoReply, HistoStep, RotatingHistogram};

// The steps and replies of a core of this period that was made at 0.
fn steps<R: Abort + AllocGlobal + Copy>(
    rt: R,
    period: u64,
    lines: &[(HistoStep, HistoReply)],
) -> Result<(), Fail>
    requires { period ≢ 0 }
{
    let mut core = HistoCore::new(rt.alloc(), period, 0);
    for (step, reply) in lines {
        assert_eq!(rt; core.step(*step).0, *reply, "at {step:?}");
    }
    Ok(())
}

#[test]
fn recorded_point_is_read_in_the_period_after(rt: HostRuntime) -> Result<(), Fail> {
    let first = [
        (HistoStep::Record(5, 3), HistoReply::Done),
        (HistoStep::Points(9), HistoReply::Count(0)),
        (HistoStep::Points(10), HistoReply::Count(1)),
        (HistoStep::Points(20), HistoReply::Count(0)),
    ];
    steps(rt, 10, &first)?;
    let later = [
        (HistoStep::Record(15, 3), HistoReply::Done),
        (HistoStep::Points(20), HistoReply::Count(1)),
        (HistoStep::Points(30), HistoReply::Count(0)),
    ];
    steps(rt, 10, &later)
}

#[test]
fn clock_that_goes_back_leaves_the_period(rt: HostRuntime) -> Result<(), Fail> {
    let lines = [
        (HistoStep::Record(15, 3), HistoReply::Done),
        (HistoStep::Record(25, 4), HistoReply::Done),
        (HistoStep::Points(5), HistoReply::Count(1)),
    ];
    steps(rt, 10, &lines)
}

#[test]
fn long_gaps_leave_nothing(rt: HostRuntime) -> Result<(), Fail> {
    let gap = [
        (HistoStep::Record(0, 3), HistoReply::Done),
        (HistoStep::Points(1), HistoReply::Count(1)),
        (HistoStep::Points(4_294_967_297), HistoReply::Count(0)),
    ];
    steps(rt, 1, &gap)?;
    let end = [
        (HistoStep::Record(u64::MAX, 3), HistoReply::Done),
        (HistoStep::Points(u64::MAX), HistoReply::Count(0)),
    ];
    steps(rt, 1, &end)
}

#[test]
fn quantiles_of_ten_seeds(rt: HostRuntime) -> Result<(), Fail> {
    let checks = Checks::new(rt.alloc());
    let mut core = HistoCore::new(rt.alloc(), 10, 0);
    let none = core.step(HistoStep::Quantile(0, Fraction::new(9, 10))).0;
    checks.same(&none, &HistoReply::Millis(0));
    for millis in [1, 10, 1, 1, 1, 10, 1, 1, 1, 1] {
        checks.same(&core.step(HistoStep::Seed(0, millis)).0, &HistoReply::Done);
    }
    for (fraction, millis) in [
        (Fraction::new(9, 10), 10),
        (Fraction::new(8, 10), 1),
        (Fraction::new(0, 1), 1),
        (Fraction::new(3, 1), 10),
    ] {
        let step = HistoStep::Quantile(9, fraction);
        assert_eq!(rt;
            core.step(step).0,
            HistoReply::Millis(millis),
            "at {step:?}"
        );
    }
    checks.same(&core.step(HistoStep::Points(9)).0, &HistoReply::Count(10));
    checks.same(&core.step(HistoStep::Points(10)).0, &HistoReply::Count(0));
    checks.verdict()
}

#[test]
fn periods_that_fit(rt: HostRuntime) -> Result<(), Fail> {
    let checks = Checks::new(rt.alloc());
    checks.holds(!HistoCore::fits(0));
    checks.holds(HistoCore::fits(1));
    checks.holds(HistoCore::fits(u64::MAX));
    checks.verdict()
}

// 2,000 latencies, no two of one length, of which most are longer than an hour.
#[test]
fn many_long_latencies_are_kept(rt: HostRuntime) -> Result<(), Fail> {
    let checks = Checks::new(rt.alloc());
    let mut core = HistoCore::new(rt.alloc(), 10, 0);
    for number in 0..2000u64 {
        let millis = u64::MAX - number * 4_294_967_296;
        checks.same(&core.step(HistoStep::Seed(0, millis)).0, &HistoReply::Done);
        checks.same(
            &core.step(HistoStep::Record(0, number)).0,
            &HistoReply::Done,
        );
    }
    let longest = HistoStep::Quantile(0, Fraction::new(1, 1));
    checks.same(&core.step(longest).0, &HistoReply::Millis(u64::MAX));
    checks.same(&core.step(HistoStep::Points(9)).0, &HistoReply::Count(2000));
    checks.same(
        &core.step(HistoStep::Points(10)).0,
        &HistoReply::Count(2000),
    );
    let half = HistoStep::Quantile(10, Fraction::new(1, 2));
    checks.same(&core.step(half).0, &HistoReply::Millis(999));
    checks.verdict()
}

// Asks each call of a histogram over any latch, which was made at 20 and shows its steps. (Over a lock that is named
// the check takes minutes.)
fn ask_each<'a, L: Latch<HistoCore>>(
    checks: &Checks,
    log: &'a Log,
    moment: &'a Cell<u64>,
    latch: L,
) -> Result<(), Fail> {
    let mut histogram = RotatingHistogram::with_latch(latch, Hand::new(log, moment));
    for nanos in [0, 1, 1_000_000, 1_000_000_001] {
        histogram.record(nanos);
    }
    checks.told(
        log,
        "clock read 23;latch stepped Record(23, 0);clock read 23;latch stepped Record(23, 1);\
         clock read 23;latch stepped Record(23, 1);clock read 23;latch stepped Record(23, 1001);",
    );
    moment.set(1019);
    checks.same(&histogram.points(), &0);
    moment.set(1020);
    let mut clone = histogram.clone()?;
    checks.same(&clone.points(), &4);
    checks.same(&clone.quantile(Fraction::new(3, 4)), &1);
    histogram.seed(7);
    histogram.seed_all(&[5, 6]);
    checks.same(&clone.quantile(Fraction::new(1, 1)), &1001);
    checks.told(
        log,
        "clock read 1019;latch stepped Points(1019);latch shared;clock shared;\
         clock read 1020;latch stepped Points(1020);\
         clock read 1020;latch stepped Quantile(1020, Fraction { numerator: 3, divisor: 4 });\
         clock read 1020;latch stepped Seed(1020, 7);\
         clock read 1020;latch stepped Seed(1020, 5);clock read 1020;latch stepped Seed(1020, 6);\
         clock read 1020;latch stepped Quantile(1020, Fraction { numerator: 1, divisor: 1 });",
    );
    Ok(())
}

// Asks for a clone over any latch, which has no share.
fn ask_for_a_clone<'a, L: Latch<HistoCore>>(
    checks: &Checks,
    log: &'a Log,
    moment: &'a Cell<u64>,
    latch: L,
) {
    let histogram = RotatingHistogram::with_latch(latch, Hand::new(log, moment));
    checks.holds(histogram.clone().is_err());
    checks.told(log, "latch refused;");
}

// Nanoseconds become milliseconds, rounded up. Each call makes one reading and then one step.
#[test]
fn each_call_is_one_reading_and_one_step(rt: HostRuntime) -> Result<(), Fail> {
    let checks = Checks::new(rt.alloc());
    let log = Log::new(rt.alloc())?;
    let moment = Cell::new(23);
    let shares = Cell::new(u8::MAX);
    let core = HistoCore::new(rt.alloc(), 1000, 20);
    let latch = Noting::new(&log, &shares, Guarded::new(rt, rt.alloc(), core)?);
    ask_each(&checks, &log, &moment, latch)?;
    checks.verdict()
}

#[test]
fn clone_without_a_share_is_refused(rt: HostRuntime) -> Result<(), Fail> {
    let checks = Checks::new(rt.alloc());
    let log = Log::new(rt.alloc())?;
    let moment = Cell::new(0);
    let shares = Cell::new(0);
    let core = HistoCore::new(rt.alloc(), 1000, 0);
    let latch = Noting::new(&log, &shares, Guarded::new(rt, rt.alloc(), core)?);
    ask_for_a_clone(&checks, &log, &moment, latch);
    checks.verdict()
}

#[test]
fn histogram_of_ones_own_begins_at_its_making(rt: HostRuntime) -> Result<(), Fail> {
    let checks = Checks::new(rt.alloc());
    let log = Log::new(rt.alloc())?;
    let moment = Cell::new(95);
    let clock = Hand::new(&log, &moment);
    let mut histogram = RotatingHistogram::new(rt, rt.alloc(), 100, clock)?;
    histogram.record(3_000_000);
    moment.set(194);
    checks.same(&histogram.points(), &0);
    moment.set(195);
    checks.same(&histogram.points(), &1);
    moment.set(294);
    checks.same(&histogram.quantile(Fraction::new(9, 10)), &3);
    moment.set(295);
    checks.same(&histogram.points(), &0);
    checks.told(
        &log,
        "clock read 95;clock read 95;clock read 194;clock read 195;clock read 294;clock read 295;",
    );
    checks.verdict()
}
