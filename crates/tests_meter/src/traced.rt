//! What a `Traced` tells, in which order: each event once, and none of a clone's.

use std::cell::Cell;
use std::test::Fail;
use tests_support::checks::Checks;
use tests_support::clock::Hand;
use tests_support::log::Log;
use tests_support::run::{called, fire, is_ready, stepped, task};
use tests_support::script::{Readiness, Reply, Script};
use tests_support::service::Scripted;
use tower_base::layer::Layer;
use tower_meter::{Trace, TracedLayer};

/// Notes each event in the log.
#[derive(Clone, Copy)]
struct Notes<'a> {
    log: &'a Log,
}

impl Trace<u8, u8, u8> for Notes<'_> {
    type Span = u8;

    fn on_call(&self, request: &u8) -> u8 {
        self.log.note(format_args!("call {request}"));
        *request
    }

    fn on_answer(&self, span: &u8, answer: &Result<u8, u8>, nanos: u64) {
        self.log
            .note(format_args!("answer to {span} {answer:?} {nanos}"));
    }

    fn on_drop(&self, span: &u8, nanos: u64) {
        self.log.note(format_args!("drop of {span} {nanos}"));
    }

    fn on_unready(&self, nanos: u64) {
        self.log.note(format_args!("unready {nanos}"));
    }
}

// An answered call, one that is dropped, and one of a clone.
fn check_story<N: Trace<u8, u8, u8>>(
    rt: &HostRuntime,
    checks: &Checks,
    log: &Log,
    notes: N,
) -> Result<(), Fail> {
    let (moment, script, solo) = (Cell::new(10u64), Script::new(log), task(rt)?);
    let layer = TracedLayer::new(Hand::new(log, &moment), notes);
    let mut service = layer.clone()?.layer(Scripted::new(&script, 's'))?;
    checks.told(log, "clock shared;clock shared;clock dropped;");
    script.readiness(&[Readiness::Pending, Readiness::Pending, Readiness::Ready]);
    script.replies(&[Reply::Fail(1), Reply::Never, Reply::Echo(0)]);
    checks.holds(!is_ready(&solo, &mut service));
    checks.holds(!is_ready(&solo, &mut service));
    checks.told(log, "s pending;clock read 10;s pending;");
    moment.set(25);
    let mut response = called(&solo, &mut service, 1).ok_or("not ready")?;
    checks.told(
        log,
        "s ready;clock read 25;unready 15;clock read 25;call 1;s called 1;clock shared;",
    );
    moment.set(40);
    checks.holds(stepped(&solo, &mut response).is_pending());
    checks.holds(stepped(&solo, &mut response).is_ready());
    drop(response);
    checks.told(
        log,
        "s(1) pending;s(1) ready;clock read 40;answer to 1 Err(1) 15;s(1) dropped;clock dropped;",
    );
    let response = called(&solo, &mut service, 2).ok_or("not ready")?;
    moment.set(50);
    drop(response);
    checks.told(
        log,
        "s ready;clock read 40;call 2;s called 2;clock shared;s(2) dropped;clock read 50;drop of 2 10;clock dropped;",
    );
    checks.same(&fire(&solo, service.clone()?, 3), &Some(Ok(3)));
    Ok(())
}

#[test]
fn traced_story(rt: HostRuntime) -> Result<(), Fail> {
    let checks = Checks::new(rt.alloc());
    let log = Log::new(rt.alloc())?;
    check_story(&rt, &checks, &log, Notes { log: &log })?;
    checks.verdict()
}
