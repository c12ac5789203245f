//! `tower::util::{CallAll, CallAllUnordered}`: how a service comes out again, and what is dropped then.

use futures::task::Poll;
use scripted::flow::{Flowing, next};
use std::test::Fail;
use tests_support::checks::Checks;
use tests_support::log::Log;
use tests_support::run::task;
use tests_support::script::{Readiness, Reply, Script};
use tests_support::service::Scripted;
use tests_support::stream::{Outbox, Requests};
use tower_base::service::{Flow, Service};
use tower_ware::util::call_all::{Error, law};
use tower_ware::util::{CallAll, CallAllUnordered};

// The test's side of the service and of the requests.
#[derive(Drop)]
struct Desk<'a> {
    log: &'a Log,
    script: Script<'a>,
    outbox: Outbox,
}

impl<'a> Desk<'a> {
    fn new(log: &'a Log, outbox: Outbox) -> Desk<'a> {
        Desk {
            log,
            script: Script::new(log),
            outbox,
        }
    }

    fn service(&self) -> Scripted<'_> {
        Scripted::new(&self.script, 's')
    }

    fn requests(&self) -> Requests<'_> {
        Requests::new(self.log, &self.outbox)
    }
}

// A request that waits for the service, and what came of it once the stream was unordered.
fn handed_over(rt: &HostRuntime, desk: &Desk<'_>) -> Result<[String; 2], Fail> {
    let (alloc, solo) = (rt.alloc(), task(rt)?);
    desk.script
        .readiness(&[Readiness::Pending, Readiness::Ready]);
    let calls = CallAll::new(alloc, desk.service(), desk.requests());
    let mut calls = Some(Flowing::new(calls));
    let kept = next(alloc, &solo, &mut calls)?;
    let Some(calls) = calls else {
        return Err("it ended".into());
    };
    let calls = calls.into_inner();
    if !calls.can_unorder() {
        return Err("a call is without its answer".into());
    }
    let mut rest = Some(Flowing::new(calls.unordered()));
    Ok([kept, next(alloc, &solo, &mut rest)?])
}

#[test]
fn unordered_hands_a_kept_request_over(rt: HostRuntime) -> Result<(), Fail> {
    let checks = Checks::new(rt.alloc());
    let log = Log::new(rt.alloc())?;
    let desk = Desk::new(&log, Outbox::new(1, true));
    let [kept, answered] = handed_over(&rt, &desk)?;
    checks.same(&kept.as_str(), &"pending");
    checks.same(&answered.as_str(), &"ok 0");
    checks.told(
        &log,
        "requests gave 0;s pending;s ready;s called 0;s(0) ready;s(0) dropped;\
         s dropped;requests dropped;",
    );
    checks.verdict()
}

#[test]
fn service_comes_out_again(rt: HostRuntime) -> Result<(), Fail> {
    let checks = Checks::new(rt.alloc());
    let alloc = rt.alloc();
    let log = Log::new(alloc)?;
    let desk = Desk::new(&log, Outbox::new(1, true));
    let mut calls = CallAll::new(alloc, desk.service(), desk.requests());
    checks.holds(calls.has_service() && calls.can_unorder());
    drop(calls.take_service());
    checks.holds(!calls.has_service());
    checks.told(&log, "s dropped;");
    checks.holds(!calls.unordered().has_service());
    checks.told(&log, "requests dropped;");
    let others = CallAllUnordered::new(alloc, desk.service(), desk.requests());
    drop(others.into_inner());
    checks.told(&log, "requests dropped;s dropped;");
    let calls = CallAll::new(alloc, desk.service(), desk.requests());
    drop(calls.into_inner());
    checks.told(&log, "requests dropped;s dropped;");
    law::<Scripted<'_>, Requests<'_>>();
    checks.verdict()
}

// What is left of a stream as its service comes out, with a call in flight.
fn taken_ordered<S>(rt: &HostRuntime, desk: &Desk<'_>, service: S) -> Result<(), Fail>
where
    S: Service<u8, Response = u8, Error = u8>,
    requires { S.sound service }
{
    let (alloc, solo) = (rt.alloc(), task(rt)?);
    let calls = CallAll::new(alloc, service, desk.requests());
    let mut calls = Some(Flowing::new(calls));
    let _answer = next(alloc, &solo, &mut calls)?;
    let Some(calls) = calls else {
        return Err("it ended".into());
    };
    let calls = calls.into_inner();
    if !calls.has_service() {
        return Err("no service".into());
    }
    drop(calls.into_inner());
    Ok(())
}

fn taken_unordered<S>(rt: &HostRuntime, desk: &Desk<'_>, service: S) -> Result<(), Fail>
where
    S: Service<u8, Response = u8, Error = u8>,
    requires { S.sound service }
{
    let (alloc, solo) = (rt.alloc(), task(rt)?);
    let calls = CallAllUnordered::new(alloc, service, desk.requests());
    let mut calls = Some(Flowing::new(calls));
    let _answer = next(alloc, &solo, &mut calls)?;
    let Some(calls) = calls else {
        return Err("it ended".into());
    };
    let calls = calls.into_inner();
    if !calls.has_service() {
        return Err("no service".into());
    }
    drop(calls.into_inner());
    Ok(())
}

#[test]
fn call_in_flight_is_dropped_as_the_service_comes_out(rt: HostRuntime) -> Result<(), Fail> {
    let checks = Checks::new(rt.alloc());
    let log = Log::new(rt.alloc())?;
    let desk = Desk::new(&log, Outbox::new(1, false));
    desk.script.replies(&[Reply::Never]);
    let told = "requests gave 0;s ready;s called 0;s(0) pending;requests pending;\
        requests dropped;s(0) dropped;s dropped;";
    taken_ordered(&rt, &desk, desk.service())?;
    checks.told(&log, told);
    taken_unordered(&rt, &desk, desk.service())?;
    checks.told(&log, told);
    checks.verdict()
}

#[test]
fn service_is_there_after_the_end(rt: HostRuntime) -> Result<(), Fail> {
    let checks = Checks::new(rt.alloc());
    let alloc = rt.alloc();
    let log = Log::new(alloc)?;
    let desk = Desk::new(&log, Outbox::new(0, true));
    let mut calls = CallAll::new(alloc, desk.service(), desk.requests());
    let solo = task(&rt)?;
    let mut cx = solo.begin();
    let answer = calls.flow(&mut cx);
    cx.cancel();
    checks.same(&answer, &Poll::Ready(None));
    if !calls.has_service() {
        return Err("no service".into());
    }
    drop(calls.take_service());
    checks.told(&log, "requests ended;s dropped;");
    checks.verdict()
}

#[test]
fn errors_have_texts(rt: HostRuntime) -> Result<(), Fail> {
    let (inner, memory): (Error<u8>, Error<u8>) = (Error::Inner(1), Error::Memory);
    let text = format!(in rt.alloc(); "{inner}, {memory}")?;
    assert_eq!(rt; text.as_str(), "1, out of memory");
    Ok(())
}
