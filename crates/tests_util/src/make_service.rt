//! `MakeService`: each service of services is a maker, and a maker is a service.
ghost use Rattle.std.specs.Prelude.{IfSome};

use futures::task::{Context, Poll};
use std::test::Fail;
use tests_support::checks::Checks;
use tests_support::log::Log;
use tests_support::run::{fire, stepped, task};
use tests_support::script::{Readiness, Reply, Script};
use tests_support::service::{Maker, Target};
use tower_base::service::{Service, Steps};
use tower_util::make::MakeService;

// What a maker makes at the first poll.
fn made<M: MakeService<Target, u8>, Target: Drop>(
    mut maker: M,
    target: Target,
    cx: &mut Context<'_>,
) -> Option<Poll<Result<M::Service, M::MakeError>>>
    requires { M.sound maker }
{
    match maker.poll_ready(cx) {
        Poll::Ready(Ok(())) => Some(maker.make_service(target).step(cx)),
        _ => None,
    }
}

#[test]
fn each_service_of_services_is_a_maker(rt: HostRuntime) -> Result<(), Fail> {
    let checks = Checks::new(rt.alloc());
    let log = Log::new(rt.alloc())?;
    let (making, script) = (Script::new(&log), Script::new(&log));
    let solo = task(&rt)?;
    let maker = Maker::new(&making, 'm', &script, 'a');
    let mut cx = solo.begin();
    let answer = made(maker, Target::new(&script, 'p', 5), &mut cx);
    cx.cancel();
    let Some(Poll::Ready(Ok(service))) = answer else {
        return Err("no service".into());
    };
    checks.told(
        &log,
        "m ready;m called 5;p dropped;m(5) ready;m(5) dropped;m dropped;",
    );
    checks.same(&fire(&solo, service, 6), &Some(Ok(6)));
    checks.told(
        &log,
        "a1 ready;a1 called 6;a1(6) ready;a1(6) dropped;a1 dropped;",
    );
    checks.verdict()
}

#[test]
fn maker_that_is_pending_or_fails_makes_nothing(rt: HostRuntime) -> Result<(), Fail> {
    let checks = Checks::new(rt.alloc());
    let log = Log::new(rt.alloc())?;
    let (making, script) = (Script::new(&log), Script::new(&log));
    let solo = task(&rt)?;
    making.readiness(&[Readiness::Pending, Readiness::Ready]);
    making.replies(&[Reply::Fail(0)]);
    let maker = Maker::new(&making, 'm', &script, 'a');
    let mut cx = solo.begin();
    let answer = made(maker, Target::new(&script, 'p', 5), &mut cx);
    cx.cancel();
    checks.holds(answer.is_none());
    checks.told(&log, "m pending;p dropped;m dropped;");
    let maker = Maker::new(&making, 'm', &script, 'a');
    let mut cx = solo.begin();
    let answer = made(maker, Target::new(&script, 'p', 5), &mut cx);
    cx.cancel();
    checks.holds(matches!(answer, Some(Poll::Ready(Err(5)))));
    checks.told(
        &log,
        "m ready;m called 5;p dropped;m(5) ready;m(5) dropped;m dropped;",
    );
    checks.verdict()
}

// Polls a maker by reference, and makes a service of it where it is ready: the loan comes back.
fn made_once_ready<M, S, Target>(
    maker: &mut M,
    target: Target,
    cx: &mut Context<'_>,
) -> Option<M::Future>
where
    M: Service<Target, Response = S>,
    S: Service<u8>,
    Target: Drop,
    requires { M.sound maker.old }
    ensures { IfSome result M.Future.can_poll }
{
    let answer = {
        let mut lent = MakeService::<Target, u8>::as_service(maker);
        Service::poll_ready(&mut lent, cx)
    };
    match answer {
        Poll::Ready(Ok(())) => Some(maker.call(target)),
        _ => None,
    }
}

#[test]
fn maker_makes_once_it_was_found_ready_by_a_loan(rt: HostRuntime) -> Result<(), Fail> {
    let checks = Checks::new(rt.alloc());
    let alloc = rt.alloc();
    let log = Log::new(alloc)?;
    let (making, script) = (Script::new(&log), Script::new(&log));
    making.readiness(&[Readiness::Pending, Readiness::Ready]);
    let solo = task(&rt)?;
    let mut maker = Maker::new(&making, 'm', &script, 'a');
    let mut cx = solo.begin();
    let early = made_once_ready(&mut maker, Target::new(&script, 'p', 5), &mut cx);
    let made = made_once_ready(&mut maker, Target::new(&script, 'q', 6), &mut cx);
    cx.cancel();
    checks.holds(early.is_none());
    let mut future = made.ok_or("not ready")?;
    checks.holds(matches!(stepped(&solo, &mut future), Poll::Ready(Ok(_))));
    checks.told(
        &log,
        "m pending;p dropped;m ready;m called 6;q dropped;m(6) ready;a1 dropped;",
    );
    checks.verdict()
}
