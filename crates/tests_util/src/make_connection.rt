//! `MakeConnection`: each service is a maker of connections.

use futures::task::{Context, Poll};
use std::test::Fail;
use tests_support::checks::Checks;
use tests_support::log::Log;
use tests_support::run::task;
use tests_support::script::Script;
use tests_support::service::Scripted;
use tower_base::service::Steps;
use tower_util::make::MakeConnection;

// What a maker of connections makes at the first poll.
fn connected<C: MakeConnection<u8>>(
    mut maker: C,
    cx: &mut Context<'_>,
) -> Option<Poll<Result<C::Connection, C::Error>>>
    requires { C.sound maker }
{
    match maker.poll_ready(cx) {
        Poll::Ready(Ok(())) => Some(maker.make_connection(1).step(cx)),
        _ => None,
    }
}

#[test]
fn response_is_the_connection(rt: HostRuntime) -> Result<(), Fail> {
    let checks = Checks::new(rt.alloc());
    let log = Log::new(rt.alloc())?;
    let script = Script::new(&log);
    let solo = task(&rt)?;
    let mut cx = solo.begin();
    let answer = connected(Scripted::new(&script, 'a'), &mut cx);
    cx.cancel();
    checks.same(&answer, &Some(Poll::Ready(Ok(1))));
    checks.told(
        &log,
        "a ready;a called 1;a(1) ready;a(1) dropped;a dropped;",
    );
    checks.verdict()
}
