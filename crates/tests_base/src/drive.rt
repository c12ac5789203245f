//! `drive`: which events are skipped, what each entry says, and what is done inside.

use futures::task::Context;
use futures::test::MockTask;
use std::fmt::Write;
use std::test::Fail;
use tests_support::checks::Checks;
use tests_support::log::Log;
use tests_support::run::text_of;
use tests_support::script::{Readiness, Reply, Script};
use tests_support::service::Scripted;
use tower_base::drive::{Event, drive};

// The transcript over a service `a`.
fn run(rt: HostRuntime, script: &Script<'_>, events: Vec<Event<u8, u64>>) -> Result<String, Fail> {
    let alloc = rt.alloc();
    let service = Scripted::new(script, 'a');
    let task = MockTask::new(&rt)?;
    let transcript = task.enter(|cx: &mut Context<'_>| {
        drive(alloc, cx, service, events, |turned: u64| turned)
    })?;
    Ok(text_of(alloc, &transcript)?)
}

#[test]
fn call_without_a_ready_poll_is_skipped(rt: HostRuntime) -> Result<(), Fail> {
    let checks = Checks::new(rt.alloc());
    let log = Log::new(rt.alloc())?;
    let script = Script::new(&log);
    script.readiness(&[
        Readiness::Ready,
        Readiness::Ready,
        Readiness::Ready,
        Readiness::Error(9),
    ]);
    let events = vec![in rt.alloc();
        Event::Call(0),
        Event::Poll,
        Event::Call(0),
        Event::Call(0),
        Event::Poll,
        Event::Poll,
        Event::Call(1),
        Event::Poll,
        Event::Call(0),
    ]?;
    let text = run(rt, &script, events)?;
    checks.same(
        &text.as_str(),
        &"skipped;ready;call 0;skipped;ready;ready;call 1;error 9;skipped;",
    );
    checks.told(
        &log,
        "a ready;a called 0;a ready;a ready;a called 1;a error 9;a dropped;a(0) dropped;a(1) dropped;",
    );
    checks.verdict()
}

#[test]
fn finished_dropped_and_unknown_futures_are_skipped(rt: HostRuntime) -> Result<(), Fail> {
    let checks = Checks::new(rt.alloc());
    let log = Log::new(rt.alloc())?;
    let script = Script::new(&log);
    script.replies(&[Reply::Echo(1)]);
    let events = vec![in rt.alloc();
        Event::Future(0),
        Event::Poll,
        Event::Call(1),
        Event::Future(0),
        Event::Future(0),
        Event::Future(0),
        Event::Drop(0),
        Event::Drop(0),
        Event::Future(0),
        Event::Drop(7),
    ]?;
    let text = run(rt, &script, events)?;
    checks.same(
        &text.as_str(),
        &"skipped;ready;call 0;0 pending;0 ok 1;skipped;drop 0;skipped;skipped;skipped;",
    );
    checks.told(
        &log,
        "a ready;a called 1;a(1) pending;a(1) ready;a(1) dropped;a dropped;",
    );
    checks.verdict()
}

// No clause says that so many events find room: 1,500 polls, as many calls, whose futures are kept, and as many turns.
#[test]
fn many_events_have_an_entry_each(rt: HostRuntime) -> Result<(), Fail> {
    let checks = Checks::new(rt.alloc());
    let log = Log::new(rt.alloc())?;
    let script = Script::new(&log);
    let mut events = Vec::new(rt.alloc());
    let mut wanted = String::new(rt.alloc());
    for number in 0..1500u64 {
        events.push(Event::Poll)?;
        events.push(Event::Call(7u8))?;
        events.push(Event::Turn(number))?;
        let _ = write!(wanted, "ready;call {number};at {number};");
    }
    let text = run(rt, &script, events)?;
    checks.same(&text.as_str(), &wanted.as_str());
    checks.verdict()
}
