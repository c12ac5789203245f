//! A whole run that keeps to a rate, over the machine's clock.

use std::test::Fail;
use tests_support::checks::Checks;
use tests_support::log::Log;
use tests_support::run::{task, text_of};
use tests_support::script::Script;
use tests_support::service::Scripted;
use tower_base::drive::Event;
use tower_base::service::SystemClock;
use tower_limit::limit::rate::{Rate, RateLimit, drive_within_rate};

// One call an hour. After the first, 1,500 polls are pending.
#[test]
fn run_within_a_rate(rt: HostRuntime) -> Result<(), Fail> {
    let checks = Checks::new(rt.alloc());
    let log = Log::new(rt.alloc())?;
    let script = Script::new(&log);
    let alloc = rt.alloc();
    let rate = Rate::new(1, 3_600_000_000_000);
    let inner = Scripted::new(&script, 's');
    let limit = RateLimit::new(alloc, inner, rate, SystemClock::new(rt)?)?;
    let mut events = vec![in alloc;
        Event::Poll,
        Event::Call(7u8),
        Event::Future(0),
        Event::Poll,
        Event::Call(8),
        Event::Turn(3u8),
    ]?;
    for _ in 0..1500u16 {
        events.push(Event::Poll)?;
    }
    let solo = task(&rt)?;
    let mut cx = solo.begin();
    let run = drive_within_rate(alloc, &mut cx, limit, events, |turn: u8| turn);
    cx.cancel();
    let text = text_of(alloc, &run?)?;
    let mut wanted = "ready;call 0;0 ok 7;pending;skipped;at 3;".to_string(alloc)?;
    for _ in 0..1500u16 {
        wanted.push_str("pending;")?;
    }
    checks.same(&text.as_str(), &wanted.as_str());
    checks.told(
        &log,
        "s ready;s called 7;s(7) ready;s dropped;s(7) dropped;",
    );
    checks.verdict()
}
