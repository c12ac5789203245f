//! `Ready`.

use futures::task::Poll;
use std::test::Fail;
use tests_support::checks::Checks;
use tests_support::log::Log;
use tests_support::run::{stepped, task};
use tests_support::script::{Readiness, Script};
use tests_support::service::Scripted;
use tower_util::util::Ready;

#[test]
fn error_of_readiness_is_answered(rt: HostRuntime) -> Result<(), Fail> {
    let checks = Checks::new(rt.alloc());
    let log = Log::new(rt.alloc())?;
    let script = Script::new(&log);
    let solo = task(&rt)?;
    script.readiness(&[Readiness::Error(90)]);
    let mut service = Scripted::new(&script, 'a');
    let mut waiting = Ready::<Scripted<'_>, u8>::new(&mut service);
    checks.holds(matches!(stepped(&solo, &mut waiting), Poll::Ready(Err(90))));
    checks.told(&log, "a error 90;");
    checks.verdict()
}
