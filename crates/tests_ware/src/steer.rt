//! `tower::steer`: a closure as a picker. It is asked once for each call.
ghost use Rattle.std.specs.Prelude.{◌<◌, length};

use std::test::Fail;
use tests_support::checks::Checks;
use tests_support::log::Log;
use tests_support::run::{fire, task};
use tests_support::script::Script;
use tests_support::service::Scripted;
use tower_ware::steer::{PickerFn, Steer};

#[test]
fn closure_picks(rt: HostRuntime) -> Result<(), Fail> {
    let checks = Checks::new(rt.alloc());
    let log = Log::new(rt.alloc())?;
    let script = Script::new(&log);
    let solo = task(&rt)?;
    let services = vec![in rt.alloc(); Scripted::new(&script, 'a'), Scripted::new(&script, 'b')]?;
    let last = |_request: &u8, services: &[Scripted<'_>]| -> usize
        ensures { 0 < length services.now → result < length services.now }
    {
        log.note("picked");
        services.len().saturating_sub(1)
    };
    let steer = Steer::new(rt.alloc(), services, PickerFn::new(last))?;
    checks.same(&fire(&solo, steer, 6), &Some(Ok(6)));
    checks.told(
        &log,
        "a ready;b ready;picked;b called 6;b(6) ready;b(6) dropped;a dropped;b dropped;",
    );
    checks.verdict()
}
