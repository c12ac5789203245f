//! `tower::load::Constant` as a discovery.

use crate::parts::{Find, Finds, found};
use futures::task::Poll;
use std::test::Fail;
use tests_support::checks::Checks;
use tests_support::log::Log;
use tests_support::run::task;
use tests_support::script::Script;
use tests_support::service::Scripted;
use tower_limit::discover::Change;
use tower_limit::load::{Constant, Load};

#[test]
fn each_service_of_a_discovery_has_the_load(rt: HostRuntime) -> Result<(), Fail> {
    let checks = Checks::new(rt.alloc());
    let alloc = rt.alloc();
    let log = Log::new(alloc)?;
    let script = Script::new(&log);
    let list = [
        Find::Insert(4, 'a'),
        Find::Busy,
        Find::Broken(7),
        Find::Remove(4),
        Find::Insert(5, 'b'),
    ];
    let mut discovery = Constant::new(Finds::new(&script, &list), 9u32);
    let solo = task(&rt)?;
    match found(&solo, &mut discovery) {
        Poll::Ready(Some(Ok(Change::Insert(4, service)))) => assert_eq!(rt; service.load(), 9),
        _ => return Err("a service".into()),
    }
    checks.holds(found(&solo, &mut discovery).is_pending());
    checks.holds(matches!(found(&solo, &mut discovery), Poll::Ready(Some(Err(7)))));
    checks.holds(matches!(
        found(&solo, &mut discovery),
        Poll::Ready(Some(Ok(Change::Remove(4))))
    ));
    match found(&solo, &mut discovery) {
        Poll::Ready(Some(Ok(Change::Insert(5, service)))) => assert_eq!(rt; service.load(), 9),
        _ => return Err("a service".into()),
    }
    checks.holds(matches!(found(&solo, &mut discovery), Poll::Ready(None)));
    drop(discovery);
    checks.told(
        &log,
        "found Insert(4, 'a');a dropped;found Busy;found Broken(7);found Remove(4);\
         found Insert(5, 'b');b dropped;found the end;finds dropped;",
    );
    checks.verdict()
}
