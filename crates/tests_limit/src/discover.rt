//! `tower::discover`: what is dropped and cloned.

use crate::parts::found;
use std::test::Fail;
use tests_support::checks::Checks;
use tests_support::log::Log;
use tests_support::plain::Plain;
use tests_support::run::task;
use tower_limit::discover::{Change, ServiceList};

#[test]
fn services_that_are_left_are_dropped_with_their_list(rt: HostRuntime) -> Result<(), Fail> {
    let checks = Checks::new(rt.alloc());
    let alloc = rt.alloc();
    let log = Log::new(alloc)?;
    let services = vec![in alloc; Plain::new(&log, 'a'), Plain::new(&log, 'b')]?;
    let mut list = ServiceList::new(services);
    let solo = task(&rt)?;
    drop(found(&solo, &mut list));
    checks.told(&log, "a dropped;");
    drop(list);
    checks.told(&log, "b dropped;");
    checks.verdict()
}

#[test]
fn clone_of_a_change_is_of_its_parts(rt: HostRuntime) -> Result<(), Fail> {
    let checks = Checks::new(rt.alloc());
    let alloc = rt.alloc();
    let log = Log::new(alloc)?;
    let insert = Change::Insert(Plain::new(&log, 'k'), Plain::new(&log, 's'));
    drop(insert.clone()?);
    checks.told(&log, "k cloned k1;s cloned s2;k1 dropped;s2 dropped;");
    let remove: Change<Plain<'_>, Plain<'_>> = Change::Remove(Plain::refusing(&log, 'r'));
    checks.holds(remove.clone().is_err());
    checks.told(&log, "r refused;");
    checks.verdict()
}

#[test]
fn change_shows_its_parts(rt: HostRuntime) -> Result<(), Fail> {
    let insert: Change<u8, char> = Change::Insert(1, 'a');
    let remove: Change<u8, char> = Change::Remove(1);
    let text = format!(in rt.alloc(); "{insert:?}, {remove:?}")?;
    assert_eq!(rt; text.as_str(), "Insert(1, 'a'), Remove(1)");
    Ok(())
}
