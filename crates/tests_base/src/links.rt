//! `tower_base::links::Links`: when its values are dropped. Its clauses say the rest.

use std::alloc::AllocError;
use std::test::Fail;
use tests_support::checks::Checks;
use tests_support::log::Log;
use tests_support::plain::Plain;
use tower_base::links::Links;

fn push<T: Drop>(list: &mut Links<T>, value: T) -> Result<usize, AllocError> {
    list.reserve(1)?;
    Ok(list.push_back(value))
}

#[test]
fn each_value_is_dropped_once(rt: HostRuntime) -> Result<(), Fail> {
    let alloc = rt.alloc();
    let checks = Checks::new(alloc);
    let log = Log::new(alloc)?;
    let mut list = Links::new(alloc);
    let first = push(&mut list, Plain::new(&log, 'a'))?;
    push(&mut list, Plain::new(&log, 'b'))?;
    let last = push(&mut list, Plain::new(&log, 'c'))?;
    checks.holds(list.remove(first).is_some());
    checks.told(&log, "a dropped;");
    checks.holds(list.unlink(last));
    drop(list);
    checks.told(&log, "b dropped;c dropped;");
    checks.verdict()
}
