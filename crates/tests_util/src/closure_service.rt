//! `service_fn`: copies.

use futures::future::ready;
use std::test::Fail;
use tests_support::checks::Checks;
use tests_support::run::{fire, task};
use tower_util::util::service_fn;

#[test]
fn copy_serves_alike(rt: HostRuntime) -> Result<(), Fail> {
    let checks = Checks::new(rt.alloc());
    let solo = task(&rt)?;
    let service = service_fn(|x: u8| ready(Ok::<u8, u8>(x / 3)));
    let copy = service;
    checks.same(&fire(&solo, service, 12), &Some(Ok(4)));
    checks.same(&fire(&solo, copy, 15), &Some(Ok(5)));
    checks.verdict()
}
