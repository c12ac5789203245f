//! `Shared`: copies.

use std::test::Fail;
use tests_support::checks::Checks;
use tests_support::run::{fire, task};
use tower_util::make::Shared;

#[test]
fn copy_gives_clones_too(rt: HostRuntime) -> Result<(), Fail> {
    let checks = Checks::new(rt.alloc());
    let solo = task(&rt)?;
    let byte = Shared::new(7u8);
    let copy = byte;
    checks.holds(matches!(fire(&solo, byte, 1u8), Some(Ok(7))));
    checks.holds(matches!(fire(&solo, copy, 1u8), Some(Ok(7))));
    checks.verdict()
}
