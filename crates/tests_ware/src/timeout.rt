//! `tower::timeout`: its errors.

use std::test::Fail;
use tests_support::checks::Checks;
use tower_ware::timeout::Error;
use tower_ware::timeout::error::Elapsed;

#[test]
fn errors_have_texts(rt: HostRuntime) -> Result<(), Fail> {
    let checks = Checks::new(rt.alloc());
    let alloc = rt.alloc();
    let (inner, elapsed): (Error<u8>, Error<u8>) = (Error::Inner(3), Error::Elapsed);
    checks.same(
        &format!(in alloc; "{inner}, {elapsed}, {}", Elapsed::new())?.as_str(),
        &"3, request timed out, request timed out",
    );
    checks.same(&Elapsed::new(), &Elapsed::default());
    checks.verdict()
}
