//! `tower::load_shed`: its errors and defaults.

use std::test::Fail;
use tests_support::checks::Checks;
use tower_ware::load_shed::error::Overloaded;
use tower_ware::load_shed::{Error, LoadShedLayer};

#[test]
fn errors_have_texts(rt: HostRuntime) -> Result<(), Fail> {
    let checks = Checks::new(rt.alloc());
    let (refused, inner): (Error<u8>, Error<u8>) = (Error::Overloaded, Error::Inner(7));
    checks.same(
        &format!(in rt.alloc(); "{refused}, {inner}, {}", Overloaded::new())?.as_str(),
        &"service overloaded, 7, service overloaded",
    );
    checks.same(&Overloaded::default(), &Overloaded::new());
    checks.same(&LoadShedLayer::default(), &LoadShedLayer::new());
    checks.verdict()
}
