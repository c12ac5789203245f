//! `tower::reconnect`: its errors.

use std::test::Fail;
use tower_ware::reconnect::Error;

#[test]
fn errors_have_texts(rt: HostRuntime) -> Result<(), Fail> {
    let errors: [Error<u8, u8>; 3] = [Error::Inner(1), Error::Make(2), Error::Memory];
    let [inner, make, memory] = errors;
    let text = format!(in rt.alloc(); "{inner}, {make}, {memory}")?;
    assert_eq!(rt; text.as_str(), "1, 2, out of memory");
    Ok(())
}
