//! The texts of the errors of `tower::balance` and `tower::ready_cache`.

use std::test::Fail;
use tower_pool::balance::{Error, MakeError};
use tower_pool::ready_cache::error::{Error as CacheError, Failed};

#[test]
fn errors_have_texts(rt: HostRuntime) -> Result<(), Fail> {
    let inner: Error<u8, u8> = Error::Inner(5);
    let discover: Error<u8, char> = Error::Discover('x');
    let memory: Error<u8, u8> = Error::Memory;
    let (made, none): (MakeError<u8>, MakeError<u8>) = (MakeError::Inner(5), MakeError::Memory);
    let polled: CacheError<u8, u8> = CacheError::Failed(1, 7);
    let full: CacheError<u8, u8> = CacheError::Memory;
    let checked = Failed(1u8, 7u8);
    let text = format!(in rt.alloc();
        "{inner}, {discover}, {memory}, {made}, {none}; {polled}, {full}, {checked}"
    )?;
    assert_eq!(rt;
        text.as_str(),
        "5, load balancer discovery error: x, out of memory, 5, out of memory; 7, out of memory, 7"
    );
    Ok(())
}
