//! `LoadShed`.

use crate::server::Server;
use crate::tell;
use std::alloc::AllocGlobal;
use std::io;
use std::random::RandomSource;
use std::sync::Wait;
use tower::BlockOnExt;
use tower::limit::ConcurrencyLimit;
use tower::load_shed::LoadShed;

/// Calls a service under a limit of 0, which is never ready, so that the call is refused at once.
pub fn refuse<R>(rt: R) -> io::Result<()>
where
    R: Wait + RandomSource + AllocGlobal + Print + Copy,
{
    let full = ConcurrencyLimit::new(rt, rt.alloc(), Server(1), 0)?;
    tell(rt, "load_shed", LoadShed::new(full).block_on_call(&rt, 1)?)
}
