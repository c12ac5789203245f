//! `Shared`, `FutureService` and `Oneshot`.

use crate::server::Server;
use crate::tell;
use futures::executor::block_on;
use futures::future::{Ready, ok};
use std::alloc::AllocGlobal;
use std::convert::Infallible;
use std::io;
use std::random::RandomSource;
use std::sync::Wait;
use tower::make::Shared;
use tower::util::FutureService;
use tower::{BlockOnExt, ServiceExt};

/// Calls, once, the clone of a service that a `Shared` makes.
pub fn call_a_clone<R>(rt: R) -> io::Result<()>
where
    R: Wait + RandomSource + AllocGlobal + Print + Copy,
{
    match Shared::new(Server(1)).block_on_call(&rt, ())? {
        Ok(server) => tell(rt, "shared", block_on(&rt, server.oneshot(1))?),
        Err(_) => Err(io::Error::other("out of memory")),
    }
}

/// Calls a service that a future gives. It is ready once the future is.
pub fn await_a_service<R>(rt: R) -> io::Result<()>
where
    R: Wait + RandomSource + AllocGlobal + Print + Copy,
{
    let coming: Ready<Result<Server, Infallible>> = ok(Server(1));
    tell(
        rt,
        "future_service",
        FutureService::new(coming).block_on_call(&rt, 1)?,
    )
}
