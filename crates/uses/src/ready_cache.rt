//! `ReadyCache`.

use crate::server::Server;
use crate::tell;
use futures::executor::block_on;
use futures::future::Ready;
use futures::task::{Context, Doorbell, Solo};
use std::alloc::AllocGlobal;
use std::convert::Infallible;
use std::io;
use std::random::RandomSource;
use std::sync::Wait;
use tower::latch::held::Pollable;
use tower::ready_cache::ReadyCache;

type Pool = ReadyCache<u16, Server, u32>;

/// A response that is awaited later.
type Response = Pollable<Ready<Result<u32, Infallible>>>;

// Polls the endpoints that aren't ready yet, and calls the one at this port if it is ready.
fn call(pool: &mut Pool, cx: &mut Context<'_>, port: u16) -> Option<Response> {
    let _ = pool.poll_pending(cx);
    match pool.check_ready(cx, &port) {
        Ok(true) => Some(Pollable::new(pool.call_ready(&port, 1))),
        _ => None,
    }
}

/// Calls the endpoint of one key.
pub fn call_by_key<R>(rt: R) -> io::Result<()>
where
    R: Wait + RandomSource + AllocGlobal + Print + Copy,
{
    let mut pool = ReadyCache::new(rt.alloc());
    for port in [8001, 8002] {
        let pushed = pool.push(port, Server(port as u32));
        pushed.map_err(|_| io::Error::other("out of memory"))?;
    }
    let solo = Solo::new(&rt, Doorbell::spinning())?;
    let mut cx = solo.begin();
    let called = call(&mut pool, &mut cx, 8002);
    cx.cancel();
    match called {
        Some(response) => tell(rt, "ready_cache", block_on(&rt, response.into_inner())?),
        None => Ok(()),
    }
}
