//! `Reconnect`, and `Sealed` in a loop.

use crate::queued::queued;
use crate::tell;
use futures::future::{Ready, ok};
use futures::task::{Context, Poll};
use std::alloc::AllocGlobal;
use std::fmt::Display;
use std::io;
use std::random::RandomSource;
use std::sync::Wait;
use tower::reconnect::Reconnect;
use tower::util::Sealed;
use tower::{BlockOnExt, Service, service_fn};

/// The error of a connection that takes no more requests.
#[derive(Clone, Copy, Debug, thiserror::Error)]
#[error("closed")]
struct Closed;

/// A connection that answers one request with the request itself, and is then closed.
#[derive(Clone, Copy)]
struct Connection {
    is_closed: bool,
}

impl Service<u32> for Connection {
    type Response = u32;

    type Error = Closed;

    type Future = Ready<Result<u32, Closed>>;

    // It may always be called.
    ghost readies = { λ _ _ _. tt };

    fn poll_ready(&mut self, _cx: &mut Context<'_>) -> Poll<Result<(), Closed>> {
        Poll::Ready(if self.is_closed { Err(Closed) } else { Ok(()) })
    }

    fn call(&mut self, request: u32) -> Self::Future {
        self.is_closed = true;
        ok(request)
    }
}

// Makes three calls. `Sealed` keeps the service sound through the loop.
fn call_three<R, S>(rt: R, service: S) -> io::Result<()>
where
    R: Wait + RandomSource + AllocGlobal + Print + Copy,
    S: Service<u32, Response = u32>,
    S::Error: Display,
    requires { S.sound service }
{
    let mut service = Sealed::new(service);
    for request in 1..4 {
        tell(rt, "reconnect", service.block_on_call(&rt, request)?)?;
    }
    Ok(())
}

/// Makes three calls, each over a new connection.
pub fn connect_again<R>(rt: R) -> io::Result<()>
where
    R: Wait + RandomSource + AllocGlobal + Print + Copy,
{
    let connect = service_fn(|_port: u16| -> Ready<Result<Connection, Closed>> {
        ok(Connection { is_closed: false })
    });
    call_three(rt, Reconnect::new(connect, 5432))
}

/// Makes two calls of such a connection behind a buffer.
pub fn connect_behind_a_buffer<R>(rt: R) -> io::Result<()>
where
    R: Wait + RandomSource + AllocGlobal + Print + Copy,
{
    let connect = service_fn(|_port: u16| -> Ready<Result<Connection, Closed>> {
        ok(Connection { is_closed: false })
    });
    queued(rt, "queued reconnect", Reconnect::new(connect, 5432))
}
