//! Stacks behind a buffer: a server, one that sheds load, and, in `reconnect`, a connection that is made again.
//!
//! The check covers a buffer in a function over any service, and refuses one in the function that makes
//! the layers below it. So `queued` takes any service, and `two_at_once` any buffer.

ghost use Rattle.std.specs.Prelude.{◌≡◌};

use crate::server::Server;
use crate::tell;
use futures::executor::LocalPool;
use futures::future::Future;
use futures::task::Doorbell;
use std::alloc::{AllocError, AllocGlobal};
use std::fmt::Display;
use std::io;
use std::random::RandomSource;
use std::sync::Wait;
use tower::buffer::Buffer;
use tower::service::Polled;
use tower::util::Sealed;
use tower::{Service, ServiceBuilder, ServiceExt};

// Makes a second call before the response of the first is polled. Prints the second answer, and then the
// first. `Sealed` keeps the buffer sound from one call to the next.
fn two_at_once<R, B, W>(rt: R, name: &str, buffer: B, worker: W) -> io::Result<()>
where
    R: Wait + RandomSource + AllocGlobal + Print + Copy,
    B: Service<u32, Response = u32>,
    B::Error: Display,
    W: Future<Output = ()> + Drop,
    requires sound { B.sound buffer }
    requires can_poll { W.can_poll worker }
{
    let mut pool = LocalPool::with_doorbell(&rt, Doorbell::parking())?;
    if pool.spawner()?.spawn(worker).is_err() {
        return Err(AllocError.into());
    }
    let mut client = Sealed::new(buffer);
    let first = match pool.run_until(&rt, client.ready())? {
        Ok(client) => Polled::new(client.call(1)),
        Err(error) => return tell(rt, name, Err::<u32, _>(error)),
    };
    let second = match pool.run_until(&rt, client.ready())? {
        Ok(client) => pool.run_until(&rt, Polled::new(client.call(2)))?,
        Err(error) => Err(error),
    };
    tell(rt, name, second)?;
    tell(rt, name, pool.run_until(&rt, first)?)
}

/// Makes two calls of a buffer around any service.
pub fn queued<R, S>(rt: R, name: &str, service: S) -> io::Result<()>
where
    R: Wait + RandomSource + AllocGlobal + Print + Copy,
    S: Service<u32, Response = u32>,
    S::Error: Display + Clone,
    requires sound { S.sound service }
    requires same { (x y : S.Error) → S.Error.is_clone x y → y ≡ x }
{
    match Buffer::pair(rt, rt.alloc(), service, 8) {
        Ok((buffer, worker)) => two_at_once(rt, name, buffer, worker),
        Err(AllocError) => Err(AllocError.into()),
    }
}

/// Calls a server while the pool polls its buffer's worker. Clones of the buffer may call from elsewhere.
pub fn call_beside_the_worker<R>(rt: R) -> io::Result<()>
where
    R: Wait + RandomSource + AllocGlobal + Print + Copy,
{
    queued(rt, "buffer", Server(1))
}

/// Calls a server that takes one request at a time and sheds the others.
pub fn shed_load<R>(rt: R) -> io::Result<()>
where
    R: Wait + RandomSource + AllocGlobal + Print + Copy,
{
    let server = ServiceBuilder::new()
        .load_shed()
        .concurrency_limit(rt, rt.alloc(), 1)
        .service(Server(1))?;
    queued(rt, "shedding server", server)
}
