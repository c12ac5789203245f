//! Connections in memory, which share one stack.
ghost use Rattle.std.specs.Prelude.{IfOk};

use crate::pipe::{Fault, Pipe};
use crate::raw_peer::RawPeer;
use crate::tally::Tally;
use futures::StreamExt;
use futures::future::Future;
use futures::stream::FuturesUnordered;
use std::alloc::{AllocError, AllocGlobal, Global};
use std::cell::Cell;
use std::random::RandomSource;
use std::rc::Rc;
use std::sync::Wait;
use std::{io, rt};
use tokio::io::duplex;
use tower_time::ClockLoop;

// The bytes that a pipe holds in each direction. A response needs several writes.
const PIPE: usize = 64;

const REQUEST: &[u8] = b"GET /slow/50 HTTP/1.1\r\nhost: h\r\nconnection: close\r\n\r\n";

/// What serves connections.
pub trait Serves<I> {
    /// A connection and its client, which makes one request: how the connection ended, and what the client read.
    type Talk: Future<Output = (hyper::Result<()>, Vec<u8>)>;

    // Connections may be served.
    ghost can_serve: { Self → Type 0 };

    /// Returns a future that serves the connection until both sides are done.
    fn serve<R: RandomSource + AllocGlobal>(
        &self,
        rt: &R,
        io: I,
        client: RawPeer<Pipe>,
    ) -> io::Result<Self::Talk>
        requires { can_serve self.now }
        ensures { IfOk result Self.Talk.can_poll };
}

// The two ends of a connection in memory: a client's, which makes one request, and a server's.
fn connect(alloc: Global, fault: &Fault) -> Result<(RawPeer<Pipe>, Pipe), AllocError> {
    let (near, far) = duplex(alloc, PIPE)?;
    let near = Pipe::new(near, fault.clone()?);
    let client = RawPeer::new(alloc, near, REQUEST);
    Ok((client, Pipe::new(far, fault.clone()?)))
}

/// Serves so many connections at once, each of which makes one request, and prints how they were answered.
fn crowd<R, Q, T, F, H>(
    rt: &R,
    tasks: &mut ClockLoop<Q>,
    host: &H,
    connections: u64,
    fault: &Fault,
) -> anyhow::Result<()>
where
    R: Wait + RandomSource + AllocGlobal + Print,
    Q: rt::Clock + Copy,
    T: From<Pipe>,
    F: Future<Output = (hyper::Result<()>, Vec<u8>)>,
    H: Serves<T, Talk = F>,
    requires { H.can_serve host.now }
{
    let mut talks = FuturesUnordered::new(rt.alloc())?;
    for _ in 0..connections {
        let (client, server) = connect(rt.alloc(), fault)?;
        if talks
            .push(host.serve(rt, T::from(server), client)?)
            .is_err()
        {
            return Err(AllocError.into());
        }
    }
    let mut tally = Tally::new();
    for (_ended, read) in tasks.block_on(rt, talks.collect(rt.alloc()))?? {
        tally.note(read.as_slice());
    }
    tally.report(rt, connections)
}

/// Serves a crowd, one of whose reads or writes may fail, and then one of five, which are all served if all
/// permits are back.
pub fn crowds<R, Q, T, F, H>(
    rt: &R,
    tasks: &mut ClockLoop<Q>,
    host: &H,
    connections: u64,
    fault: u64,
) -> anyhow::Result<()>
where
    R: Wait + RandomSource + AllocGlobal + Print,
    Q: rt::Clock + Copy,
    T: From<Pipe>,
    F: Future<Output = (hyper::Result<()>, Vec<u8>)>,
    H: Serves<T, Talk = F>,
    requires { H.can_serve host.now }
{
    let fault = Rc::new(rt.alloc(), Cell::new(fault))?;
    crowd::<R, Q, T, F, H>(rt, tasks, host, connections, &fault)?;
    fault.set(0);
    crowd::<R, Q, T, F, H>(rt, tasks, host, 5, &fault)
}
