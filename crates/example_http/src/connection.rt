//! A connection whose requests a stack answers.
ghost use Rattle.std.specs.Prelude.{◌≡◌, IfOk};
ghost use Rattle.hyper.specs.ServerDispatch.{IsNewFor};

use crate::answer::Failure;
use crate::crowd::Serves;
use crate::page::Page;
use crate::pipe::Pipe;
use crate::raw_peer::RawPeer;
use futures::future::{Future, Join, join};
use hyper::body::Incoming;
use hyper::server::conn::http1;
use hyper::{Request, Response};
use std::alloc::AllocGlobal;
use std::hash::RandomState;
use std::random::RandomSource;
use std::sync::Wait;
use std::{io, rt};
use tokio::io::{AsyncRead, AsyncWrite};
use tower::Service;
use tower_hyper::service::TowerToHyperService;
use tower_time::ClockLoop;

/// The future that serves a connection.
pub type Served<I, S> = http1::Connection<I, TowerToHyperService<S>, Page>;

/// The future that serves a connection in memory, and of its client.
pub type Talk<I, S> = Join<Served<I, S>, RawPeer<Pipe>, hyper::Result<()>, Vec<u8>>;

/// Serves one connection until the client is done, and returns what `hyper` returns. The contract is `hyper`'s
/// own (`Closes`) of a connection that was new over this IO and this stack: what was written are the responses
/// to the requests that were read, in their order, each of them given by a call of the service with the
/// request at its place. After `Ok` the IO was shut down.
///
/// Returns an error if there is no memory or no randomness.
pub fn serve<R, Q, I, S>(
    rt: &R,
    tasks: &mut ClockLoop<Q>,
    io: I,
    stack: S,
) -> io::Result<hyper::Result<()>>
where
    R: Wait + RandomSource + AllocGlobal,
    Q: rt::Clock + Copy,
    I: AsyncRead + AsyncWrite,
    S: Service<Request<Incoming<I>>, Response = Response<Page>, Error = Failure> + Clone,
    requires sound { S.sound stack }
    requires clones { (old new : S) → S.is_clone old new → S.sound old → S.sound new }
    ensures closes { IfOk result (λ ended. (served : _) × IsNewFor served.conn io stack
        × ⟦<http1::Connection<I, TowerToHyperService<S>, Page> as Future>⟧.gives served ended) }
{
    let served = served(rt, io, stack)?;
    tasks.block_on(rt, served)
}

/// Returns a future that serves the connection until it is closed. The connection is new. A call of its
/// service is one call of a clone of the stack, once that is ready.
pub fn served<R, I, S>(rt: &R, io: I, stack: S) -> io::Result<Served<I, S>>
where
    R: RandomSource + AllocGlobal,
    I: AsyncRead + AsyncWrite,
    S: Service<Request<Incoming<I>>, Response = Response<Page>, Error = Failure> + Clone,
    requires sound { S.sound stack }
    requires clones { (old new : S) → S.is_clone old new → S.sound old → S.sound new }
    ensures new { IfOk result (λ served. IsNewFor served.conn io stack) }
    ensures runs { IfOk result ⟦<http1::Connection<I, TowerToHyperService<S>, Page> as Future>⟧.can_poll }
{
    let mut http = http1::Builder::new(rt.alloc(), RandomState::new(rt)?);
    // Standard streams block, so nothing may be read while a response is due.
    http.half_close(true);
    Ok(http.serve_connection(io, TowerToHyperService::new(stack)))
}

/// A stack whose clones answer the requests of all connections.
#[derive(Drop)]
pub struct OneStack<S> {
    stack: S,
}

impl<S> OneStack<S> {
    pub fn new(stack: S) -> OneStack<S>
        ensures { result.stack ≡ stack }
    {
        OneStack { stack }
    }
}

impl<I, S> Serves<I> for OneStack<S>
where
    I: AsyncRead + AsyncWrite,
    S: Service<Request<Incoming<I>>, Response = Response<Page>, Error = Failure> + Clone,
{
    type Talk = Talk<I, S>;

    ghost can_serve = { λ one. S.sound one.stack × ((old new : S) → S.is_clone old new → S.sound old → S.sound new) };

    fn serve<R: RandomSource + AllocGlobal>(
        &self,
        rt: &R,
        io: I,
        client: RawPeer<Pipe>,
    ) -> io::Result<Talk<I, S>> {
        Ok(join(served(rt, io, self.stack.clone()?)?, client))
    }
}
