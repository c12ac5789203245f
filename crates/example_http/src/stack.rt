//! The layers in front of the routes.

use crate::answer::{Failure, respond};
use crate::mode::{Connections, run};
use crate::page::Page;
use crate::pipe::Pipe;
use hyper::body::Incoming;
use hyper::{Request, Response};
use std::alloc::AllocGlobal;
use std::random::RandomSource;
use std::rt;
use std::sync::Wait;
use tokio::io::{AsyncRead, AsyncWrite};
use tower::{Own, Service, ServiceBuilder, StackError, load_shed};
use tower_time::ClockLoop;

// What `respond` is given.
type Outcome<E> = Result<Response<Page>, load_shed::Error<E>>;

/// Answers requests by the routes, for each of which half a second is left, and by no more at once than the
/// connections allow.
pub fn answer_all<R, Q, T, S>(
    rt: &R,
    tasks: &mut ClockLoop<Q>,
    stream: T,
    routes: S,
    connections: Connections,
) -> anyhow::Result<()>
where
    R: Wait + RandomSource + AllocGlobal + Print + Copy,
    Q: rt::Clock + Copy,
    T: AsyncRead + AsyncWrite + From<Pipe>,
    S: Service<Request<Incoming<T>>, Response = Response<Page>, Error = Own<http::Error>> + Clone,
    requires sound { S.sound routes }
    requires clones { (old new : S) → S.is_clone old new → S.sound old → S.sound new }
{
    let limited = ServiceBuilder::new()
        .concurrency_limit(*rt, rt.alloc(), connections.limit())
        .timeout(500_000_000, tasks.clock())
        .service(routes)?;
    respond_all(rt, tasks, stream, limited, connections)
}

// Answers each request at once if the limit is reached, and tells the client of errors.
fn respond_all<R, Q, T, S, E>(
    rt: &R,
    tasks: &mut ClockLoop<Q>,
    stream: T,
    limited: S,
    connections: Connections,
) -> anyhow::Result<()>
where
    R: Wait + RandomSource + AllocGlobal + Print,
    Q: rt::Clock + Copy,
    T: AsyncRead + AsyncWrite + From<Pipe>,
    S: Service<Request<Incoming<T>>, Response = Response<Page>, Error = E> + Clone,
    E: StackError + Drop,
    requires sound { S.sound limited }
    requires clones { (old new : S) → S.is_clone old new → S.sound old → S.sound new }
{
    let alloc = rt.alloc();
    let stack = ServiceBuilder::new()
        .map_result(move |outcome: Outcome<E>| -> Result<Response<Page>, Failure> {
            respond(alloc, outcome)
        })
        .load_shed()
        .service(limited)?;
    run(rt, tasks, stream, stack, connections)
}
