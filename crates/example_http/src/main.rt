//! An HTTP/1.1 server over standard input and output, as inetd or a socket unit runs it: one process for
//! each connection. The kit's `hyper` serves the connection, and a stack of `tower` answers the requests.
//!
//! The body of each request is read before its response, up to 1 MiB, so that the connection goes on. If it
//! is longer, the connection ends with a 413, and a client that still sends may be reset before it has read
//! that. So it may be if its request was refused (503) or too slow (504).
//!
//! `example_http crowd N` serves N connections in memory at once in place of that, which share one stack,
//! and prints how they were answered. `example_http crowd N F` has the Fth of their reads and writes fail.
#![tactic(auto)]

mod answer;
mod asked;
mod connection;
mod crowd;
mod mode;
mod page;
mod pipe;
mod raw_peer;
mod reply;
mod routes;
mod stack;
mod stream;
mod tally;
mod visits;

use mode::Connections;
use routes::Routes;
use stack::answer_all;
use std::rc::Rc;
use stream::Stream;
use tower_time::ClockLoop;
use visits::Visits;

fn main(rt: HostRuntime) -> anyhow::Result<()> {
    let mut tasks = ClockLoop::new(rt, &rt)?;
    let connections = Connections::asked(&rt)?;
    let visits = Rc::new(rt.alloc(), Visits::new())?;
    let routes = Routes::new(rt.alloc(), tasks.clock(), visits.clone()?);
    let stream = Stream::Standard(rt.stdin(), rt.stdout());
    answer_all(&rt, &mut tasks, stream, routes, connections)?;
    match connections {
        Connections::Standard => Ok(()),
        Connections::Crowd { .. } => visits.report(&rt),
    }
}
