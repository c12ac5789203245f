//! `MakeBalance` over a `ServiceList`.

use crate::server::Server;
use crate::tell;
use futures::future::{Ready, ready};
use std::alloc::{AllocError, AllocGlobal, Global};
use std::io;
use std::random::RandomSource;
use std::sync::Wait;
use tower::balance::p2c::MakeBalance;
use tower::discover::ServiceList;
use tower::load::Constant;
use tower::util::rng::HasherRng;
use tower::{BlockOnExt, service_fn};

/// A list of servers, each with its distance as its load.
type Servers = ServiceList<Constant<Server, u32>>;

fn servers(alloc: Global) -> Result<Servers, AllocError> {
    let near = Constant::new(Server(1), 12);
    let far = Constant::new(Server(2), 30);
    Ok(ServiceList::new(vec![in alloc; near, far]?))
}

/// Calls a server through a balancer. A directory makes a list of servers, `MakeBalance` makes a balancer
/// over it, and that calls the nearer server.
pub fn make_a_pool<R>(rt: R) -> io::Result<()>
where
    R: Wait + RandomSource + AllocGlobal + Print + Copy,
{
    let alloc = rt.alloc();
    let directory = service_fn(|_region: u8| -> Ready<Result<Servers, AllocError>> {
        ready(servers(alloc))
    });
    match MakeBalance::new(alloc, directory, HasherRng::new()).block_on_call(&rt, 1)? {
        Ok(mut pool) => tell(rt, "make_balance", pool.block_on_call(&rt, 1)?),
        Err(_) => Err(io::Error::other("out of memory")),
    }
}
