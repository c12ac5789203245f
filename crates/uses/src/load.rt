//! `Constant` and `PendingRequests`.

use crate::server::Server;
use std::alloc::AllocGlobal;
use std::io;
use std::random::RandomSource;
use std::sync::Wait;
use tower::load::{CompleteOnResponse, Constant, Load, PendingRequests};
use tower::{BlockOnExt, Service};

/// Prints two loads: one that was given, and the number of requests whose futures still exist.
pub fn of_pending_requests<R>(rt: R) -> io::Result<()>
where
    R: Wait + RandomSource + AllocGlobal + Print + Copy,
{
    let far: Constant<Server, u32> = Constant::new(Server(1), 40);
    println!(rt; "constant: {}", far.load())?;
    let near = Server(2);
    let mut near = PendingRequests::new(rt, rt.alloc(), near, CompleteOnResponse)?;
    if let Ok(()) = near.block_on_ready(&rt)? {
        let _pending = near.call(1);
        println!(rt; "pending_requests: {:?}", near.load())?;
    }
    Ok(())
}
