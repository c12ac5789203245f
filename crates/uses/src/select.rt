//! `Select` and `Delay`, in an event loop that wakes their task.

use crate::attempt::Attempt;
use crate::server::Server;
use crate::tell;
use futures::future::pending;
use std::alloc::AllocGlobal;
use std::io;
use std::random::RandomSource;
use std::sync::Wait;
use tower::hedge::delay::{self, Delay};
use tower::hedge::select::{self, Select};
use tower::{ServiceExt, service_fn};
use tower_time::ClockLoop;

/// A policy that makes each request a second time, the given number of nanoseconds later.
#[derive(Clone, Copy)]
struct After(u64);

impl select::Policy<u32> for After {
    fn clone_request(&mut self, request: &u32) -> Option<u32> {
        Some(*request)
    }
}

impl delay::Policy<u32> for After {
    fn delay(&mut self, _request: &u32) -> u64 {
        self.0
    }
}

/// Calls a primary that doesn't answer, so that the backup does, a millisecond later. Meanwhile the thread
/// sleeps in the loop, whose clock the delay waits for.
pub fn ask_a_backup<R>(rt: R) -> io::Result<()>
where
    R: Wait + RandomSource + AllocGlobal + Print + std::time::Clock + Copy,
{
    let primary = service_fn(|_request: u32| Attempt::Hangs(pending()));
    let after = After(1_000_000);
    let mut tasks = ClockLoop::new(rt, &rt)?;
    let backup = Delay::new(after, Server(2), tasks.clock());
    let answer = tasks.block_on(&rt, Select::new(after, primary, backup).oneshot(1))?;
    tell(rt, "select", answer)
}
