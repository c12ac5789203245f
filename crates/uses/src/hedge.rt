//! `Hedge`.

use crate::attempt::Attempt;
use crate::tell;
use futures::future::pending;
use std::alloc::AllocGlobal;
use std::cell::Cell;
use std::convert::Infallible;
use std::fmt::Display;
use std::io;
use std::random::RandomSource;
use std::sync::Wait;
use tower::hedge::delay::{self, Delay};
use tower::hedge::rotating_histogram::HistoCore;
use tower::hedge::select::{self, Select};
use tower::hedge::{Flat, Hedge, Policy};
use tower::latch::Latch;
use tower::service::{Clock, Fraction, SystemClock};
use tower::{BlockOnExt, Service, ServiceBuilder, filter, service_fn};

/// A policy by which each request may be made twice.
#[derive(Clone, Copy)]
struct Twice;

impl Policy<u32> for Twice {
    fn clone_request(&self, request: &u32) -> Option<u32> {
        Some(*request)
    }

    fn can_retry(&self, _request: &u32) -> bool {
        true
    }
}

// Reads through any hedge, under a timeout.
fn read_in_time<R, S>(rt: R, hedged: S) -> io::Result<()>
where
    R: Wait + RandomSource + AllocGlobal + Print + std::time::Clock + Copy,
    S: Service<u32, Response = u32>,
    S::Error: Display,
    requires { S.sound hedged }
{
    let mut client = ServiceBuilder::new()
        .timeout(3_600_000_000_000, SystemClock::new(rt)?)
        .service(hedged)?;
    tell(rt, "hedged read", client.block_on_call(&rt, 1)?)
}

// Calls a hedge, which is made of these parts. The check doesn't end at the types that the hedge has below,
// so it is passed through one generic function after another.
fn call<R, P, A, D, F, C>(rt: R, mut client: Flat<Select<P, A, Delay<D, F, C>>>) -> io::Result<()>
where
    R: Wait + RandomSource + AllocGlobal + Print + std::time::Clock + Copy,
    P: select::Policy<u32>,
    A: Service<u32, Response = u32, Error = Infallible>,
    D: delay::Policy<u32>,
    F: Service<u32, Response = u32, Error = filter::Error<Infallible, Infallible>> + Clone,
    C: Clock,
    requires policy { P.sound client.policy }
    requires first { A.sound client.a }
    requires delay { D.sound client.b.policy }
    requires second { F.sound client.b.service }
    requires clones { (x y : F) → F.is_clone x y → F.sound x → F.sound y }
{
    tell(rt, "hedge", client.block_on_call(&rt, 1)?)?;
    read_in_time(rt, client)
}

fn call_hedge<R, S, L, C>(rt: R, client: Hedge<S, Twice, L, C>) -> io::Result<()>
where
    R: Wait + RandomSource + AllocGlobal + Print + std::time::Clock + Copy,
    S: Service<u32, Response = u32, Error = Infallible> + Clone,
    L: Latch<HistoCore>,
    C: Clock,
    requires first { S.sound client.a.service }
    requires second { S.sound client.b.service.inner.service }
    requires clones { (x y : S) → S.is_clone x y → S.sound x → S.sound y }
{
    call(rt, client)
}

/// Calls a server whose first attempt doesn't answer. Nine of ten requests took a millisecond, so after
/// that time a second attempt is made, which answers. Then reads once more, under a timeout.
pub fn ask_again<R>(rt: R) -> io::Result<()>
where
    R: Wait + RandomSource + AllocGlobal + Print + std::time::Clock + Copy,
{
    let (clock, hour) = (SystemClock::new(rt)?, 3_600_000_000_000);
    let is_asked = Cell::new(false);
    let server = service_fn(|_request: u32| -> Attempt {
        if is_asked.replace(true) {
            Attempt::Answers
        } else {
            Attempt::Hangs(pending())
        }
    });
    let hedge = Hedge::new_with_mock_latencies(
        rt,
        rt.alloc(),
        server,
        Twice,
        1,
        Fraction::new(9, 10),
        hour,
        clock,
        &[1],
    )?;
    call_hedge(rt, hedge)
}
