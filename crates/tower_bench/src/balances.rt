//! Rounds of balancers.

use crate::inner::{Echo, Pace};
use crate::rounds::rounds;
use futures::task::Context;
use std::alloc::{AllocError, AllocGlobal};
use std::sync::Wait;
use tower::balance::p2c::Balance;
use tower::discover::ServiceList;
use tower::load::{CompleteOnResponse, Constant, PendingRequests};

/// What a round is made of.
#[derive(Clone, Copy)]
pub enum Pool {
    /// A balancer over endpoints of one load.
    Constant,
    /// A balancer over endpoints whose requests are counted.
    PendingRequests,
}

impl Pool {
    /// The rounds of this name, and how many endpoints there are.
    pub fn named(name: &str) -> Option<(Pool, usize)> {
        let rest = name.strip_prefix("balance_p2c_")?;
        let (pool, number) = match rest.strip_suffix("_constant") {
            Some(number) => (Pool::Constant, number),
            None => (
                Pool::PendingRequests,
                rest.strip_suffix("_pending_requests")?,
            ),
        };
        match number.parse() {
            Ok(endpoints) => Some((pool, endpoints)),
            Err(_) => None,
        }
    }

    /// So many rounds over so many endpoints.
    pub fn sum<R: Wait + AllocGlobal + Copy>(
        self,
        rt: R,
        cx: &mut Context<'_>,
        pace: &Pace,
        endpoints: usize,
        count: u64,
    ) -> Result<u64, AllocError> {
        match self {
            Pool::Constant => constant(rt, cx, pace, endpoints, count),
            Pool::PendingRequests => counted(rt, cx, pace, endpoints, count),
        }
    }
}

// A balancer whose generator hashes a counter.
fn constant<R: Wait + AllocGlobal + Copy>(
    rt: R,
    cx: &mut Context<'_>,
    pace: &Pace,
    endpoints: usize,
    count: u64,
) -> Result<u64, AllocError> {
    let mut services = Vec::new(rt.alloc());
    for _ in 0..endpoints {
        services
            .push(Constant::new(Echo, 0u64))
            .map_err(|_| AllocError)?;
    }
    let balance = Balance::new(rt.alloc(), ServiceList::new(services));
    Ok(rounds(cx, balance, pace, count))
}

// The same over endpoints with a count each.
fn counted<R: Wait + AllocGlobal + Copy>(
    rt: R,
    cx: &mut Context<'_>,
    pace: &Pace,
    endpoints: usize,
    count: u64,
) -> Result<u64, AllocError> {
    let mut services = Vec::new(rt.alloc());
    for _ in 0..endpoints {
        let service = PendingRequests::new(rt, rt.alloc(), Echo, CompleteOnResponse)?;
        services.push(service).map_err(|_| AllocError)?;
    }
    let balance = Balance::new(rt.alloc(), ServiceList::new(services));
    Ok(rounds(cx, balance, pace, count))
}
