//! Stacks whose responses are under way, 64 at once, in a table.
ghost use Rattle.std.specs.Prelude.{◌<◌, length};

use crate::buffers::Nobody;
use crate::inner::Pace;
use crate::late::{Late, LateMaker};
use crate::retries::Paying;
use crate::rounds::{Course, PLACES};
use crate::{hedges, maps, stacks};
use futures::future::{ok, ready};
use futures::task::Context;
use std::alloc::{AllocError, AllocGlobal};
use std::sync::Wait;
use tower::balance::p2c::Balance;
use tower::discover::ServiceList;
use tower::filter::{Filter, PredicateFn};
use tower::limit::rate::Rate;
use tower::limit::{ConcurrencyLimit, RateLimit};
use tower::load::{CompleteOnResponse, PendingRequests};
use tower::load_shed::LoadShed;
use tower::reconnect::Reconnect;
use tower::retry::Retry;
use tower::retry::budget::TpsBudget;
use tower::service::Fraction;
use tower::spawn_ready::SpawnReady;
use tower::steer::{PickerFn, Steer};
use tower::timeout::Timeout;

/// What the responses come through.
#[derive(Clone, Copy)]
pub enum Flight {
    /// No middleware.
    Direct,
    /// A response may take 10.
    Timeout,
    /// A rate limit that is never reached.
    Rate,
    /// 64 calls in flight.
    Limit,
    LoadShed,
    /// As `tower-run`'s, with the two limits above.
    All,
    /// A policy that pays for its retries, of which there are none.
    Budget,
    /// One of eight services.
    Steer,
    /// Each request passes.
    Filter,
    /// It is connected.
    Reconnect,
    /// Five maps.
    Maps,
    /// A balancer over 64 endpoints whose requests are counted.
    Balance,
    /// A service that gets ready in a task, and is ready at once.
    SpawnReady,
    /// A hedge that asks for all of its ten latencies.
    Hedge,
}

/// All of them by their names.
pub const NAMES: [(&'static str, Flight); 14] = [
    ("direct", Flight::Direct),
    ("timeout", Flight::Timeout),
    ("rate_limit", Flight::Rate),
    ("concurrency_limit", Flight::Limit),
    ("load_shed", Flight::LoadShed),
    ("all", Flight::All),
    ("retry_budget", Flight::Budget),
    ("steer_8", Flight::Steer),
    ("filter", Flight::Filter),
    ("reconnect", Flight::Reconnect),
    ("maps_5", Flight::Maps),
    ("balance_p2c_64_pending_requests", Flight::Balance),
    ("spawn_ready", Flight::SpawnReady),
    ("hedge", Flight::Hedge),
];

impl Flight {
    /// The flights of this name.
    pub fn named(name: &str) -> Option<Flight> {
        let name = name.strip_prefix("flight_64_")?;
        for (known, flight) in NAMES {
            if known == name {
                return Some(flight);
            }
        }
        None
    }

    /// Makes the service, and has the course drive it.
    pub fn run<R: Wait + AllocGlobal + Copy, T: Course>(
        self,
        rt: R,
        cx: &mut Context<'_>,
        course: &T,
    ) -> Result<u64, AllocError> {
        let pace = Pace::new(0);
        match self {
            Flight::Direct => course.run(cx, Late),
            Flight::Timeout => course.run(cx, Timeout::new(Late, 10, pace.clock())),
            Flight::Rate => {
                let rate = Rate::new(65536, 1 << 60);
                let limited = RateLimit::new(rt.alloc(), Late, rate, pace.clock())?;
                course.run(cx, limited)
            }
            Flight::Limit => {
                let limited = ConcurrencyLimit::new(rt, rt.alloc(), Late, PLACES)?;
                course.run(cx, limited)
            }
            Flight::LoadShed => course.run(cx, LoadShed::new(Late)),
            Flight::All => {
                let rate = Rate::new(65536, 1 << 60);
                stacks::layered(rt, cx, Late, pace.clock(), rate, PLACES, course)
            }
            Flight::Budget => paid(rt, cx, &pace, course),
            Flight::Steer => steered(rt, cx, course),
            Flight::Filter => {
                let predicate = PredicateFn::new(|request: u64| Ok::<u64, u64>(request));
                course.run(cx, Filter::new(Late, predicate))
            }
            Flight::Reconnect => course.run(cx, Reconnect::with_connection(Late, LateMaker, 0)),
            Flight::Maps => mapped(cx, course),
            Flight::Balance => balanced(rt, cx, course),
            Flight::SpawnReady => spawned(rt, cx, course),
            Flight::Hedge => hedges::hedged(rt, cx, Late, &pace, 10, course),
        }
    }
}

// Under retries that are paid for.
fn paid<R: Wait + AllocGlobal + Copy, T: Course>(
    rt: R,
    cx: &mut Context<'_>,
    pace: &Pace,
    course: &T,
) -> Result<u64, AllocError> {
    let part = Fraction::new(1, 5);
    let budget = TpsBudget::new(rt, rt.alloc(), 10_000_000_000, 10, part, pace.clock())?;
    course.run(cx, Retry::new(Paying::new(budget), Late))
}

// Under a steer over eight.
#[inline(never)]
fn steered<R: Wait + AllocGlobal + Copy, T: Course>(
    rt: R,
    cx: &mut Context<'_>,
    course: &T,
) -> Result<u64, AllocError> {
    let services = vec![in rt.alloc(); Late, Late, Late, Late, Late, Late, Late, Late]?;
    let f = |request: &u64, services: &[Late]| -> usize
        ensures { 0 < length services.now → result < length services.now }
    { ((*request % 8) as usize).min(services.len().saturating_sub(1)) };
    course.run(cx, Steer::new(rt.alloc(), services, PickerFn::new(f))?)
}

// Under five maps.
fn mapped<T: Course>(cx: &mut Context<'_>, course: &T) -> Result<u64, AllocError> {
    maps::five(
        cx,
        Late,
        course,
        |request: u64| request.wrapping_add(1),
        |response: u64| response.wrapping_add(2),
        |error: u64| error.wrapping_add(3),
        |answer: Result<u64, u64>| ready(answer),
        |response: u64| ok::<u64, u64>(response.wrapping_add(4)),
    )
}

// Under a balancer.
#[inline(never)]
fn balanced<R: Wait + AllocGlobal + Copy, T: Course>(
    rt: R,
    cx: &mut Context<'_>,
    course: &T,
) -> Result<u64, AllocError> {
    let mut services = Vec::new(rt.alloc());
    for _ in 0..64 {
        let service = PendingRequests::new(rt, rt.alloc(), Late, CompleteOnResponse)?;
        services.push(service).map_err(|_| AllocError)?;
    }
    course.run(cx, Balance::new(rt.alloc(), ServiceList::new(services)))
}

// Over a service that would get ready in a task.
fn spawned<R: Wait + AllocGlobal + Copy, T: Course>(
    rt: R,
    cx: &mut Context<'_>,
    course: &T,
) -> Result<u64, AllocError> {
    course.run(cx, SpawnReady::new(rt, rt.alloc(), Late, Nobody)?)
}
