//! The stacks by their names.
ghost use Rattle.std.specs.Prelude.{◌<◌, length};

use crate::balances::Pool;
use crate::flights::Flight;
use crate::inner::{Echo, Maker, Pace};
use crate::lines::Line;
use crate::rounds::{AtOnce, Course, InFlight, rounds};
use crate::{buffers, hedges, lines, maps, retries, waits};
use futures::future::{ok, ready};
use futures::task::Context;
use std::alloc::{AllocError, AllocGlobal};
use std::random::RandomSource;
use std::sync::Wait;
use tower::Service;
use tower::filter::{Filter, PredicateFn};
use tower::limit::rate::Rate;
use tower::limit::{ConcurrencyLimit, RateLimit};
use tower::load_shed::LoadShed;
use tower::reconnect::Reconnect;
use tower::service::Clock;
use tower::steer::{PickerFn, Steer};
use tower::timeout::Timeout;

/// What the rounds are made of.
#[derive(Clone, Copy)]
pub enum Stack {
    /// No middleware.
    Direct,
    /// A response may take 10.
    Timeout,
    /// A rate limit that is never reached.
    Rate,
    /// A rate limit that is reached in each round.
    FullRate,
    /// One call in flight.
    Limit,
    LoadShed,
    /// As `tower-run`'s.
    All,
    /// A policy that pays for its retries. This inner service asks for none.
    Budget,
    /// Each round has one retry.
    OneRetry,
    /// One of eight services.
    Steer,
    /// Each request passes.
    Filter,
    /// It is connected.
    Reconnect,
    /// Five maps.
    Maps,
    /// A hedge, with so many latencies asked for, of which ten are known.
    Hedge(u64),
    /// A buffer of 64 and its worker.
    Buffer,
    /// A service that gets ready in a task, and is ready at once.
    SpawnReady,
    /// A semaphore alone: a permit is taken and given back.
    Semaphore,
    /// A semaphore of one, for which so many tasks wait.
    Contended(usize),
    /// The line of permits alone, with so many waiters.
    Line(Line, u64),
    /// A balancer, with so many endpoints.
    Pool(Pool, usize),
    /// `block_on_call` under a timeout, by one waiter.
    Waiter,
    /// The same, by a waiter for each call.
    WaiterAnew,
    /// Responses that are under way in a table.
    Flight(Flight),
}

impl Stack {
    /// The stack of this name.
    pub fn named(name: &str) -> Option<Stack> {
        match name {
            "direct" => Some(Stack::Direct),
            "timeout" => Some(Stack::Timeout),
            "rate_limit" => Some(Stack::Rate),
            "rate_limit_each_window_full" => Some(Stack::FullRate),
            "concurrency_limit" => Some(Stack::Limit),
            "load_shed" => Some(Stack::LoadShed),
            "all" => Some(Stack::All),
            "retry_budget" => Some(Stack::Budget),
            "retry_budget_one_retry" => Some(Stack::OneRetry),
            "steer_8" => Some(Stack::Steer),
            "filter" => Some(Stack::Filter),
            "reconnect" => Some(Stack::Reconnect),
            "maps_5" => Some(Stack::Maps),
            "hedge_too_few_points" => Some(Stack::Hedge(11)),
            "hedge" => Some(Stack::Hedge(10)),
            "buffer_64" => Some(Stack::Buffer),
            "spawn_ready" => Some(Stack::SpawnReady),
            "semaphore_take_give" => Some(Stack::Semaphore),
            "block_on_call" => Some(Stack::Waiter),
            "block_on_call_anew" => Some(Stack::WaiterAnew),
            _ => Stack::of_parts(name),
        }
    }

    // Those whose names have a part or a number.
    fn of_parts(name: &str) -> Option<Stack> {
        if let Some(flight) = Flight::named(name) {
            return Some(Stack::Flight(flight));
        }
        if let Some((line, waiters)) = Line::named(name) {
            return Some(Stack::Line(line, waiters));
        }
        if let Some(number) = name.strip_prefix("semaphore_contended_") {
            return match number.parse() {
                Ok(waiters) => Some(Stack::Contended(waiters)),
                Err(_) => None,
            };
        }
        let (pool, endpoints) = Pool::named(name)?;
        Some(Stack::Pool(pool, endpoints))
    }

    /// Makes so many rounds, and answers the sum of their responses.
    pub fn sum<R: Wait + RandomSource + AllocGlobal + Copy>(
        self,
        rt: R,
        cx: &mut Context<'_>,
        count: u64,
    ) -> Result<u64, AllocError> {
        let pace = Pace::new(self.step());
        match self {
            Stack::Direct => Ok(rounds(cx, Echo, &pace, count)),
            Stack::Timeout => {
                let service = Timeout::new(Echo, 10, pace.clock());
                Ok(rounds(cx, service, &pace, count))
            }
            Stack::Rate => rated(rt, cx, Rate::new(65536, 1 << 60), &pace, count),
            Stack::FullRate => rated(rt, cx, Rate::new(1, 1), &pace, count),
            Stack::Limit => {
                let service = ConcurrencyLimit::new(rt, rt.alloc(), Echo, 1)?;
                Ok(rounds(cx, service, &pace, count))
            }
            Stack::LoadShed => Ok(rounds(cx, LoadShed::new(Echo), &pace, count)),
            Stack::All => {
                let rate = Rate::new(2, 10);
                layered(
                    rt,
                    cx,
                    Echo,
                    pace.clock(),
                    rate,
                    1,
                    &AtOnce::new(&pace, count),
                )
            }
            Stack::Budget => retries::paid(rt, cx, &pace, count),
            Stack::OneRetry => retries::retried(rt, cx, &pace, count),
            Stack::Steer => steered(rt, cx, &pace, count),
            Stack::Filter => Ok(filtered(cx, &pace, count)),
            Stack::Reconnect => Ok(connected(cx, &pace, count)),
            Stack::Maps => mapped(cx, &pace, count),
            Stack::Hedge(points) => {
                let course = AtOnce::new(&pace, count);
                hedges::hedged(rt, cx, Echo, &pace, points, &course)
            },
            Stack::Buffer => buffers::buffered(rt, cx, count),
            Stack::SpawnReady => buffers::spawned(rt, cx, &pace, count),
            Stack::Semaphore => lines::take_give(rt, cx, count),
            Stack::Contended(waiters) => lines::contended(rt, waiters, count),
            Stack::Line(line, waiters) => line.sum(rt.alloc(), waiters, count),
            Stack::Pool(pool, endpoints) => pool.sum(rt, cx, &pace, endpoints, count),
            Stack::Waiter => {
                let service = Timeout::new(Echo, 10, pace.clock());
                waits::by_one(&rt, service, &pace, count)
            }
            Stack::WaiterAnew => {
                let service = Timeout::new(Echo, 10, pace.clock());
                Ok(waits::anew(&rt, service, &pace, count))
            }
            Stack::Flight(flight) => flight.run(rt, cx, &InFlight::new(rt, count)),
        }
    }

    // How far the clock goes on in a round.
    fn step(self) -> u64 {
        match self {
            Stack::FullRate => 1,
            Stack::All => 5,
            _ => 0,
        }
    }
}

// Under a rate limit.
fn rated<R: AllocGlobal + Copy>(
    rt: R,
    cx: &mut Context<'_>,
    rate: Rate,
    pace: &Pace,
    count: u64,
) -> Result<u64, AllocError> {
    let service = RateLimit::new(rt.alloc(), Echo, rate, pace.clock())?;
    Ok(rounds(cx, service, pace, count))
}

/// Under the four of `tower-run`'s, the time outermost and the rate innermost.
#[inline(never)]
pub fn layered<R, S, C, T>(
    rt: R,
    cx: &mut Context<'_>,
    inner: S,
    clock: C,
    rate: Rate,
    most: usize,
    course: &T,
) -> Result<u64, AllocError>
where
    R: Wait + AllocGlobal + Copy,
    S: Service<u64, Response = u64>,
    C: Clock,
    T: Course,
    requires { S.sound inner }
{
    let rated = RateLimit::new(rt.alloc(), inner, rate, clock.share())?;
    let limited = ConcurrencyLimit::new(rt, rt.alloc(), rated, most)?;
    course.run(cx, Timeout::new(LoadShed::new(limited), 10, clock))
}

// Under a steer over eight.
fn steered<R: Wait + AllocGlobal + Copy>(
    rt: R,
    cx: &mut Context<'_>,
    pace: &Pace,
    count: u64,
) -> Result<u64, AllocError> {
    let services = vec![in rt.alloc(); Echo, Echo, Echo, Echo, Echo, Echo, Echo, Echo]?;
    let f = |request: &u64, services: &[Echo]| -> usize
        ensures { 0 < length services.now → result < length services.now }
    { ((*request % 8) as usize).min(services.len().saturating_sub(1)) };
    let service = Steer::new(rt.alloc(), services, PickerFn::new(f))?;
    Ok(rounds(cx, service, pace, count))
}

// Under a filter.
fn filtered(cx: &mut Context<'_>, pace: &Pace, count: u64) -> u64 {
    let predicate = PredicateFn::new(|request: u64| Ok::<u64, u64>(request));
    rounds(cx, Filter::new(Echo, predicate), pace, count)
}

// Under a connection that is there.
fn connected(cx: &mut Context<'_>, pace: &Pace, count: u64) -> u64 {
    let service = Reconnect::with_connection(Echo, Maker, 0);
    rounds(cx, service, pace, count)
}

// Under five maps.
fn mapped(cx: &mut Context<'_>, pace: &Pace, count: u64) -> Result<u64, AllocError> {
    maps::five(
        cx,
        Echo,
        &AtOnce::new(pace, count),
        |request: u64| request.wrapping_add(1),
        |response: u64| response.wrapping_add(2),
        |error: u64| error.wrapping_add(3),
        |answer: Result<u64, u64>| ready(answer),
        |response: u64| ok::<u64, u64>(response.wrapping_add(4)),
    )
}
