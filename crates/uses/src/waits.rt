//! Programs that wait, over any stack that contains a rate limit: a map of the responses above it, and a
//! loop of calls.
ghost use Rattle.std.specs.Prelude.{IfOk};
ghost use Rattle.tower_base.specs.Projection.{AtMostOnce, Through};
ghost use Rattle.tower_limit.specs.RateRun.{KeepsRate};

use crate::server::Server;
use std::alloc::AllocGlobal;
use std::cell::Cell;
use std::io;
use std::random::RandomSource;
use std::sync::Wait;
use tower::limit::rate::{Rate, RateLimit};
use tower::run::Contains;
use tower::service::{Monotonic, SystemClock};
use tower::util::{MapResponse, projection, runs};
use tower::{BlockOnExt, Service};

// Calls a map of the responses with each request. It passes each call on as it is, so that the calls that
// reach the server keep to the rate.
fn ask_mapped<W, S, C, N, T, R, F>(
    rt: &R,
    stack: &mut MapResponse<W, N>,
    requests: Vec<u32>,
    each: F,
) -> io::Result<()>
where
    W: Contains<u32, u32, RateLimit<S, C>>,
    S: Service<u32>,
    C: Monotonic,
    N: Fn(W::Response) -> T + Copy,
    T: Drop,
    R: Wait + RandomSource + AllocGlobal,
    F: FnMut(Result<T, W::Error>) + Drop,
    requires stack { W.sound stack.old.inner }
    requires map { N.IsAlwaysCallable stack.old.f }
    requires callable { F.IsAlwaysCallable each }
    ensures { IfOk result (λ _. KeepsRate S.Service C.Clock (Through AtMostOnce W.goes) (W.inside stack.old.inner) requests.items
        (W.inside stack.new.inner)) }
{
    projection::map_response::<W, N, u32, T>();
    runs::within_rate_through::<u32, u32, MapResponse<W, N>, W, S, C>();
    runs::loops::<u32, MapResponse<W, N>, F>();
    stack.block_on_each(rt, requests, each)?;
    Ok(())
}

// Calls a stack in a loop of its own, whose invariant is that the stack had a run so far (`RanOn`). Returns
// how many calls were answered.
fn count_answers<W, S, C, R>(rt: &R, stack: &mut W) -> io::Result<u32>
where
    W: Contains<u32, u32, RateLimit<S, C>>,
    S: Service<u32>,
    C: Monotonic,
    R: Wait + RandomSource + AllocGlobal,
    requires { W.sound stack.old }
    ensures { IfOk result (λ _. (made : _) × KeepsRate S.Service C.Clock (Through AtMostOnce W.goes) (W.inside stack.old) made
        (W.inside stack.new)) }
{
    runs::within_rate::<u32, u32, W, S, C>();
    let mut answered: u32 = 0;
    for request in 1..4 {
        let answer = stack.block_on_call(rt, request)?;
        answered = answered.saturating_add(u32::from(answer.is_ok()));
    }
    Ok(answered)
}

/// Makes three calls of a limit, and then two of a map of its responses.
pub fn within_rate<R>(rt: R) -> io::Result<()>
where
    R: Wait + RandomSource + AllocGlobal + Print + std::time::Clock + Copy,
{
    let (alloc, sum) = (rt.alloc(), Cell::new(0));
    let rate = Rate::new(20, 1_000_000_000);
    let mut limit = RateLimit::new(alloc, Server(7), rate, SystemClock::new(rt)?)?;
    println!(rt; "waits: {} of 3 calls", count_answers(&rt, &mut limit)?)?;
    let mut thirds = MapResponse::new(limit, |answer: u32| answer / 3);
    ask_mapped(&rt, &mut thirds, vec![in alloc; 4, 5]?, |answer| {
        sum.set(u32::saturating_add(sum.get(), answer.unwrap_or(0)));
    })?;
    println!(rt; "waits: {} in two calls", sum.get())
}
