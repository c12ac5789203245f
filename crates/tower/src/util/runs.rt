//! Runs of programs that wait: what waiting on the calling thread is for a service, and for a rate limit
//! inside it. The Rust has no such module.
ghost use Rattle.std.specs.Prelude.{IfOk};
ghost use Rattle.tower_base.specs.Projection.{AtMostOnce, Once, Projects, Through};
ghost use Rattle.tower_base.specs.ServiceRun.{relations};
ghost use Rattle.tower_limit.specs.RateRun.{KeepsRate};
ghost use Rattle.tower.specs.Waits.{Each};
ghost use Rattle.tower.specs.WaitRuns.{IfNew, LoopsRun, RunsWithin, WaitsRun, WithinRate};

use crate::limit::rate::RateLimit;
use crate::util::block_on_each;
use std::alloc::AllocGlobal;
use std::io;
use std::random::RandomSource;
use std::sync::Wait;
use tower_base::run::Contains;
use tower_base::service::{Monotonic, Service};

/// States that what `block_on_ready` and `block_on_call` do is a run of the service: a call makes its
/// request once, or, if readiness fails, not at all. Runs that continue one another are one run.
pub fn law<Request, S: Service<Request>>()
    ensures { WaitsRun S.Service S.Future.stepped }
{}

/// States that what `block_on_each` does is a run of the service.
pub fn loops<Request, S, F>()
where
    S: Service<Request>,
    F: FnMut(Result<S::Response, S::Error>),
    ensures { LoopsRun S.Service S.Future.stepped F.step }
{}

/// States that in each such run of a stack that contains a rate limit over a monotonic clock the calls that
/// reach the limit keep to its rate.
pub fn within_rate<Request, Passed, W, S, C>()
where
    W: Contains<Request, Passed, RateLimit<S, C>>,
    S: Service<Passed>,
    C: Monotonic,
    ensures { RunsWithin W.Service S.Service C.Clock W.inside W.goes }
{}

/// States it of a service that passes each call, once, to such a stack, as a `MapResponse` around it does:
/// `util::projection` has the projections of the maps.
pub fn within_rate_through<Request, Passed, V, W, S, C>()
where
    V: Service<Request>,
    W: Contains<Request, Passed, RateLimit<S, C>>,
    S: Service<Passed>,
    C: Monotonic,
    ensures { (inside : V → W) → Projects (relations V.Service) (relations W.Service) inside Once
        → RunsWithin V.Service S.Service C.Clock (λ v. W.inside (inside v)) W.goes }
{}

/// Calls a stack that contains a rate limit over a monotonic clock with each of the requests, in order, as
/// `block_on_each` does. The calls that reach the service below the limit are those that went through the
/// limit, and they keep to its rate.
///
/// The outer error means that the executor failed. The later requests aren't made then.
pub fn block_on_each_within_rate<Request, Passed, W, S, C, R, F>(
    stack: &mut W,
    rt: &R,
    requests: Vec<Request>,
    each: F,
) -> io::Result<()>
where
    Request: Drop,
    W: Contains<Request, Passed, RateLimit<S, C>>,
    S: Service<Passed>,
    C: Monotonic,
    R: Wait + RandomSource + AllocGlobal,
    F: FnMut(Result<W::Response, W::Error>) + Drop,
    requires sound { W.sound stack.old }
    requires callable { F.IsAlwaysCallable each }
    ensures sound { W.sound stack.new }
    ensures told { IfOk result (λ _. (last : F)
        × Each W.Service W.Future.stepped F.step requests.items stack.old each stack.new last) }
    ensures rate { IfOk result (λ _. KeepsRate S.Service C.Clock (Through AtMostOnce W.goes)
        (W.inside stack.old) requests.items (W.inside stack.new)) }
    ensures bound { IfOk result (λ _. IfNew (W.inside stack.old) (λ num per. WithinRate num per
        S.Service C.Clock (Through AtMostOnce W.goes) (W.inside stack.old) requests.items
        (W.inside stack.new))) }
{
    loops::<Request, W, F>();
    within_rate::<Request, Passed, W, S, C>();
    block_on_each(stack, rt, requests, each)?;
    Ok(())
}
