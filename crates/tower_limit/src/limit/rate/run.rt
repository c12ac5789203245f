//! Rate limits over whole runs of the stacks that contain them. The Rust has no such module.
ghost use Rattle.std.specs.Prelude.{IfOk};
ghost use Rattle.futures.specs.Task.{Keeps};
ghost use Rattle.tower_base.specs.Drive.{Run, initial};
ghost use Rattle.tower_base.specs.Projection.{Once, Projects};
ghost use Rattle.tower_base.specs.ProjectionLemmas.{itself};
ghost use Rattle.tower_base.specs.ServiceRun.{relations, made};
ghost use Rattle.tower_limit.specs.RateRun.{KeepsRate, RunsBounded, RunsForward};

use crate::limit::rate::RateLimit;
use futures::task::Context;
use std::alloc::{AllocError, Global};
use tower_base::drive::{Event, Transcript, drive};
use tower_base::run::{self, Contains};
use tower_base::service::{Clock, Monotonic, Service};

/// States the rate bound of every run of a rate limit of which no call was made before: if the readings
/// of the clock don't go back, any half-open interval of length `per` has at most `num` of the moments
/// of its calls. The readings of a monotonic clock don't go back. Each call makes one call of the inner
/// service, with the same request.
pub fn law<Request, S: Service<Request>, C: Clock>()
    ensures bounded { RunsBounded S.Service C.Clock }
    ensures forward { RunsForward S.Service C.Clock }
    ensures inside { Projects (relations ⟦<RateLimit<S, C> as Service<Request>>⟧)
        (relations S.Service) (λ l. l.inner) Once }
{}

/// A rate limit contains itself.
impl<Request, S: Service<Request>, C: Clock> Contains<Request, Request, RateLimit<S, C>>
    for RateLimit<S, C> {
    ghost inside = { λ l. l };

    ghost goes = { Once };

    ghost projects = { itself _ };
}

/// Drives a stack that contains a rate limit over a monotonic clock, as `drive` does. The calls that
/// reach the service below the limit are those that went through the limit. If it had no call before, they
/// keep to its rate.
pub fn drive_within_rate<Request, Passed, W, S, C, T, U, O>(
    alloc: Global,
    cx: &mut Context<'_>,
    stack: W,
    events: Vec<Event<Request, T>>,
    outside: O,
) -> Result<Transcript<W::Response, W::Error, U>, AllocError>
where
    Request: Drop,
    W: Contains<Request, Passed, RateLimit<S, C>>,
    S: Service<Passed>,
    C: Monotonic,
    T: Drop,
    U: Drop,
    O: FnMut(T) -> U + Drop,
    requires sound { W.sound stack }
    requires outside { O.IsAlwaysCallable outside }
    ensures run { IfOk result (λ transcript. (last : _)
        × Run W.Service W.Future.stepped O.step (initial stack outside)
        events.items transcript.entries.items last) }
    ensures rate { IfOk result (λ transcript. (last : _)
        × Run W.Service W.Future.stepped O.step (initial stack outside)
        events.items transcript.entries.items last
        × KeepsRate S.Service C.Clock W.goes (W.inside stack)
        (made events.items transcript.entries.items) (W.inside last.service)) }
    ensures kept { Keeps cx.old cx.new }
{
    run::inside::<Request, Passed, RateLimit<S, C>, W, T, U, O>();
    let transcript = drive(alloc, cx, stack, events, outside)?;
    Ok(transcript)
}
