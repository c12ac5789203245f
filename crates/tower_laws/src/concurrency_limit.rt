//! The law of `ConcurrencyLimit`.
ghost use Rattle.std.specs.Prelude.{All, IfOk, ◌≡◌, ◌≤◌, vec_len};
ghost use Rattle.tower_base.specs.ServiceRun.{relations};
ghost use Rattle.tower_laws.specs.ConcurrencyLimit.{Holds, PollsKeep, ResponsesHold};
ghost use Rattle.tower_laws.specs.Wakes.{TicketsAreNamed};

use std::alloc::{AllocError, Global};
use tower_base::service::Service;
use tower_latch::Latch;
use tower_limit::limit::concurrency::future::ResponseFuture;
use tower_limit::limit::concurrency::{ConcurrencyLimit, LineCore, Semaphore};

/// States of each run of a limit over a semaphore that the response of each call holds a permit of it,
/// and holds it still after each of its polls. So `release_responses` takes all of them.
pub fn law<Request, S: Service<Request>, L: Latch<LineCore>>()
    ensures runs { ResponsesHold L.Latch
        (relations ⟦<ConcurrencyLimit<S, L> as Service<Request>>⟧) }
    ensures polls { PollsKeep L.Latch S.Future.Steps.own }
{}

/// States whom a step of the line of permits wakes, if it names whoever no longer stalls, as each step of a
/// `LineCore` does: a ticket that waits for a permit, if the step frees one for it, or ends its wait. The
/// one that a `LineCore` names doesn't wait any more (clause `one` of its `step`).
pub fn wakes()
    ensures { TicketsAreNamed }
{}

/// Drops responses that hold permits of the semaphore, and gives the permits back. Returns how many
/// responses they were: never more than the latch has permits, whoever has gathered them. If there is no
/// memory for as many permits, each response gives its own back by its drop.
pub fn release_responses<F: Drop, L: Latch<LineCore>>(
    alloc: Global,
    semaphore: &Semaphore<L>,
    mut responses: Vec<ResponseFuture<F, L>>,
) -> Result<usize, AllocError>
    requires { All (Holds L.Latch semaphore.now) responses.items }
    ensures count { IfOk result (λ count. count ≡ vec_len responses) }
    ensures bound { IfOk result (λ count. count ≤ L.terms semaphore.now.latch) }
{
    let mut permits = Vec::new(alloc);
    permits.reserve(responses.len())?;
    while let Some(response) = responses.pop() {
        let Some(permit) = response.into_permit() else {
            unreachable!();
        };
        permits.push_reserved(permit);
    }
    Ok(semaphore.release_all(permits))
}
