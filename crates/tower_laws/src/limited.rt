//! Concurrency limits over whole runs of the stacks that contain them. The Rust has no such module.
ghost use Rattle.std.specs.Prelude.{◌≡◌, ◌≤◌, IfOk, Option, Some, option_and_then};
ghost use Rattle.futures.specs.Task.{Keeps};
ghost use Rattle.tower_base.specs.Drive.{Run, initial};
ghost use Rattle.tower_base.specs.Driver.{state_of};
ghost use Rattle.tower_base.specs.ServiceRun.{relations};
ghost use Rattle.tower_laws.specs.Limited.{AllHold, IsOver, KeepsLimit, RunsHold, living, response_in};
ghost use Rattle.tower_laws.specs.LimitedLemmas.{limit_keeps, rate_keeps, shed_keeps, timeout_keeps};
ghost use Rattle.tower_limit.specs.Concurrency.{ResponseFutureView, SemaphoreView};

use crate::concurrency_limit::release_responses;
use futures::task::Context;
use std::alloc::{AllocError, Global};
use tower_base::drive::{Driver, Event, Slot, Transcript, drive_with_state};
use tower_base::service::{Clock, Service};
use tower_latch::Latch;
use tower_limit::limit::concurrency::future::ResponseFuture;
use tower_limit::limit::concurrency::{ConcurrencyLimit, LineCore, Semaphore};
use tower_limit::limit::rate::RateLimit;
use tower_ware::load_shed::LoadShed;
use tower_ware::timeout::Timeout;

/// A service that contains a `ConcurrencyLimit` over a service whose futures are of type `G`.
///
/// A layer of your own implements it by two ghost lines, a proof and `into_response`. No `impl` looks
/// below a `ConcurrencyLimit`, so in a stack with two limits it speaks of the outer one.
pub trait Limited<Request, G: Drop, L: Latch<LineCore>>: Service<Request> {
    // The limit inside requests permits of this semaphore.
    ghost over: { SemaphoreView L → Self → Type 0 };

    // The limit's response inside a future, if there is one.
    ghost inside: { Self.Future → Option (ResponseFutureView G L) };

    /// Returns the limit's response inside the future, and drops what is around it.
    fn into_response(future: Self::Future) -> Option<ResponseFuture<G, L>>
        ensures { result ≡ inside future };

    // Polls and calls keep the limit over its semaphore, and responses keep their permits.
    ghost keeps: { KeepsLimit L.Latch (relations Self.Service) Self.Future.stepped over inside };
}

/// A `ConcurrencyLimit` contains itself.
impl<Request, L, S> Limited<Request, S::Future, L> for ConcurrencyLimit<S, L>
where
    L: Latch<LineCore>,
    S: Service<Request>,
{
    ghost over = { IsOver L.Latch };

    ghost inside = { λ future. Some future };

    ghost keeps = { limit_keeps L.Latch.own S.Service.own S.Future.Steps.own };

    fn into_response(future: Self::Future) -> Option<ResponseFuture<S::Future, L>> {
        Some(future)
    }
}

/// A `Timeout` contains what its inner service contains.
impl<Request, G, L, S, C> Limited<Request, G, L> for Timeout<S, C>
where
    G: Drop,
    L: Latch<LineCore>,
    S: Limited<Request, G, L>,
    C: Clock,
{
    ghost over = { λ semaphore t. S.over semaphore t.inner };

    ghost inside = { λ future. S.inside future.response };

    ghost keeps = { timeout_keeps L.Latch.own S.Service.own S.Future.Steps.own S.over S.inside
        S.keeps C.Clock.own };

    fn into_response(future: Self::Future) -> Option<ResponseFuture<G, L>> {
        S::into_response(future.into_inner())
    }
}

/// A `LoadShed` contains what its inner service contains. The future of a call that was shed has no
/// response inside.
impl<Request, G, L, S> Limited<Request, G, L> for LoadShed<S>
where
    Request: Drop,
    G: Drop,
    L: Latch<LineCore>,
    S: Limited<Request, G, L>,
{
    ghost over = { λ semaphore shed. S.over semaphore shed.inner };

    ghost inside = { option_and_then S.inside };

    ghost keeps = { shed_keeps L.Latch.own S.Service.own S.Future.Steps.own S.over
        S.inside S.keeps };

    fn into_response(future: Self::Future) -> Option<ResponseFuture<G, L>> {
        S::into_response(future.into_inner()?)
    }
}

/// A `RateLimit` contains what its inner service contains.
impl<Request, G, L, S, C> Limited<Request, G, L> for RateLimit<S, C>
where
    G: Drop,
    L: Latch<LineCore>,
    S: Limited<Request, G, L>,
    C: Clock,
{
    ghost over = { λ semaphore rate. S.over semaphore rate.inner };

    ghost inside = { S.inside };

    ghost keeps = { rate_keeps L.Latch.own S.Service.own S.Future.Steps.own S.over S.inside S.keeps
        C.Clock.own };

    fn into_response(future: Self::Future) -> Option<ResponseFuture<G, L>> {
        S::into_response(future)
    }
}

/// States that after each run of a stack that contains a limit over a semaphore, the limit's response
/// inside each future that is kept, finished or not, holds a permit of that semaphore. So the state may
/// be passed to `release_living`.
pub fn law<Request, G, L, S, T, U, O>()
where
    G: Drop,
    L: Latch<LineCore>,
    S: Limited<Request, G, L>,
    O: FnMut(T) -> U,
    ensures { RunsHold L.Latch S.Service S.Future.stepped O.step S.over S.inside }
{}

/// Drops a stack and its futures, and gives back the permits of the limit's responses inside them.
/// Returns how many responses there were: never more than the latch has permits, which is `max` if
/// `Semaphore::new` created it. A finished future counts until it is dropped, since it keeps its permit.
///
/// Returns `AllocError` if there is no memory for as many responses. Then each is dropped, and gives its
/// own permit back.
pub fn release_living<Request, G, L, S, O>(
    alloc: Global,
    semaphore: &Semaphore<L>,
    driver: Driver<S, S::Future, O>,
) -> Result<usize, AllocError>
where
    G: Drop,
    L: Latch<LineCore>,
    S: Limited<Request, G, L>,
    O: Drop,
    requires { AllHold L.Latch S.inside semaphore.now (state_of driver).futures }
    ensures count { IfOk result (λ count. count ≡ living S.inside (state_of driver).futures) }
    ensures bound { IfOk result (λ count. count ≤ L.terms semaphore.now.latch) }
{
    let mut slots = driver.into_futures();
    let mut responses = Vec::new(alloc);
    responses.reserve(slots.len())?;
    while let Some(slot) = slots.pop() {
        if let Some(response) = into_living::<Request, G, L, S>(slot) {
            responses.push_reserved(response);
        }
    }
    release_responses(alloc, semaphore, responses)
}

// Returns the limit's response inside the future that a slot keeps.
fn into_living<Request, G, L, S>(slot: Slot<S::Future>) -> Option<ResponseFuture<G, L>>
where
    G: Drop,
    L: Latch<LineCore>,
    S: Limited<Request, G, L>,
    ensures { result ≡ response_in S.inside slot }
{
    match slot {
        Slot::Live(future) | Slot::Finished(future) => S::into_response(future),
        Slot::Dropped => None,
    }
}

/// Drives a stack that contains a limit over the semaphore, as `drive` does. Also returns how many of the
/// limit's responses the last event left inside the stack's futures: never more than the latch has
/// permits. The stack and the futures are dropped then, as by `release_living`.
pub fn drive_within_limit<Request, G, L, S, T, U, O>(
    alloc: Global,
    cx: &mut Context<'_>,
    semaphore: &Semaphore<L>,
    stack: S,
    events: Vec<Event<Request, T>>,
    outside: O,
) -> Result<(Transcript<S::Response, S::Error, U>, usize), AllocError>
where
    Request: Drop,
    G: Drop,
    L: Latch<LineCore>,
    S: Limited<Request, G, L>,
    T: Drop,
    U: Drop,
    O: FnMut(T) -> U + Drop,
    requires sound { S.sound stack }
    requires outside { O.IsAlwaysCallable outside }
    requires over { S.over semaphore.now stack }
    ensures run { IfOk result (λ done. (last : _) × Run S.Service S.Future.stepped O.step
        (initial stack outside) events.items done.0.entries.items last
        × (done.1 ≡ living S.inside last.futures)) }
    ensures bound { IfOk result (λ done. done.1 ≤ L.terms semaphore.now.latch) }
    ensures kept { Keeps cx.old cx.new }
{
    law::<Request, G, L, S, T, U, O>();
    let (transcript, driver) = drive_with_state(alloc, cx, stack, events, outside)?;
    let count = release_living::<Request, G, L, S, O>(alloc, semaphore, driver)?;
    Ok((transcript, count))
}
