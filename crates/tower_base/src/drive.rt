//! Whole runs of a service, driven by a list of events. The Rust has no such function.
ghost use Rattle.std.specs.Prelude.{◌≡◌, [], ◌+◌, ◌<◌, true, false, All, IfOk, OnErr, Some, slice_get, slice_set, Result, IfSome, IfNone};
ghost use Rattle.futures.specs.Task.{Keeps};
ghost use Rattle.tower_base.specs.Drive.{Step, Run, Calls, Polls, initial, allows, slot_after, IsLive, IsKept};
ghost use Rattle.tower_base.specs.Driver.{state_of, Sound, CanStep};

use crate::service::{Service, Steps};
use futures::task::{Context, Poll};
use std::alloc::{AllocError, Global};
use std::mem;

/// An event of a run: what `drive` does next.
#[derive(Drop)]
pub enum Event<Request, T> {
    /// Polls the service's readiness.
    Poll,
    /// Calls the service.
    Call(Request),
    /// Polls the future with this number.
    Future(usize),
    /// Drops the future with this number.
    Drop(usize),
    /// Calls the closure.
    Turn(T),
}

/// The outcome of an event.
#[derive(Drop)]
pub enum Entry<A, E, U> {
    /// What the poll of readiness returned.
    Polled(Poll<Result<(), E>>),
    /// A call was made, and its future has this number.
    Called(usize),
    /// The future with this number was polled, and returned this.
    Answered(usize, Poll<Result<A, E>>),
    /// The future with this number was dropped.
    Dropped(usize),
    /// What the closure returned.
    Turned(U),
    /// The event didn't fit, and nothing was done.
    Skipped,
}

/// The outcomes of the events, in order.
#[derive(Drop)]
pub struct Transcript<A, E, U> {
    pub entries: Vec<Entry<A, E, U>>,
}

/// The slot of a call's future. The contract of `drive` refers to it.
#[derive(Drop)]
pub enum Slot<F> {
    /// The future may be polled.
    Live(F),
    /// The future has returned its output, and is kept until it is dropped.
    Finished(F),
    /// The future was dropped.
    Dropped,
}

/// A service, its numbered futures and the closure, as the last event left them.
#[derive(Drop)]
pub struct Driver<S, F, O> {
    service: S,
    futures: Vec<Slot<F>>,
    may_call: bool,
    outside: O,
}

/// Performs the events, one after another, and returns the outcome of each.
///
/// An event that doesn't fit does nothing, and its entry is `Skipped`: a call, unless the last `Poll`
/// returned `Ok` and no call came since; a poll of a future that is finished, dropped or unknown; a drop
/// of one that is dropped or unknown. Futures are numbered from 0 in the order of the calls, and a
/// finished one is kept until it is dropped.
///
/// Memory for an entry and for a future is reserved before the event. If that fails, the service and all
/// futures are dropped, and `AllocError` is returned.
pub fn drive<Request, S, T, U, O>(
    alloc: Global,
    cx: &mut Context<'_>,
    service: S,
    events: Vec<Event<Request, T>>,
    outside: O,
) -> Result<Transcript<S::Response, S::Error, U>, AllocError>
where
    Request: Drop,
    S: Service<Request>,
    T: Drop,
    U: Drop,
    O: FnMut(T) -> U + Drop,
    requires sound { S.sound service }
    requires outside { O.IsAlwaysCallable outside }
    ensures run { IfOk result (λ transcript. (last : _)
        × Run S.Service S.Future.stepped O.step (initial service outside)
        events.items transcript.entries.items last) }
    ensures kept { Keeps cx.old cx.new }
{
    let (transcript, _left) = drive_with_state(alloc, cx, service, events, outside)?;
    Ok(transcript)
}

/// Like `drive`, but also returns what the last event left. So a future is dropped only by its `Drop`
/// event, and nothing is polled after the last event.
pub fn drive_with_state<Request, S, T, U, O>(
    alloc: Global,
    cx: &mut Context<'_>,
    service: S,
    events: Vec<Event<Request, T>>,
    outside: O,
) -> Result<
    (
        Transcript<S::Response, S::Error, U>,
        Driver<S, S::Future, O>,
    ),
    AllocError,
>
where
    Request: Drop,
    S: Service<Request>,
    T: Drop,
    U: Drop,
    O: FnMut(T) -> U + Drop,
    requires sound { S.sound service }
    requires outside { O.IsAlwaysCallable outside }
    ensures run { IfOk result (λ done. Run S.Service S.Future.stepped O.step
        (initial service outside) events.items done.0.entries.items (state_of done.1)) }
    ensures kept { Keeps cx.old cx.new }
{
    let mut driver: Driver<S, S::Future, O> = Driver::new(alloc, service, outside);
    let mut entries = Vec::new(alloc);
    for event in events {
        entries.reserve(1)?;
        let entry = handle(&mut driver, cx, event)?;
        entries.push_reserved(entry);
    }
    Ok((Transcript { entries }, driver))
}

impl<S, F, O> Driver<S, F, O> {
    fn new(alloc: Global, service: S, outside: O) -> Driver<S, F, O>
        ensures { (result.service ≡ service) × (result.futures.items ≡ [])
            × (result.may_call ≡ false) × (result.outside ≡ outside) }
    {
        Driver {
            service,
            futures: Vec::new(alloc),
            may_call: false,
            outside,
        }
    }
}

impl<S: Drop, F, O: Drop> Driver<S, F, O> {
    /// Drops the service and the closure, and returns the futures by their numbers.
    pub fn into_futures(self) -> Vec<Slot<F>>
        ensures { result ≡ self.futures }
    {
        let Driver {
            service: _,
            futures,
            may_call: _,
            outside: _,
        } = self;
        futures
    }
}

// Makes one step.
fn handle<Request, S, T, U, O>(
    driver: &mut Driver<S, S::Future, O>,
    cx: &mut Context<'_>,
    event: Event<Request, T>,
) -> Result<Entry<S::Response, S::Error, U>, AllocError>
where
    Request: Drop,
    S: Service<Request>,
    O: FnMut(T) -> U,
    requires { Sound S.sound S.ready S.Future.can_poll O.IsAlwaysCallable driver.old }
    ensures step { IfOk result (λ entry. Step S.Service S.Future.stepped O.step
        (state_of driver.old) event entry (state_of driver.new)) }
    ensures sound { IfOk result
        (λ _. Sound S.sound S.ready S.Future.can_poll O.IsAlwaysCallable driver.new) }
    ensures refused { OnErr result (state_of driver.new ≡ state_of driver.old) }
    ensures kept { Keeps cx.old cx.new }
{
    match event {
        Event::Poll => Ok(Entry::Polled(ask(driver, cx))),
        Event::Call(request) => match call(driver, request)? {
            Some(index) => Ok(Entry::Called(index)),
            None => Ok(Entry::Skipped),
        },
        Event::Future(index) => match poll_at(&mut driver.futures, index, cx) {
            Some(answer) => Ok(Entry::Answered(index, answer)),
            None => Ok(Entry::Skipped),
        },
        Event::Drop(index) => {
            if drop_at(&mut driver.futures, index) {
                Ok(Entry::Dropped(index))
            } else {
                Ok(Entry::Skipped)
            }
        }
        Event::Turn(t) => Ok(Entry::Turned((driver.outside)(t))),
    }
}

// Polls the service's readiness.
fn ask<Request, S: Service<Request>, F, O>(
    driver: &mut Driver<S, F, O>,
    cx: &mut Context<'_>,
) -> Poll<Result<(), S::Error>>
    requires { S.sound driver.old.service }
    ensures sound { S.sound driver.new.service }
    ensures polled { S.polled driver.old.service result driver.new.service }
    ensures rest { driver.new
        ≡ record driver.old { service = driver.new.service; may_call = allows result } }
    ensures ready { driver.new.may_call ≡ true → S.ready driver.new.service }
    ensures kept { Keeps cx.old cx.new }
{
    match driver.service.poll_ready(cx) {
        Poll::Ready(Ok(())) => {
            driver.may_call = true;
            Poll::Ready(Ok(()))
        }
        Poll::Ready(Err(error)) => {
            driver.may_call = false;
            Poll::Ready(Err(error))
        }
        Poll::Pending => {
            driver.may_call = false;
            Poll::Pending
        }
    }
}

// Calls the service, if it may be called. Returns the number of the future.
fn call<Request: Drop, S: Service<Request>, O>(
    driver: &mut Driver<S, S::Future, O>,
    request: Request,
) -> Result<Option<usize>, AllocError>
    requires sound { S.sound driver.old.service }
    requires ready { driver.old.may_call ≡ true → S.ready driver.old.service }
    requires live { All (CanStep S.Future.can_poll) driver.old.futures.items }
    ensures called { IfOk result (λ made. IfSome made
        (λ index. Calls S.Service (state_of driver.old) request index (state_of driver.new))) }
    ensures skipped { IfOk result
        (λ made. IfNone made ((driver.old.may_call ≡ false) × (driver.new ≡ driver.old))) }
    ensures refused { OnErr result (state_of driver.new ≡ state_of driver.old) }
    ensures live { All (CanStep S.Future.can_poll) driver.new.futures.items }
    ensures sound { S.sound driver.new.service }
    ensures idle { driver.new.may_call ≡ true → S.ready driver.new.service }
{
    if !driver.may_call {
        return Ok(None);
    }
    let index = driver.futures.len();
    driver.futures.reserve(1)?;
    let future = driver.service.call(request);
    driver.futures.push_reserved(Slot::Live(future));
    driver.may_call = false;
    Ok(Some(index))
}

// Polls the future at this index, if it is live.
fn poll_at<F: Steps>(
    slots: &mut Vec<Slot<F>>,
    index: usize,
    cx: &mut Context<'_>,
) -> Option<Poll<F::Output>>
    requires { All (CanStep F.can_poll) slots.old.items }
    ensures polled { IfSome result
        (λ answer. Polls F.stepped slots.old.items index answer slots.new.items) }
    ensures skipped { IfNone result
        (¬ IsLive (slice_get slots.old.items index) × (slots.new.items ≡ slots.old.items)) }
    ensures live { All (CanStep F.can_poll) slots.new.items }
    ensures kept { Keeps cx.old cx.new }
{
    let slot = slots.get_mut(index)?;
    poll_slot(slot, cx)
}

// Drops the future at this index. Returns whether there was one.
fn drop_at<F: Drop>(slots: &mut Vec<Slot<F>>, index: usize) -> bool
    ensures dropped { result ≡ true → IsKept (slice_get slots.old.items index)
        × (slots.new.items ≡ slice_set slots.old.items index Slot.Dropped) }
    ensures skipped { result ≡ false
        → ¬ IsKept (slice_get slots.old.items index) × (slots.new.items ≡ slots.old.items) }
{
    let Some(slot) = slots.get_mut(index) else {
        return false;
    };
    if let Slot::Dropped = slot {
        return false;
    }
    *slot = Slot::Dropped;
    true
}

// Polls the future, if it is live.
fn poll_slot<F: Steps>(slot: &mut Slot<F>, cx: &mut Context<'_>) -> Option<Poll<F::Output>>
    requires { CanStep F.can_poll slot.old }
    ensures polled { IfSome result (λ answer. (f : _) × (g : _) × (slot.old ≡ Slot.Live f)
        × F.stepped f answer g × (slot.new ≡ slot_after g answer)) }
    ensures skipped { IfNone result (¬ IsLive (Some slot.old) × (slot.new ≡ slot.old)) }
    ensures sound { CanStep F.can_poll slot.new }
    ensures kept { Keeps cx.old cx.new }
{
    let Slot::Live(future) = slot else {
        return None;
    };
    let answer = future.step(cx);
    if answer.is_ready() {
        finish(slot);
    }
    Some(answer)
}

// Marks a live future as finished.
fn finish<F: Drop>(slot: &mut Slot<F>)
    ensures { (future : F) → slot.old ≡ Slot.Live future → slot.new ≡ Slot.Finished future }
{
    match mem::replace(slot, Slot::Dropped) {
        Slot::Live(future) => *slot = Slot::Finished(future),
        other => *slot = other,
    }
}
