//! Rounds of one service.

use crate::inner::Pace;
use futures::task::{Context, Poll};
use std::alloc::{AllocError, AllocGlobal};
use tower::Service;
use tower::latch::held::Place;
use tower::service::Steps;

/// How the rounds of a service go.
pub trait Course {
    /// Makes the rounds, and answers the sum of the responses that came.
    fn run<S: Service<u64, Response = u64>>(
        &self,
        cx: &mut Context<'_>,
        service: S,
    ) -> Result<u64, AllocError>
        requires { S.sound service };
}

/// So many rounds, in each of which the response is there at its first poll.
#[derive(Drop)]
pub struct AtOnce<'a> {
    pace: &'a Pace,
    count: u64,
}

impl<'a> AtOnce<'a> {
    /// So many rounds, each of which lets the clock go on.
    pub fn new(pace: &'a Pace, count: u64) -> AtOnce<'a> {
        AtOnce { pace, count }
    }
}

impl<'a> Course for AtOnce<'a> {
    fn run<S: Service<u64, Response = u64>>(
        &self,
        cx: &mut Context<'_>,
        service: S,
    ) -> Result<u64, AllocError> {
        Ok(rounds(cx, service, self.pace, self.count))
    }
}

/// So many rounds, of which each is a poll of readiness, a call, and one poll of the response. It answers the sum of the responses.
///
/// A request is the round's number, mixed with the sum so far: so no compiler finds the sum without the rounds.
pub fn rounds<S: Service<u64, Response = u64>>(
    cx: &mut Context<'_>,
    mut service: S,
    pace: &Pace,
    count: u64,
) -> u64
    requires { S.sound service }
{
    let mut sum = 0u64;
    for number in 0..count {
        if let Some(response) = round(cx, &mut service, number ^ sum) {
            sum = sum.wrapping_add(response);
        }
        pace.go_on();
    }
    sum
}

// One round: its response, if there is one.
fn round<S: Service<u64, Response = u64>>(
    cx: &mut Context<'_>,
    service: &mut S,
    request: u64,
) -> Option<u64>
    requires { S.sound service.old }
    ensures { S.sound service.new }
{
    let Poll::Ready(Ok(())) = service.poll_ready(cx) else {
        return None;
    };
    // The response is dropped at one place, so that its drop can be compiled into the loop.
    let answer = service.call(request).step(cx);
    match answer {
        Poll::Ready(Ok(response)) => Some(response),
        _ => None,
    }
}

/// So many responses are under way at once.
pub const PLACES: usize = 64;

/// So many rounds, each of which takes the answer of the oldest response under way, and puts a new one into its place.
#[derive(Drop)]
pub struct InFlight<R> {
    rt: R,
    count: u64,
}

impl<R: AllocGlobal + Copy> InFlight<R> {
    /// So many rounds.
    pub fn new(rt: R, count: u64) -> InFlight<R> {
        InFlight { rt, count }
    }
}

impl<R: AllocGlobal + Copy> Course for InFlight<R> {
    fn run<S: Service<u64, Response = u64>>(
        &self,
        cx: &mut Context<'_>,
        service: S,
    ) -> Result<u64, AllocError> {
        let mut table = Vec::new(self.rt.alloc());
        for _ in 0..PLACES {
            table.push(Place::empty()).map_err(|_| AllocError)?;
        }
        Ok(flights(cx, service, table.as_mut_slice(), self.count))
    }
}

// The rounds over a table of responses that are under way.
fn flights<S: Service<u64, Response = u64>>(
    cx: &mut Context<'_>,
    mut service: S,
    table: &mut [Place<S::Future>],
    count: u64,
) -> u64
    requires { S.sound service }
{
    let mut sum = 0u64;
    for number in 0..count {
        if let Some(place) = table.get_mut((number % PLACES as u64) as usize) {
            sum = flight(cx, &mut service, place, number, sum);
        }
    }
    sum
}

// One round: the sum with what came of the response at this place.
fn flight<S: Service<u64, Response = u64>>(
    cx: &mut Context<'_>,
    service: &mut S,
    place: &mut Place<S::Future>,
    number: u64,
    sum: u64,
) -> u64
    requires { S.sound service.old }
    ensures { S.sound service.new }
{
    let sum = match place.poll(cx) {
        None => sum,
        Some(Poll::Ready(answer)) => sum.wrapping_add(answer.unwrap_or(0)),
        Some(Poll::Pending) => return sum,
    };
    let Poll::Ready(Ok(())) = service.poll_ready(cx) else {
        return sum;
    };
    let mut future = service.call(number ^ sum);
    if let Poll::Ready(answer) = future.step(cx) {
        return sum.wrapping_add(answer.unwrap_or(0));
    }
    place.put(future);
    sum
}
