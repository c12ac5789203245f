//! Calls for which the thread waits.

use crate::inner::Pace;
use std::alloc::{AllocError, AllocGlobal};
use std::random::RandomSource;
use std::sync::Wait;
use tower::Service;
use tower::util::{Sealed, Waiter, block_on_call};

/// So many rounds, of which each is one `block_on_call` of a waiter that is made once. It answers the sum of the responses.
pub fn by_one<R, S>(rt: &R, service: S, pace: &Pace, count: u64) -> Result<u64, AllocError>
where
    R: Wait + RandomSource + AllocGlobal,
    S: Service<u64, Response = u64>,
    requires { S.sound service }
{
    let mut service = Sealed::new(service);
    let mut waiter = Waiter::new(rt).map_err(|_| AllocError)?;
    let mut sum = 0u64;
    for number in 0..count {
        if let Ok(Ok(response)) = waiter.block_on_call(rt, &mut service, number ^ sum) {
            sum = sum.wrapping_add(response);
        }
        pace.go_on();
    }
    Ok(sum)
}

/// The same, with a waiter that is made anew in each round.
pub fn anew<R, S>(rt: &R, service: S, pace: &Pace, count: u64) -> u64
where
    R: Wait + RandomSource + AllocGlobal,
    S: Service<u64, Response = u64>,
    requires { S.sound service }
{
    let mut service = Sealed::new(service);
    let mut sum = 0u64;
    for number in 0..count {
        if let Ok(Ok(response)) = block_on_call(&mut service, rt, number ^ sum) {
            sum = sum.wrapping_add(response);
        }
        pace.go_on();
    }
    sum
}
