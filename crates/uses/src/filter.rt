//! `Filter` and `AsyncFilter`.

use crate::server::Server;
use crate::tell;
use futures::future::{Ready, ready};
use std::alloc::AllocGlobal;
use std::io;
use std::random::RandomSource;
use std::sync::Wait;
use tower::BlockOnExt;
use tower::filter::{AsyncFilter, AsyncPredicateFn, Filter, PredicateFn};

/// The error of a request that is rejected.
#[derive(Clone, Copy, Debug, thiserror::Error)]
#[error("odd")]
pub struct Odd;

/// Accepts even requests.
pub fn even(request: u32) -> Result<u32, Odd> {
    if request % 2 == 0 {
        Ok(request)
    } else {
        Err(Odd)
    }
}

/// Calls a `Filter`, whose predicate returns its answer at once.
pub fn reject<R>(rt: R) -> io::Result<()>
where
    R: Wait + RandomSource + AllocGlobal + Print + Copy,
{
    let predicate = PredicateFn::new(|request: u32| even(request));
    let mut service = Filter::new(Server(1), predicate);
    tell(rt, "filter", service.block_on_call(&rt, 3)?)
}

/// Calls an `AsyncFilter`, whose predicate returns a future of its answer.
pub fn reject_later<R>(rt: R) -> io::Result<()>
where
    R: Wait + RandomSource + AllocGlobal + Print + Copy,
{
    let later = |request: u32| -> Ready<Result<u32, Odd>> { ready(even(request)) };
    let mut service = AsyncFilter::new(Server(1), AsyncPredicateFn::new(later));
    tell(rt, "async_filter", service.block_on_call(&rt, 4)?)
}
