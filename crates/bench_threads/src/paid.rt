//! Calls of a retry budget.

use crate::queued::clones_of;
use std::alloc::AllocGlobal;
use std::thread::Threads;
use std::{io, thread};
use tower::retry::budget::Budget;

/// How many withdrawals were allowed. The callers share the budget, and each of them makes so many deposits, each with a
/// withdrawal.
pub fn sum<R, B>(rt: &R, budget: B, callers: usize, each: u64) -> io::Result<u64>
where
    R: Threads + AllocGlobal + Sync,
    B: Budget + Clone + Send,
{
    let clones = clones_of(rt.alloc(), budget, callers)?;
    let mut sum = 0u64;
    for made in thread::map_vec(rt, clones, &|budget| pay(budget, each))? {
        sum = sum.wrapping_add(made);
    }
    Ok(sum)
}

fn pay<B: Budget>(budget: B, each: u64) -> u64 {
    let mut budget = budget;
    let mut allowed = 0u64;
    for _ in 0..each {
        budget.deposit();
        if budget.withdraw() {
            allowed = allowed.wrapping_add(1);
        }
    }
    allowed
}
