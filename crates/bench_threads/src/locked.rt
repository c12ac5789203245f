//! A lock alone.

use std::alloc::AllocGlobal;
use std::sync::{Mutex, Wait};
use std::thread::Threads;
use std::{io, thread};

/// The sum of what the callers added. Each of them takes the lock so many times.
pub fn sum<R>(rt: &R, callers: usize, each: u64) -> io::Result<u64>
where
    R: Threads + Wait + AllocGlobal + Sync,
{
    let lock = Mutex::new(0u64);
    thread::map_indices(rt, rt.alloc(), callers, &|_| add(rt, &lock, each))?;
    let held = lock.lock(rt);
    Ok(*held)
}

fn add<R: Wait>(rt: &R, lock: &Mutex<u64>, each: u64) {
    for number in 0..each {
        let mut held = lock.lock(rt);
        *held = held.wrapping_add(number);
    }
}
