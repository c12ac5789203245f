//! Tests of `tower::{limit, discover, load}`: what no script asks.
#![tactic(auto)]

#[cfg(test)]
mod concurrency;
#[cfg(test)]
mod constant;
#[cfg(test)]
mod counting_latch;
#[cfg(test)]
mod discover;
#[cfg(test)]
mod driven;
#[cfg(test)]
mod full_count;
#[cfg(test)]
mod line_core;
#[cfg(test)]
mod parts;
#[cfg(test)]
mod pending_requests;
#[cfg(test)]
mod refused;
#[cfg(test)]
mod semaphore;
#[cfg(test)]
mod threads;
