//! Tests of `tower::{ready_cache, balance, spawn_ready}`: what no script asks.
#![tactic(auto)]

#[cfg(test)]
mod apart;
#[cfg(test)]
mod errors;
#[cfg(test)]
mod refused;
#[cfg(test)]
mod slot_core;
#[cfg(test)]
mod stress;
#[cfg(test)]
mod wakes;
#[cfg(test)]
mod whole;
