//! Tests of `tower::{filter, load_shed, reconnect, steer, timeout}` and of streams of calls: what no script asks.
#![tactic(auto)]

#[cfg(test)]
mod call_all;
#[cfg(test)]
mod filter;
#[cfg(test)]
mod load_shed;
#[cfg(test)]
mod orders;
#[cfg(test)]
mod reconnect;
#[cfg(test)]
mod silent;
#[cfg(test)]
mod steer;
#[cfg(test)]
mod timeout;
