//! Tests of `tower::{retry, hedge}`: what no script asks.
#![tactic(auto)]

#[cfg(test)]
mod attempts;
#[cfg(test)]
mod backoff;
#[cfg(test)]
mod budget;
#[cfg(test)]
mod histogram;
#[cfg(test)]
mod refused;
#[cfg(test)]
mod silent;
