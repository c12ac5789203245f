//! Tests of `tower_base` at concrete types: services, layers, clocks, words and `drive`.
#![tactic(auto)]

#[cfg(test)]
mod drive;
#[cfg(test)]
mod layer;
#[cfg(test)]
mod links;
#[cfg(test)]
mod refused;
#[cfg(test)]
mod rng;
#[cfg(test)]
mod service;
#[cfg(test)]
mod silent;
#[cfg(test)]
mod sleep;
#[cfg(test)]
mod spawners;
#[cfg(test)]
mod system;
