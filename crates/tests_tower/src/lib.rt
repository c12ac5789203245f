//! Tests of `tower::ServiceBuilder`, of what waits on the calling thread, and of what all errors have.
#![tactic(auto)]

#[cfg(test)]
mod blocking;
#[cfg(test)]
mod builder;
#[cfg(test)]
mod clones;
#[cfg(test)]
mod waits;
