//! Tests of `tower::buffer`: what no script asks.
#![tactic(auto)]

#[cfg(test)]
mod counted;
#[cfg(test)]
mod mail_core;
#[cfg(test)]
mod making;
#[cfg(test)]
mod polls;
#[cfg(test)]
mod refused;
#[cfg(test)]
mod stored;
#[cfg(test)]
mod storm;
