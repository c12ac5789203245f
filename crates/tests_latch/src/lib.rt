//! Tests of `tower_latch` over the library's cores: behind `Logged` from threads; shares of a
//! latch.
#![tactic(auto)]

#[cfg(test)]
mod budget;
#[cfg(test)]
mod count;
#[cfg(test)]
mod fixtures;
#[cfg(test)]
mod histogram;
#[cfg(test)]
mod line;
#[cfg(test)]
mod mail;
#[cfg(test)]
mod plain_line;
#[cfg(test)]
mod plain_mail;
#[cfg(test)]
mod refused;
#[cfg(test)]
mod run;
#[cfg(test)]
mod shares;
#[cfg(test)]
mod slot;
#[cfg(test)]
mod storm;
