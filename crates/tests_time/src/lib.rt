//! Tests of `tower_time`: they count polls, and measure no time.
#![tactic(auto)]

#[cfg(test)]
mod by_hand;
#[cfg(test)]
mod calls;
#[cfg(test)]
mod flight;
#[cfg(test)]
mod flights;
#[cfg(test)]
mod loops;
#[cfg(test)]
mod machine;
#[cfg(test)]
mod naps;
#[cfg(test)]
mod paused;
#[cfg(test)]
mod paused_stacks;
