//! Buffers: services that are called by a worker of their own.
#![tactic(auto)]

pub mod buffer;
