//! Services in pools: endpoints that are ready and those that aren't yet, the balance between them, and
//! services that get ready in a task.
#![tactic(auto)]

pub mod balance;
pub mod ready_cache;
pub mod spawn_ready;
