//! What each middleware keeps to, over whole runs and responses.
#![tactic(auto)]

pub mod async_filter;
pub mod backoff;
pub mod balance;
pub mod buffer;
pub mod concurrency_limit;
pub mod delay;
pub mod filter;
pub mod hedge;
pub mod latency;
pub mod limited;
pub mod load_shed;
pub mod pending_requests;
pub mod quiet;
pub mod ready_cache;
pub mod reconnect;
pub mod retry;
pub mod select;
pub mod spawn_ready;
pub mod steer;
pub mod timeout;
