//! Load as the number of pending requests: the Rust's `tower::load::pending_requests`.

mod count;
mod count_core;
mod discover;
mod handle;
mod service;

pub use count::Count;
pub use count_core::{CountCore, CountReply, CountStep};
pub use discover::PendingRequestsDiscover;
pub use handle::Handle;
pub use service::{PendingRequests, projection};
