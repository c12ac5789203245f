//! A limit on the calls in flight, and the line for their permits: the Rust's
//! `tower::limit::concurrency`.

mod error;
pub mod future;
mod laws;
mod layer;
mod line_core;
mod semaphore;
mod service;

pub use error::Error;
pub use laws::law;
pub use layer::{ConcurrencyLimitLayer, GlobalConcurrencyLimitLayer};
pub use line_core::{LineCore, LineReply, LineStep};
pub use semaphore::{Permit, PollSemaphore, Semaphore};
pub use service::{ConcurrencyLimit, projection};
