//! A service that becomes ready in a task of its own: the Rust's `tower::spawn_ready`.

pub mod error;
pub mod future;
mod laws;
mod layer;
mod service;
mod slot_core;
mod task;

pub use error::Error;
pub use future::ResponseFuture;
pub use laws::law;
pub use layer::SpawnReadyLayer;
pub use service::SpawnReady;
pub use slot_core::{SlotCore, SlotReply, SlotStep};
pub use task::ReadyTask;
