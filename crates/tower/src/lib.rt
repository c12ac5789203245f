//! Middleware for services, each proved against its machine: the Rust's `tower`.
#![tactic(auto)]

pub mod builder;
pub mod layer;
pub mod meter;
pub mod projection;
pub mod time;
pub mod util;

pub use builder::ServiceBuilder;
pub use layer::Layer;
pub use tower_base::service::Service;
pub use tower_base::{drive, run, service};
pub use tower_buffer::buffer;
pub use tower_latch as latch;
pub use tower_limit::{discover, limit, load};
pub use tower_pool::{balance, ready_cache, spawn_ready};
pub use tower_refusal::{Cause, Never, Own, Refusal, StackError};
pub use tower_retry::{hedge, retry};
pub use tower_util::make;
pub use tower_util::make::MakeService;
pub use tower_ware::{filter, load_shed, reconnect, steer, timeout};
pub use util::{BlockOnExt, ServiceExt, service_fn};
