//! Services that make services. The Rust's `tower::make`.

mod as_service;
mod into_service;
mod make_connection;
mod make_service;
pub mod shared;

pub use as_service::AsService;
pub use into_service::IntoService;
pub use make_connection::MakeConnection;
pub use make_service::MakeService;
pub use shared::Shared;

/// The futures of these services. The Rust's `tower::make::future`.
pub mod future {
    pub use super::shared::SharedFuture;
}
