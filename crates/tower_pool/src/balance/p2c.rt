//! The power of two choices: two endpoints are drawn at random and the lighter is called. The Rust's
//! `tower::balance::p2c`.

mod choose;
mod future;
mod layer;
mod make;
mod service;

pub use future::ResponseFuture;
pub use layer::MakeBalanceLayer;
pub use make::{MakeBalance, MakeFuture};
pub use service::Balance;
