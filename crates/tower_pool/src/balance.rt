//! A balancer over endpoints that come and go: the Rust's `tower::balance`.

pub mod error;
pub mod p2c;

pub use error::{Error, MakeError};
