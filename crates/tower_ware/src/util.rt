//! Streams of calls: a part of the Rust's `tower::util`.

pub mod call_all;

pub use call_all::{CallAll, CallAllUnordered};
