//! Recorded latencies, for the second requests of `tower::hedge`. The module is here, beside the other
//! shared cores.

mod record;
pub mod rotating_histogram;

pub use record::Record;
