//! How many iterations a poll makes.

/// The largest number of iterations that one poll makes if it loops over what others return. After that many
/// it has woken its own task and returns `Pending`; a `Balance` that reads its discovery goes on with what it
/// has. The Rust's loops have no bound.
pub const TURNS: u8 = 64;
