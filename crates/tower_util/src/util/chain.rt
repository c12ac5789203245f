//! Two futures, one after the other.

/// A future and a closure, then the future that the closure returned, and nothing once that has returned
/// its output.
#[derive(Drop)]
pub enum Chain<F1, F2, N> {
    /// The inner future and the closure.
    First(F1, N),
    /// The future that the closure returned.
    Second(F2),
    /// The output was returned.
    Done,
}
