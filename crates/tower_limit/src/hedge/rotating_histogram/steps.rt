//! The steps of a `HistoCore`, and its replies.
use tower_base::service::Fraction;

/// A step of a `HistoCore`. Its first field is its moment.
#[derive(Clone, Copy, Debug, PartialEq, Eq)]
pub enum HistoStep {
    /// Adds a latency in milliseconds, which is read in the next period.
    Record(u64, u64),
    /// Adds a latency in milliseconds, which is read in the present period.
    Seed(u64, u64),
    /// Counts the latencies that are read in the present period.
    Points(u64),
    /// Finds the latency that the given fraction of those is at or below.
    Quantile(u64, Fraction),
}

/// The reply of a `HistoCore` to a step.
#[derive(Clone, Copy, Debug, PartialEq, Eq)]
pub enum HistoReply {
    /// The latency was added.
    Done,
    /// Allocation failed for the latency, which is left out.
    Memory,
    /// The period has 2^64 - 1 latencies, and this one is left out.
    Full,
    /// The number of latencies, in reply to `Points`.
    Count(u64),
    /// A latency in milliseconds, in reply to `Quantile`. It is 0 if there are no latencies.
    Millis(u64),
}
