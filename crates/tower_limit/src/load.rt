//! How busy a service is: the Rust's `tower::load`.

pub mod completion;
mod constant;
mod error;
pub mod pending_requests;

pub use completion::{CompleteOnResponse, TrackCompletion};
pub use constant::{Constant, projection as constant_projection};
pub use error::Error;
pub use pending_requests::{PendingRequests, PendingRequestsDiscover};

/// Reports how busy a service is: the Rust's `tower::load::Load`.
pub trait Load {
    /// Of two services, the one with the lower metric is less busy.
    type Metric: PartialOrd + Drop;

    // The load may be reported as this metric.
    ghost loaded: { Self → Self.Metric → Type 0 };

    /// Returns the current load.
    fn load(&self) -> Self::Metric
        ensures { loaded self.now result };
}
