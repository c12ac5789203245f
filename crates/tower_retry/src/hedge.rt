//! Second requests after a delay: the Rust's `tower::hedge`. (`Hedge` is an alias of its nested
//! services, not a struct: an impl of the whole nest exceeds a limit of the checker.)

mod check;
pub mod delay;
mod error;
mod flat;
mod future;
pub mod latency;
mod make;
mod policies;
mod policy;
mod predicate;
pub mod select;

use delay::Delay;
pub use error::Error;
pub use flat::Flat;
pub use future::Future;
use latency::Latency;
pub use policies::{DelayPolicy, SelectPolicy};
pub use policy::Policy;
pub use predicate::PolicyPredicate;
use select::Select;
pub use tower_limit::hedge::rotating_histogram;
use tower_limit::hedge::rotating_histogram::RotatingHistogram;
use tower_ware::filter::AsyncFilter;

/// A service whose responses are recorded.
pub type Recorded<S, L, C> = Latency<RotatingHistogram<L, C>, S, C>;

/// The service that makes the second request: recorded, filtered by the policy, and delayed.
pub type Delayed<S, P, L, C> = Delay<
    DelayPolicy<L, C>,
    AsyncFilter<Recorded<S, L, C>, PolicyPredicate<P>>,
    C,
>;

/// The two sides of a hedge.
type Nest<S, P, L, C> = Select<SelectPolicy<P, L, C>, Recorded<S, L, C>, Delayed<S, P, L, C>>;

/// A service that makes a request a second time if its response takes longer than most, and returns the
/// answer that comes first: the Rust's `tower::hedge::Hedge`.
///
/// It is a `Select` of a recorded clone of the service and of the service itself, recorded, filtered and
/// delayed, with the one error of a hedge.
pub type Hedge<S, P, L, C> = Flat<Nest<S, P, L, C>>;
