//! What passes through a stack: counts of calls and answers, how long they take, and how many are in flight.
#![tactic(auto)]

mod bounds;
mod counters;
mod kinds;
pub mod laws;
mod meter;
mod meter_core;
mod metered;
mod reading;
mod text;
mod traced;

pub use bounds::{BOUNDS, Bounds, NotGrowing};
pub use kinds::{Kinds, KindsFn, NoKinds};
pub use meter::Meter;
pub use meter_core::{MeterCore, MeterReply, MeterStep};
pub use metered::{MeterLayer, Metered, ResponseFuture};
pub use reading::{BUCKETS, KINDS, Reading};
pub use text::{CONTENT_TYPE, Named, Text};
pub use traced::{Trace, Traced, TracedFuture, TracedLayer};
