//! The middleware under others. The whole-stack theorem holds for it, with nothing more to prove.

use crate::counted::Counted;
use futures::task::Context;
use std::alloc::{AllocError, Global};
use tower::Service;
use tower::drive::{Event, Transcript, drive};
use tower::service::Clock;
use tower::timeout::{Error, Timeout};

/// Drives a service under the counter and a timeout. `drive` is proved for every service, so by its clause
/// `run` the transcript is a run of this very stack, and there is nothing more to prove.
pub fn driven<S, C, O, Request: Drop>(
    alloc: Global,
    cx: &mut Context<'_>,
    inner: S,
    clock: C,
    events: Vec<Event<Request, u64>>,
    outside: O,
) -> Result<Transcript<S::Response, Error<S::Error>, u64>, AllocError>
where
    S: Service<Request>,
    C: Clock,
    O: FnMut(u64) -> u64 + Drop,
    requires sound { S.sound inner }
    requires outside { O.IsAlwaysCallable outside }
{
    let stack = Timeout::new(Counted::new(inner), 10, clock);
    drive(alloc, cx, stack, events, outside)
}
