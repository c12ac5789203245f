//! A buffer round a limit beside a stream of calls, and outermost in a whole stack of the builder.
ghost use Rattle.std.specs.Prelude.{◌≡◌};

use crate::policies::NoRetries;
use scripted::flow::Flowing;
use scripted::report::Report;
use scripted::script::{Numbers, Requests, Script};
use scripted::stream::Streaming;
use scripted::worker::Working;
use std::alloc::AllocError;
use std::fmt::{Debug, Display};
use std::sync::Wait;
use tests_support::stream::{Outbox, Requests as Sent};
use tests_support::task_slot::{SlotRef, TaskSlot};
use tower::buffer::Buffer;
use tower::latch::held::Pollable;
use tower::limit::ConcurrencyLimit;
use tower::service::Steps;
use tower::{Service, ServiceBuilder, ServiceExt};

// A stream of calls through a clone of the buffer, beside the buffer itself.
fn streamed<B, W>(
    script: &Script<'_>,
    report: &mut Report<'_>,
    buffer: B,
    worker: W,
) -> Result<(), AllocError>
where
    B: Service<u8, Response = u8> + Clone,
    B::Error: Debug + Display,
    W: Steps<Output = ()>,
    requires buffer { B.sound buffer }
    requires clones { (x y : B) → B.is_clone x y → B.sound x → B.sound y }
    requires worker { W.can_poll worker }
{
    let outbox = Outbox::new(0, false);
    let requests = Sent::new(script.stage().log, &outbox);
    let calls = buffer.clone()?.call_all(script.alloc(), requests);
    let mut streaming = Streaming {
        script,
        outbox: &outbox,
        left: Some(Flowing::new(calls)),
        other: Working::new(script, Some(Pollable::new(worker))),
    };
    script.play_with(report, buffer, &Numbers, &mut streaming)
}

// A buffer of one place round the service.
fn buffered<R, S, E>(
    rt: R,
    script: &Script<'_>,
    report: &mut Report<'_>,
    service: S,
) -> Result<(), AllocError>
where
    R: Wait + Copy,
    S: Service<u8, Response = u8, Error = E>,
    E: Clone + Debug + Display,
    requires sound { S.sound service }
    requires same { (x y : E) → E.is_clone x y → y ≡ x }
{
    match Buffer::pair(rt, script.alloc(), service, 1) {
        Ok((buffer, worker)) => streamed(script, report, buffer, worker),
        Err(AllocError) => script.over(report, "out of memory"),
    }
}

/// A buffer of one place round a limit of one permit.
pub fn beside_a_stream<R: Wait + Copy>(
    rt: R,
    script: &Script<'_>,
    report: &mut Report<'_>,
) -> Result<(), AllocError> {
    match ConcurrencyLimit::new(rt, script.alloc(), script.service('s'), 1) {
        Ok(limit) => buffered(rt, script, report, limit),
        Err(AllocError) => script.over(report, "out of memory"),
    }
}

// Whether a number isn't 0.
struct Truths;

impl Requests<bool> for Truths {
    fn request(&self, number: u8) -> bool {
        number != 0
    }
}

fn behind<B, W>(
    script: &Script<'_>,
    report: &mut Report<'_>,
    client: B,
    worker: Option<Pollable<W>>,
) -> Result<(), AllocError>
where
    B: Service<bool, Response = bool>,
    B::Error: Debug + Display,
    W: Steps<Output = ()>,
    requires { B.sound client }
{
    let mut working = Working::new(script, worker);
    script.play_alone_with(report, client, &Truths, &mut working)
}

// The buffer before the rest of the stack, which is any service.
fn queued<R, S, E>(
    rt: R,
    script: &Script<'_>,
    report: &mut Report<'_>,
    inner: S,
) -> Result<(), AllocError>
where
    R: Wait + Copy,
    S: Service<bool, Response = bool, Error = E>,
    E: Clone + Debug + Display,
    requires sound { S.sound inner }
    requires same { (x y : E) → E.is_clone x y → y ≡ x }
{
    let slot = TaskSlot::new();
    let made = ServiceBuilder::new()
        .buffer(rt, script.alloc(), 5, SlotRef::new(&slot))
        .service(inner);
    match made {
        Ok(client) => behind(script, report, client, slot.take()),
        Err(AllocError) => script.over(report, "out of memory"),
    }
}

/// A buffer, a concurrency limit, a rate limit, retries, and maps of requests and responses.
pub fn whole_stack<R: Wait + Copy>(
    rt: R,
    script: &Script<'_>,
    report: &mut Report<'_>,
) -> Result<(), AllocError> {
    let made = ServiceBuilder::new()
        .concurrency_limit(rt, script.alloc(), 5)
        .rate_limit(script.alloc(), 5, 5_000_000_000, script.clock())
        .retry(NoRetries)
        .map_response(|response: u8| response == 7)
        .map_request(|request: bool| u8::from(request))
        .service(script.service('s'));
    match made {
        Ok(inner) => queued(rt, script, report, inner),
        Err(AllocError) => script.over(report, "out of memory"),
    }
}
