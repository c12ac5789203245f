//! `call_all SENT [closed]` and `call_all_unordered SENT [closed]`: the service `s` is called with so many requests, the numbers from 0
//! on. `next` polls the stream, `send N` sends requests up to so many in all, and `close` ends them.

use scripted::flow::Flowing;
use scripted::party::Nobody;
use scripted::report::Report;
use scripted::script::Script;
use scripted::stream::Streaming;
use std::alloc::AllocError;
use tests_support::stream::{Outbox, Requests};
use tower_base::service::{Flow, Service};
use tower_ware::util::call_all::Error;
use tower_ware::util::{CallAll, CallAllUnordered};

fn played<F: Flow<Item = Result<u8, Error<u8>>>>(
    script: &Script<'_>,
    report: &mut Report<'_>,
    outbox: &Outbox,
    flow: F,
) -> Result<(), AllocError>
    requires { F.can_poll flow }
{
    let mut streaming = Streaming {
        script,
        outbox,
        left: Some(Flowing::new(flow)),
        other: Nobody,
    };
    script.play_party(report, &mut streaming)
}

fn ordered<S: Service<u8, Response = u8, Error = u8>>(
    script: &Script<'_>,
    report: &mut Report<'_>,
    outbox: &Outbox,
    service: S,
) -> Result<(), AllocError>
    requires { S.sound service }
{
    let requests = Requests::new(script.stage().log, outbox);
    let calls = CallAll::new(script.alloc(), service, requests);
    played(script, report, outbox, calls)
}

fn unordered<S: Service<u8, Response = u8, Error = u8>>(
    script: &Script<'_>,
    report: &mut Report<'_>,
    outbox: &Outbox,
    service: S,
) -> Result<(), AllocError>
    requires { S.sound service }
{
    let requests = Requests::new(script.stage().log, outbox);
    let calls = CallAllUnordered::new(script.alloc(), service, requests);
    played(script, report, outbox, calls)
}

// The requests that are sent at first.
fn outbox_of(script: &Script<'_>) -> Option<Outbox> {
    match script.number(0) {
        Some(sent) if sent < 256 => Some(Outbox::new(sent as u8, script.has("closed"))),
        _ => None,
    }
}

pub fn play(script: &Script<'_>, report: &mut Report<'_>) -> Result<(), AllocError> {
    match outbox_of(script) {
        Some(outbox) => ordered(script, report, &outbox, script.service('s')),
        None => script.unread(report),
    }
}

pub fn play_unordered(script: &Script<'_>, report: &mut Report<'_>) -> Result<(), AllocError> {
    match outbox_of(script) {
        Some(outbox) => unordered(script, report, &outbox, script.service('s')),
        None => script.unread(report),
    }
}
