//! `map_request`, `map_response`, `map_err` and `map_result`, each with `[layer]`: of a service `a`, with a closure `f` that notes what it is asked. The
//! layer is a clone. The closure halves requests, adds one to responses, takes a third of errors, and turns results round.
//!
//! `map_future [get_mut] [into_inner]`: of a closure as a service, with one that gives the future as it is.

use crate::answers::turned;
use futures::future::{Ready, ready};
use scripted::report::Report;
use scripted::script::{Numbers, Script};
use std::alloc::AllocError;
use tests_support::service::Scripted;
use tower_base::layer::Layer;
use tower_util::util::{MapErr, MapFuture, MapRequest, MapResponse, MapResult, service_fn};

pub fn play_request(script: &Script<'_>, report: &mut Report<'_>) -> Result<(), AllocError> {
    let log = script.stage().log;
    let half = |x: u8| {
        log.note(format_args!("f asked {x}"));
        x / 2
    };
    let service = if script.has("layer") {
        let layer = MapRequest::<Scripted<'_>, _>::layer(half).clone()?;
        layer.layer(script.service('a'))?
    } else {
        MapRequest::new(script.service('a'), half)
    };
    script.play(report, service)
}

pub fn play_response(script: &Script<'_>, report: &mut Report<'_>) -> Result<(), AllocError> {
    let log = script.stage().log;
    let plus_one = |x: u8| {
        log.note(format_args!("f asked {x}"));
        x.wrapping_add(1)
    };
    let service = if script.has("layer") {
        let layer = MapResponse::<Scripted<'_>, _>::layer(plus_one).clone()?;
        layer.layer(script.service('a'))?
    } else {
        MapResponse::new(script.service('a'), plus_one)
    };
    script.play(report, service)
}

pub fn play_err(script: &Script<'_>, report: &mut Report<'_>) -> Result<(), AllocError> {
    let log = script.stage().log;
    let third = |x: u8| {
        log.note(format_args!("f asked {x}"));
        x / 3
    };
    let service = if script.has("layer") {
        let layer = MapErr::<Scripted<'_>, _>::layer(third).clone()?;
        layer.layer(script.service('a'))?
    } else {
        MapErr::new(script.service('a'), third)
    };
    script.play(report, service)
}

pub fn play_result(script: &Script<'_>, report: &mut Report<'_>) -> Result<(), AllocError> {
    let log = script.stage().log;
    let turn = |answer: Result<u8, u8>| {
        log.note(format_args!("f asked {answer:?}"));
        turned(answer)
    };
    play_by_turn(script, report, turn)
}

// By this closure.
fn play_by_turn<F>(script: &Script<'_>, report: &mut Report<'_>, turn: F) -> Result<(), AllocError>
where
    F: Fn(Result<u8, u8>) -> Result<u8, u16> + Copy,
    requires pre { (f : _) (x : _) → F.pre f x }
{
    let service = if script.has("layer") {
        let layer = MapResult::<Scripted<'_>, _>::layer(turn).clone()?;
        layer.layer(script.service('a'))?
    } else {
        MapResult::new(script.service('a'), turn)
    };
    script.play(report, service)
}

// The kit doesn't prove a closure whose argument borrows, so the inner service is a closure too.
pub fn play_future(script: &Script<'_>, report: &mut Report<'_>) -> Result<(), AllocError> {
    let log = script.stage().log;
    if script.has("get_mut") || script.has("into_inner") {
        let mut service = MapFuture::new(script.service('a'), 0u8);
        if script.has("get_mut") {
            *service.get_mut() = script.service('b');
            drop(service.get_ref().clone()?);
        }
        if script.has("into_inner") {
            drop(service.into_inner());
            return script.over(report, "");
        }
        return script.play_copies(report, service);
    }
    let inner = service_fn(|x: u8| {
        log.note(format_args!("a called {x}"));
        ready(Ok::<u8, u8>(x))
    });
    let same = |future: Ready<Result<u8, u8>>| {
        log.note("f asked");
        future
    };
    script.play_alone(report, MapFuture::new(inner, same), &Numbers)
}
