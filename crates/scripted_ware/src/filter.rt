//! `filter [layer] [get_mut] [checked] [into_inner]` and `async_filter POLLS [layer] [get_mut] [checked] [into_inner]`.

use crate::parts::Doubling;
use futures::task::Poll;
use scripted::report::Report;
use scripted::script::Script;
use std::alloc::AllocError;
use tests_support::run::stepped;
use tests_support::service::Scripted;
use tower_base::layer::Layer;
use tower_ware::filter::{AsyncFilter, Filter};

type Filtered<'a> = Filter<Scripted<'a>, Doubling<'a>>;

// What a check answers.
fn tell(script: &Script<'_>, answer: Result<u8, u8>) {
    let log = script.stage().log;
    match answer {
        Ok(request) => log.note(format_args!("passed as {request}")),
        Err(error) => log.note(format_args!("refused by {error}")),
    }
}

fn made<'a>(script: &Script<'a>) -> Result<Filtered<'a>, AllocError> {
    let predicate = Doubling::new(script, 0);
    if script.has("layer") {
        let layer = Filtered::layer(predicate).clone()?;
        return layer.layer(script.service('s'));
    }
    let mut service = Filter::new(script.service('s'), predicate);
    if script.has("get_mut") {
        *service.get_mut() = script.service('t');
        drop(service.get_ref().clone()?);
    }
    if script.has("checked") {
        for request in [3, 103] {
            tell(script, service.check(request));
        }
    }
    Ok(service)
}

pub fn play(script: &Script<'_>, report: &mut Report<'_>) -> Result<(), AllocError> {
    let Ok(service) = made(script) else {
        return script.over(report, "out of memory");
    };
    if script.has("into_inner") {
        drop(service.into_inner());
        return script.over(report, "");
    }
    script.play(report, service)
}

type AsyncFiltered<'a> = AsyncFilter<Scripted<'a>, Doubling<'a>>;

fn made_async<'a>(script: &Script<'a>, polls: u8) -> Result<AsyncFiltered<'a>, AllocError> {
    let predicate = Doubling::new(script, polls);
    if script.has("layer") {
        let layer = AsyncFiltered::layer(predicate).clone()?;
        return layer.layer(script.service('s'));
    }
    let mut service = AsyncFilter::new(script.service('s'), predicate);
    if script.has("get_mut") {
        *service.get_mut() = script.service('t');
        drop(service.get_ref().clone()?);
    }
    if script.has("checked") {
        for request in [3, 103] {
            let mut check = service.check(request);
            if let Poll::Ready(answer) = stepped(script.solo(), &mut check) {
                tell(script, answer);
            }
        }
    }
    Ok(service)
}

pub fn play_async(script: &Script<'_>, report: &mut Report<'_>) -> Result<(), AllocError> {
    let polls = match script.number(0) {
        Some(polls) if polls < 256 => polls as u8,
        _ => return script.unread(report),
    };
    let Ok(service) = made_async(script, polls) else {
        return script.over(report, "out of memory");
    };
    if script.has("into_inner") {
        drop(service.into_inner());
        return script.over(report, "");
    }
    script.play(report, service)
}
