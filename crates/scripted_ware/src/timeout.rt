//! `timeout 10 [layer] [get_mut] [into_inner]`.

use scripted::report::Report;
use scripted::script::Script;
use std::alloc::AllocError;
use tests_support::clock::Hand;
use tests_support::service::Scripted;
use tower_base::layer::Layer;
use tower_ware::timeout::{Timeout, TimeoutLayer};

fn made<'a>(
    script: &Script<'a>,
    duration: u64,
) -> Result<Timeout<Scripted<'a>, Hand<'a>>, AllocError> {
    if script.has("layer") {
        let layer = TimeoutLayer::new(duration, script.clock()).clone()?;
        return layer.layer(script.service('s'));
    }
    let mut service = Timeout::new(script.service('s'), duration, script.clock());
    if script.has("get_mut") {
        *service.get_mut() = script.service('t');
        drop(service.get_ref().clone()?);
    }
    Ok(service)
}

pub fn play(script: &Script<'_>, report: &mut Report<'_>) -> Result<(), AllocError> {
    let Some(duration) = script.number(0) else {
        return script.unread(report);
    };
    let service = made(script, duration)?;
    if script.has("into_inner") {
        drop(service.into_inner());
        return script.over(report, "");
    }
    script.play(report, service)
}
