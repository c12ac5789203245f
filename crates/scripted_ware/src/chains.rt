//! `then POLLS [layer]` and `and_then POLLS [layer]`: of a service `a`, with a closure `f` whose futures `n` are pending so often.

use crate::answers::crossed;
use scripted::report::Report;
use scripted::script::Script;
use std::alloc::AllocError;
use tests_support::future::After;
use tests_support::service::Scripted;
use tower_base::layer::Layer;
use tower_util::util::{AndThen, Then};

fn polls_of(script: &Script<'_>) -> u8 {
    match script.number(0) {
        Some(polls) if polls < 256 => polls as u8,
        _ => 0,
    }
}

pub fn play_then(script: &Script<'_>, report: &mut Report<'_>) -> Result<(), AllocError> {
    let (log, polls) = (script.stage().log, polls_of(script));
    let second = |outcome: Result<u8, u8>| {
        log.note(format_args!("f asked {outcome:?}"));
        After::new(log, 'n', polls, crossed(outcome))
    };
    let service = if script.has("layer") {
        let layer = Then::<Scripted<'_>, _>::layer(second).clone()?;
        layer.layer(script.service('a'))?
    } else {
        Then::new(script.service('a'), second)
    };
    script.play(report, service)
}

pub fn play_and_then(script: &Script<'_>, report: &mut Report<'_>) -> Result<(), AllocError> {
    let (log, polls) = (script.stage().log, polls_of(script));
    let half = |x: u8| {
        log.note(format_args!("f asked {x}"));
        let answer: Result<u8, u16> = if x < 100 {
            Ok(x / 2)
        } else {
            Err(u16::from(x))
        };
        After::new(log, 'n', polls, answer)
    };
    let service = if script.has("layer") {
        let layer = AndThen::<Scripted<'_>, _>::layer(half).clone()?;
        layer.layer(script.service('a'))?
    } else {
        AndThen::new(script.service('a'), half)
    };
    script.play(report, service)
}
