//! `either left` and `either right`: a service `a`, or a service `b` whose requests are halved. `optional [none]`: a service `a`, or none.

use scripted::report::Report;
use scripted::script::{Numbers, Script};
use std::alloc::AllocError;
use tests_support::service::Scripted;
use tower_util::util::{Either, MapRequest, Optional};

pub fn play_either(script: &Script<'_>, report: &mut Report<'_>) -> Result<(), AllocError> {
    let half = |x: u8| x / 2;
    let service = if script.has("right") {
        Either::Right(MapRequest::new(script.service('b'), half))
    } else {
        Either::Left(script.service('a'))
    };
    script.play_alone(report, service, &Numbers)
}

pub fn play_optional(script: &Script<'_>, report: &mut Report<'_>) -> Result<(), AllocError> {
    let inner = if script.has("none") {
        None::<Scripted<'_>>
    } else {
        Some(script.service('a'))
    };
    script.play_alone(report, Optional::new(inner), &Numbers)
}
