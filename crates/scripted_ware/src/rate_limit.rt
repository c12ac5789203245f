//! `rate_limit NUMBER PERIOD [layer] [get_mut] [into_inner]`.
ghost use Rattle.std.specs.Prelude.{◌≢◌};

use scripted::report::Report;
use scripted::script::{Numbers, Script};
use std::alloc::AllocError;
use tests_support::service::Scripted;
use tower_base::layer::Layer;
use tower_base::service::Clock;
use tower_limit::limit::rate::Rate;
use tower_limit::limit::{RateLimit, RateLimitLayer};

pub fn play(script: &Script<'_>, report: &mut Report<'_>) -> Result<(), AllocError> {
    match (script.number(0), script.number(1)) {
        (Some(number), Some(period)) if Rate::fits(number, period) => {
            let made = made(script, number, period, script.clock());
            played(script, report, made)
        }
        _ => script.unread(report),
    }
}

fn made<'a, C: Clock>(
    script: &Script<'a>,
    number: u64,
    period: u64,
    clock: C,
) -> Result<RateLimit<Scripted<'a>, C>, AllocError>
    requires number { number ≢ 0 }
    requires period { period ≢ 0 }
{
    if script.has("layer") {
        let layer = RateLimitLayer::new(script.alloc(), number, period, clock).clone()?;
        return layer.layer(script.service('s'));
    }
    let rate = Rate::new(number, period);
    RateLimit::new(script.alloc(), script.service('s'), rate, clock)
}

fn played<'a, C: Clock>(
    script: &Script<'a>,
    report: &mut Report<'_>,
    made: Result<RateLimit<Scripted<'a>, C>, AllocError>,
) -> Result<(), AllocError> {
    let Ok(mut service) = made else {
        return script.over(report, "out of memory");
    };
    if script.has("get_mut") {
        *service.get_mut() = script.service('t');
        drop(service.get_ref().clone()?);
    }
    if script.has("into_inner") {
        drop(service.into_inner());
        return script.over(report, "");
    }
    script.play_alone(report, service, &Numbers)
}
