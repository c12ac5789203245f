//! Stacks of a few layers: the order of two, layers that may be left out, and one limit round another.
ghost use Rattle.std.specs.Prelude.{IfOk};

use scripted::report::Report;
use scripted::script::{Numbers, Script};
use std::alloc::AllocError;
use std::fmt::{Debug, Display};
use std::sync::Wait;
use tower::timeout::TimeoutLayer;
use tower::util::MapErrLayer;
use tower::{Service, ServiceBuilder};

/// No layer.
pub fn none(script: &Script<'_>, report: &mut Report<'_>) -> Result<(), AllocError> {
    let service = ServiceBuilder::default().service(script.service('s'))?;
    script.play_alone(report, service, &Numbers)
}

/// The outer multiplies a request by 10, the inner adds 1.
pub fn requests(script: &Script<'_>, report: &mut Report<'_>) -> Result<(), AllocError> {
    let log = script.stage().log;
    let service = ServiceBuilder::new()
        .map_request(|x: u8| {
            log.note(format_args!("outer asked {x}"));
            x.wrapping_mul(10)
        })
        .map_request(|x: u8| {
            log.note(format_args!("inner asked {x}"));
            x.wrapping_add(1)
        })
        .service(script.service('s'))?;
    script.play_alone(report, service, &Numbers)
}

/// 100 is added to an error.
pub fn option(script: &Script<'_>, report: &mut Report<'_>) -> Result<(), AllocError> {
    let raised = |error: u8| error.wrapping_add(100);
    let service = ServiceBuilder::new()
        .option_layer(Some(MapErrLayer::new(raised)))
        .service(script.service('s'))?;
    script.play_alone(report, service, &Numbers)
}

/// The layer is left out.
pub fn no_option(script: &Script<'_>, report: &mut Report<'_>) -> Result<(), AllocError> {
    let service = ServiceBuilder::new()
        .option_layer(None::<MapErrLayer<fn(u8) -> u8>>)
        .service(script.service('s'))?;
    script.play_alone(report, service, &Numbers)
}

// Plays by what a builder made.
fn played<S>(
    script: &Script<'_>,
    report: &mut Report<'_>,
    made: Result<S, AllocError>,
) -> Result<(), AllocError>
where
    S: Service<u8>,
    S::Response: Display,
    S::Error: Debug + Display,
    requires { IfOk made S.sound }
{
    match made {
        Ok(service) => script.play_alone(report, service, &Numbers),
        Err(AllocError) => script.over(report, "out of memory"),
    }
}

/// One request is in flight, others are refused, and responses have 10 nanoseconds.
pub fn shed_in_time<R: Wait + Copy>(
    rt: R,
    script: &Script<'_>,
    report: &mut Report<'_>,
) -> Result<(), AllocError> {
    let made = ServiceBuilder::new()
        .layer(TimeoutLayer::new(10, script.clock()))
        .load_shed()
        .concurrency_limit(rt, script.alloc(), 1)
        .service(script.service('s'));
    played(script, report, made)
}
