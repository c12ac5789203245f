//! `plain KIND [layer] [layered]`: what is only cloned and dropped, over a `p` by the first plan and a closure `f` by the second, neither of which can be called.
//! With `layer` it is the layer of the closure; with `layered` it was made by that.

use scripted::report::Report;
use scripted::script::Script;
use std::alloc::AllocError;
use tests_support::service::Target;
use tower_base::layer::Layer;
use tower_util::make::Shared;
use tower_util::util::{
    AndThen, AndThenLayer, Either, FutureService, MapErr, MapErrLayer, MapFuture, MapFutureLayer,
    MapRequest, MapRequestLayer, MapResponse, MapResponseLayer, MapResult, MapResultLayer, Then,
    ThenLayer, service_fn,
};

// Plays by what the layer makes.
fn layered<'a, L: Layer<Target<'a>> + Drop>(
    script: &Script<'_>,
    report: &mut Report<'_>,
    layer: L,
    service: Target<'a>,
) -> Result<(), AllocError>
where
    L::Service: Clone + Drop,
    requires { (l : L) (s : Target) → L.can_layer l s }
{
    let made = layer.layer(service);
    drop(layer);
    match made {
        Ok(service) => script.play_copies(report, service),
        Err(AllocError) => script.over(report, "out of memory"),
    }
}

pub fn play(script: &Script<'_>, report: &mut Report<'_>) -> Result<(), AllocError> {
    let stage = script.stage();
    let part = || Target::new(&stage.script, 'p', 0);
    let closure = || Target::new(&stage.others, 'f', 0);
    match (script.word(0), script.word(1)) {
        (Some("map_request"), None) => script.play_copies(
            report,
            MapRequest::new(part(), closure()),
        ),
        (Some("map_request"), Some("layer")) => script.play_copies(
            report,
            MapRequestLayer::new(closure()),
        ),
        (Some("map_request"), Some("layered")) => layered(
            script,
            report,
            MapRequestLayer::new(closure()),
            part(),
        ),
        (Some("map_future"), None) => script.play_copies(report, MapFuture::new(part(), closure())),
        (Some("map_future"), Some("layer")) => script.play_copies(
            report,
            MapFutureLayer::new(closure()),
        ),
        (Some("map_future"), Some("layered")) => layered(
            script,
            report,
            MapFutureLayer::new(closure()),
            part(),
        ),
        (Some("map_response"), None) => script.play_copies(
            report,
            MapResponse::new(part(), closure()),
        ),
        (Some("map_response"), Some("layer")) => script.play_copies(
            report,
            MapResponseLayer::new(closure()),
        ),
        (Some("map_err"), None) => script.play_copies(report, MapErr::new(part(), closure())),
        (Some("map_err"), Some("layer")) => script.play_copies(report, MapErrLayer::new(closure())),
        _ => play_others(script, report),
    }
}

fn play_others(script: &Script<'_>, report: &mut Report<'_>) -> Result<(), AllocError> {
    let stage = script.stage();
    let part = || Target::new(&stage.script, 'p', 0);
    let closure = || Target::new(&stage.others, 'f', 0);
    match (script.word(0), script.word(1)) {
        (Some("map_result"), None) => script.play_copies(report, MapResult::new(part(), closure())),
        (Some("map_result"), Some("layer")) => script.play_copies(
            report,
            MapResultLayer::new(closure()),
        ),
        (Some("then"), None) => script.play_copies(report, Then::new(part(), closure())),
        (Some("then"), Some("layer")) => script.play_copies(report, ThenLayer::new(closure())),
        (Some("and_then"), None) => script.play_copies(report, AndThen::new(part(), closure())),
        (Some("and_then"), Some("layer")) => script.play_copies(
            report,
            AndThenLayer::new(closure()),
        ),
        (Some("left"), None) => {
            let left: Either<Target<'_>, Target<'_>> = Either::Left(part());
            script.play_copies(report, left)
        }
        (Some("right"), None) => {
            let right: Either<Target<'_>, Target<'_>> = Either::Right(closure());
            script.play_copies(report, right)
        }
        (Some("service_fn"), None) => script.play_copies(report, service_fn(closure())),
        (Some("shared"), None) => script.play_copies(report, Shared::new(part())),
        (Some("future_service"), None) => {
            let coming: FutureService<Target<'_>, Target<'_>> = FutureService::new(part());
            script.play_copies(report, coming)
        }
        _ => script.unread(report),
    }
}
