//! `ServiceBuilder`: its layers as values, how often they are cloned, and when they go.

use std::alloc::AllocError;
use std::test::Fail;
use tests_support::checks::Checks;
use tests_support::log::Log;
use tests_support::plain::Plain;
use tests_support::run::{fire, task};
use tests_support::script::Script;
use tests_support::service::Scripted;
use tower::ServiceBuilder;
use tower::layer::Layer;
use tower::layer::util::Identity;

#[test]
fn closure_over_results_is_kept_until_the_builder_goes(rt: HostRuntime) -> Result<(), Fail> {
    let log = Log::new(rt.alloc())?;
    let builder = ServiceBuilder::new().map_result(Plain::new(&log, 'r'));
    drop(builder.clone()?);
    drop(builder.then(Plain::new(&log, 't')).into_inner());
    assert_eq!(rt;
        log.told(rt.alloc())?.as_str(),
        "r cloned r1;r1 dropped;t dropped;r dropped;"
    );
    Ok(())
}

#[test]
fn layers_by_closures_and_as_they_are(rt: HostRuntime) -> Result<(), Fail> {
    let checks = Checks::new(rt.alloc());
    let log = Log::new(rt.alloc())?;
    let ten = |x: u32| -> Result<u32, AllocError> {
        log.note(format_args!("ten {x}"));
        Ok(x.wrapping_mul(10))
    };
    let one = |x: u32| -> Result<u32, AllocError> {
        log.note(format_args!("one {x}"));
        Ok(x.wrapping_add(1))
    };
    let builder = ServiceBuilder::new()
        .layer_fn(one)
        .layer(Identity::new())
        .layer_fn(ten);
    checks.same(&builder.service(4u32)?, &41);
    checks.same(&builder.into_inner().layer(5u32)?, &51);
    checks.told(&log, "ten 4;one 40;ten 5;one 50;");
    checks.verdict()
}

#[test]
fn layers_go_once_the_closure_has_them(rt: HostRuntime) -> Result<(), Fail> {
    let checks = Checks::new(rt.alloc());
    let log = Log::new(rt.alloc())?;
    let service = ServiceBuilder::new()
        .filter(Plain::new(&log, 'p'))
        .service_fn(Plain::new(&log, 'f'))?;
    checks.told(&log, "p cloned p1;p dropped;");
    drop(service);
    checks.told(&log, "f dropped;p1 dropped;");
    checks.verdict()
}

#[test]
fn builder_is_a_layer_and_has_clones(rt: HostRuntime) -> Result<(), Fail> {
    let checks = Checks::new(rt.alloc());
    let log = Log::new(rt.alloc())?;
    let script = Script::new(&log);
    let solo = task(&rt)?;
    let builder = ServiceBuilder::new()
        .map_request(|x: u8| x.wrapping_add(1))
        .check_clone()
        .check_service_clone::<Scripted<'_>>()
        .check_service::<Scripted<'_>, u8, u8, u8>();
    let inside = ServiceBuilder::new().layer(builder.clone()?);
    let service = Layer::layer(&inside, Scripted::new(&script, 's'))?;
    checks.same(&fire(&solo, service, 6), &Some(Ok(7)));
    let plain = ServiceBuilder::new().layer(Plain::refusing(&log, 'r'));
    checks.holds(plain.clone().is_err());
    checks.verdict()
}
