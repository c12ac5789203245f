//! `tower::filter`: closures as predicates.

use futures::task::Poll;
use std::test::Fail;
use tests_support::checks::Checks;
use tests_support::future::After;
use tests_support::log::Log;
use tests_support::run::{stepped, task};
use tests_support::service::Scripted;
use tests_support::story::Stage;
use tower_base::layer::Layer;
use tower_ware::filter::{AsyncFilter, AsyncPredicateFn, Error, Filter, PredicateFn};

// Refuses requests from 100 on, and doubles the others.
fn doubled(log: &Log, request: u8) -> Result<u8, u8> {
    log.note(format_args!("checked {request}"));
    if request < 100 {
        Ok(request * 2)
    } else {
        Err(request)
    }
}

#[test]
fn a_filter_checks_and_lends(rt: HostRuntime) -> Result<(), Fail> {
    let checks = Checks::new(rt.alloc());
    let alloc = rt.alloc();
    let log = Log::new(alloc)?;
    let stage = Stage::new(&log);
    let predicate = PredicateFn::new(|request: u8| doubled(&log, request));
    let layer = Filter::<Scripted<'_>, _>::layer(predicate).clone()?;
    let mut filter = layer.layer(Scripted::new(&stage.script, 'a'))?;
    checks.same(&filter.check(3), &Ok(6));
    checks.same(&filter.check(103), &Err(103));
    *filter.get_mut() = Scripted::new(&stage.script, 'b');
    drop(filter.get_ref().clone()?);
    drop(filter.into_inner());
    checks.told(
        &log,
        "checked 3;checked 103;a dropped;b cloned b1;b1 dropped;b dropped;",
    );
    checks.verdict()
}

#[test]
fn an_async_filter_checks_and_lends(rt: HostRuntime) -> Result<(), Fail> {
    let checks = Checks::new(rt.alloc());
    let alloc = rt.alloc();
    let log = Log::new(alloc)?;
    let stage = Stage::new(&log);
    let predicate = AsyncPredicateFn::new(|request: u8| After::new(
        &log,
        'c',
        0,
        doubled(&log, request),
    ));
    let layer = AsyncFilter::<Scripted<'_>, _>::layer(predicate).clone()?;
    let mut filter = layer.layer(Scripted::new(&stage.script, 'a'))?;
    let mut check = filter.check(3);
    checks.same(&stepped(&task(&rt)?, &mut check), &Poll::Ready(Ok(6)));
    *filter.get_mut() = Scripted::new(&stage.script, 'b');
    drop(filter.get_ref().clone()?);
    drop(filter.into_inner());
    checks.told(
        &log,
        "checked 3;c ready;a dropped;b cloned b1;b1 dropped;b dropped;",
    );
    checks.verdict()
}

#[test]
fn errors_have_texts(rt: HostRuntime) -> Result<(), Fail> {
    let errors: [Error<u8, u8>; 3] = [Error::Inner(1), Error::Rejected(2), Error::Memory];
    let [inner, rejected, memory] = errors;
    let text = format!(in rt.alloc(); "{inner}, {rejected}, {memory}")?;
    assert_eq!(rt; text.as_str(), "1, 2, out of memory");
    Ok(())
}
