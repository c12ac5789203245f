//! Predicates and pickers of one's own without a ghost line.

use futures::future::{Ready, err, ok};
use std::test::Fail;
use tests_support::checks::Checks;
use tests_support::log::Log;
use tests_support::run::{fire, task};
use tests_support::script::Script;
use tests_support::service::Scripted;
use tower_ware::filter::{AsyncFilter, AsyncPredicate, Error, Filter, Predicate};
use tower_ware::steer::{Picker, Steer};

// Lets even requests through.
#[derive(Clone, Copy)]
struct Even;

impl Predicate<u8> for Even {
    type Request = u8;

    type Error = u8;

    fn check(&mut self, request: u8) -> Result<u8, u8> {
        if request % 2 == 0 {
            Ok(request)
        } else {
            Err(request)
        }
    }
}

impl AsyncPredicate<u8> for Even {
    type Request = u8;

    type Error = u8;

    type Future = Ready<Result<u8, u8>>;

    fn check(&mut self, request: u8) -> Ready<Result<u8, u8>> {
        if request % 2 == 0 {
            ok(request)
        } else {
            err(request)
        }
    }
}

#[test]
fn predicate_that_says_nothing_checks(rt: HostRuntime) -> Result<(), Fail> {
    let checks = Checks::new(rt.alloc());
    let log = Log::new(rt.alloc())?;
    let script = Script::new(&log);
    let solo = task(&rt)?;
    let filter = Filter::new(Scripted::new(&script, 's'), Even);
    checks.same(&fire(&solo, filter, 6), &Some(Ok(6)));
    let filter = Filter::new(Scripted::new(&script, 's'), Even);
    checks.same(&fire(&solo, filter, 7), &Some(Err(Error::Rejected(7))));
    let filter = AsyncFilter::new(Scripted::new(&script, 's'), Even);
    checks.same(&fire(&solo, filter, 8), &Some(Ok(8)));
    checks.verdict()
}

// Always picks the first.
#[derive(Clone, Copy)]
struct First;

impl<S> Picker<S, u8> for First {
    fn pick(&mut self, _request: &u8, _services: &[S]) -> usize {
        0
    }
}

#[test]
fn picker_that_says_nothing_picks(rt: HostRuntime) -> Result<(), Fail> {
    let checks = Checks::new(rt.alloc());
    let log = Log::new(rt.alloc())?;
    let script = Script::new(&log);
    let solo = task(&rt)?;
    let services = vec![in rt.alloc(); Scripted::new(&script, 'a'), Scripted::new(&script, 'b')]?;
    let steer = Steer::new(rt.alloc(), services, First)?;
    checks.same(&fire(&solo, steer, 6), &Some(Ok(6)));
    checks.told(
        &log,
        "a ready;b ready;a called 6;a(6) ready;a(6) dropped;a dropped;b dropped;",
    );
    checks.verdict()
}
