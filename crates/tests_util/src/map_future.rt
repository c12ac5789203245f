//! `MapFuture`: its closure sees no error of readiness.

use futures::future::ready;
use std::test::Fail;
use tests_support::checks::Checks;
use tests_support::log::Log;
use tests_support::run::{fire, task};
use tower_util::make::future::SharedFuture;
use tower_util::make::{Shared, shared};
use tower_util::util::error::future_service;
use tower_util::util::future::FutureServiceFuture;
use tower_util::util::{FutureService, MapFuture};

#[test]
fn error_of_readiness_is_only_converted(rt: HostRuntime) -> Result<(), Fail> {
    let checks = Checks::new(rt.alloc());
    type Error = future_service::Error<shared::Error>;
    let log = Log::new(rt.alloc())?;
    let solo = task(&rt)?;
    let lost = ready(Err::<Shared<u8>, _>(shared::Error::Memory));
    let other = |_future: FutureServiceFuture<SharedFuture<u8>>| {
        log.note("f asked");
        ready(Ok::<u8, Error>(9))
    };
    let service = MapFuture::new(FutureService::<_, Shared<u8>>::new(lost), other);
    checks.same(
        &fire(&solo, service, 6u8),
        &Some(Err(future_service::Error::Inner(shared::Error::Memory))),
    );
    checks.told(&log, "");
    checks.verdict()
}
