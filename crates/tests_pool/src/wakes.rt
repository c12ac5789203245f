//! Whether a poll of a balancer wakes its task, and how many services of a list it takes. Its own service is never called.
ghost use Rattle.std.specs.Prelude.{⊤};

use futures::future::{Ready, ready};
use futures::task::{Context, Poll};
use std::alloc::AllocGlobal;
use std::convert::Infallible;
use std::random::RandomSource;
use std::test::Fail;
use tests_support::checks::Checks;
use tests_support::run::{is_woken, polled, task};
use tower_base::service::Service;
use tower_limit::discover::{Change, Discover, ServiceList};
use tower_limit::load::Load;
use tower_pool::balance::p2c::Balance;

// An endpoint that is always ready, or never.
#[derive(Drop)]
struct Quiet {
    is_ready: bool,
}

impl Load for Quiet {
    type Metric = u8;

    ghost loaded = { λ _ _. ⊤ };

    fn load(&self) -> u8 {
        0
    }
}

impl Service<u8> for Quiet {
    type Response = u8;

    type Error = Infallible;

    type Future = Ready<Result<u8, Infallible>>;

    ghost readies = { λ _ _ _. tt };

    fn poll_ready(&mut self, cx: &mut Context<'_>) -> Poll<Result<(), Infallible>> {
        if self.is_ready {
            return Poll::Ready(Ok(()));
        }
        cx.yield_now()
    }

    fn call(&mut self, request: u8) -> Ready<Result<u8, Infallible>> {
        ready(Ok(request))
    }
}

// Inserts and removes one key for ever.
#[derive(Drop)]
struct Surge {
    is_there: bool,
}

impl Discover for Surge {
    type Key = usize;

    type Service = Quiet;

    type Error = Infallible;

    ghost discovered = { λ _ _ _. ⊤ };

    fn poll_discover(
        &mut self,
        _cx: &mut Context<'_>,
    ) -> Poll<Option<Result<Change<usize, Quiet>, Infallible>>> {
        self.is_there = !self.is_there;
        if self.is_there {
            Poll::Ready(Some(Ok(Change::Insert(0, Quiet { is_ready: true }))))
        } else {
            Poll::Ready(Some(Ok(Change::Remove(0))))
        }
    }
}

// Whether one poll of readiness, which is pending, wakes its task.
fn wakes<R, B>(rt: R, mut service: B) -> Result<bool, Fail>
where
    R: RandomSource + AllocGlobal + Copy,
    B: Service<u8>,
    requires { B.sound service }
{
    let solo = task(&rt)?;
    if polled(&solo, &mut service).is_ready() {
        return Err("the service is not pending".into());
    }
    Ok(is_woken(&solo))
}

#[test]
fn poll_of_64_changes_wakes_its_task(rt: HostRuntime) -> Result<(), Fail> {
    let endless = Balance::new(rt.alloc(), Surge { is_there: false });
    assert!(rt; wakes(rt, endless)?);
    let services: Vec<Quiet> = Vec::new(rt.alloc());
    let over = Balance::new(rt.alloc(), ServiceList::new(services));
    assert!(rt; !wakes(rt, over)?);
    Ok(())
}

#[test]
fn list_of_a_hundred_takes_two_polls(rt: HostRuntime) -> Result<(), Fail> {
    let checks = Checks::new(rt.alloc());
    let mut services = Vec::new(rt.alloc());
    for _ in 0..100u8 {
        services
            .push(Quiet { is_ready: false })
            .map_err(|_| "no room")?;
    }
    let mut balance = Balance::new(rt.alloc(), ServiceList::new(services));
    let solo = task(&rt)?;
    assert!(rt; polled(&solo, &mut balance).is_pending());
    checks.same(&balance.len(), &64);
    assert!(rt; polled(&solo, &mut balance).is_pending());
    checks.same(&balance.len(), &100);
    checks.verdict()
}
