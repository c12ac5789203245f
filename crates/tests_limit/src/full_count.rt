//! A count of pending requests that is full: a holder that isn't counted gives nothing back.
ghost use Rattle.std.specs.Prelude.{◌⊎◌};
ghost use Rattle.tests_limit.specs.FullCount.{IsFull, full_is_honest};

use futures::task::Context;
use std::alloc::AllocError;
use std::cell::Cell;
use std::test::Fail;
use tests_support::checks::Checks;
use tests_support::latch::Noting;
use tests_support::log::Log;
use tests_support::run::{called, stepped, task};
use tests_support::script::Script;
use tests_support::service::Scripted;
use tower_base::service::Service;
use tower_latch::{Guarded, Latch, Token};
use tower_limit::load::pending_requests::{CountCore, CountReply, CountStep};
use tower_limit::load::{CompleteOnResponse, PendingRequests};

/// A latch that refuses each holder, as one does if 2^64 - 1 are counted.
#[derive(Drop)]
struct Full<L> {
    inner: L,
}

impl<L: Latch<CountCore>> Latch<CountCore> for Full<L> {
    ghost gave = { λ latch step reply. L.gave latch.inner step reply ⊎ IsFull step reply };

    ghost terms = { λ latch. L.terms latch.inner };

    ghost its = { λ latch token. L.its latch.inner token };

    ghost honest = { λ latch. full_is_honest (L.gave latch.inner) (L.terms latch.inner) (L.honest latch.inner) };

    fn step(&self, step: CountStep) -> CountReply {
        match step {
            CountStep::Take => CountReply::Full,
            _ => self.inner.step(step),
        }
    }

    fn wait(&self, step: CountStep, cx: &mut Context<'_>) -> (CountReply, Token) {
        self.inner.wait(step, cx)
    }

    fn give(&self, step: CountStep, token: Token) -> (CountReply, Token) {
        self.inner.give(step, token)
    }

    fn empty(&self) -> Token {
        self.inner.empty()
    }

    fn merge(&self, token: Token, other: Token) -> Token {
        self.inner.merge(token, other)
    }

    fn share(&self) -> Result<Full<L>, AllocError> {
        Ok(Full {
            inner: self.inner.share()?,
        })
    }
}

// One call, whose response is dropped after its answer.
fn check_call<S: Service<u8>>(
    rt: &HostRuntime,
    checks: &Checks,
    log: &Log,
    mut service: S,
) -> Result<(), Fail>
    requires { S.sound service }
{
    let solo = task(rt)?;
    let mut response = called(&solo, &mut service, 1).ok_or("not ready")?;
    checks.told(
        log,
        "s ready;latch shared;latch stepped Take;latch dropped;s called 1;",
    );
    checks.holds(stepped(&solo, &mut response).is_ready());
    drop(response);
    checks.told(log, "s(1) ready;s(1) dropped;");
    Ok(())
}

// A load over this latch, by which each holder is refused.
fn check_load<L: Latch<CountCore>>(
    rt: &HostRuntime,
    checks: &Checks,
    log: &Log,
    inner: L,
) -> Result<(), Fail> {
    let (shares, script) = (Cell::new(u8::MAX), Script::new(log));
    let latch = Noting::new(log, &shares, Full { inner });
    let service = PendingRequests::with_latch(
        Scripted::new(&script, 's'),
        CompleteOnResponse,
        latch,
    );
    check_call(rt, checks, log, service)
}

#[test]
fn full_count(rt: HostRuntime) -> Result<(), Fail> {
    let checks = Checks::new(rt.alloc());
    let log = Log::new(rt.alloc())?;
    check_load(
        &rt,
        &checks,
        &log,
        Guarded::new(rt, rt.alloc(), CountCore::new())?,
    )?;
    checks.verdict()
}
