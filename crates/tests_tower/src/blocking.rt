//! Waiting on the calling thread for a borrowed service, and for its responses.

use futures::future::{Ready, ok};
use futures::task::{Context, Poll};
use std::alloc::AllocGlobal;
use std::cell::Cell;
use std::convert::Infallible;
use std::random::RandomSource;
use std::sync::Wait;
use std::sync::atomic::{AtomicU64, Ordering};
use std::test::Fail;
use std::time::{Clock, Duration, Instant};
use std::{io, thread};
use tests_support::checks::Checks;
use tests_support::log::Log;
use tests_support::script::{Readiness, Reply, Script};
use tests_support::service::Scripted;
use tower::util::{Waiter, block_on_call, block_on_each, block_on_ready, service_fn};
use tower_base::service::{Service, Steps};
use tower_limit::limit::ConcurrencyLimit;
use tower_limit::limit::concurrency::Semaphore;

#[test]
fn service_is_polled_until_it_is_ready(rt: HostRuntime) -> Result<(), Fail> {
    let checks = Checks::new(rt.alloc());
    let log = Log::new(rt.alloc())?;
    let script = Script::new(&log);
    script.readiness(&[Readiness::Pending, Readiness::Pending, Readiness::Ready]);
    let mut service = Scripted::new(&script, 'a');
    let answer = block_on_ready::<_, _, u8>(&mut service, &rt)?;
    checks.same(&answer, &Ok(()));
    checks.told(&log, "a pending;a pending;a ready;");
    checks.verdict()
}

#[test]
fn ready_service_is_not_asked_again(rt: HostRuntime) -> Result<(), Fail> {
    let checks = Checks::new(rt.alloc());
    let log = Log::new(rt.alloc())?;
    let script = Script::new(&log);
    script.readiness(&[Readiness::Ready, Readiness::Error(90)]);
    let mut service = Scripted::new(&script, 'a');
    checks.same(&block_on_ready::<_, _, u8>(&mut service, &rt)?, &Ok(()));
    checks.told(&log, "a ready;");
    script.readiness(&[Readiness::Ready, Readiness::Error(90)]);
    checks.same(&block_on_call(&mut service, &rt, 6)?, &Ok(6));
    checks.told(&log, "a ready;a called 6;a(6) ready;a(6) dropped;");
    checks.verdict()
}

#[test]
fn error_leaves_the_service(rt: HostRuntime) -> Result<(), Fail> {
    let checks = Checks::new(rt.alloc());
    let log = Log::new(rt.alloc())?;
    let script = Script::new(&log);
    script.readiness(&[
        Readiness::Pending,
        Readiness::Error(90),
        Readiness::Error(91),
        Readiness::Ready,
    ]);
    let mut service = Scripted::new(&script, 'a');
    checks.same(&block_on_ready::<_, _, u8>(&mut service, &rt)?, &Err(90));
    checks.told(&log, "a pending;a error 90;");
    checks.same(&block_on_call(&mut service, &rt, 6)?, &Err(91));
    checks.told(&log, "a error 91;");
    checks.same(&block_on_call(&mut service, &rt, 7)?, &Ok(7));
    checks.told(&log, "a ready;a called 7;a(7) ready;a(7) dropped;");
    checks.verdict()
}

#[test]
fn one_waiter_for_ten_calls_each_of_a_ready_service(rt: HostRuntime) -> Result<(), Fail> {
    let checks = Checks::new(rt.alloc());
    let mut waiter = Waiter::new(&rt)?;
    let alloc = rt.alloc();
    let log = Log::new(alloc)?;
    let script = Script::new(&log);
    script.replies(&[Reply::Echo(1)]);
    let mut service = Scripted::new(&script, 'a');
    for request in 0..10 {
        script.readiness(&[Readiness::Pending, Readiness::Ready]);
        let answer = waiter.block_on_call(&rt, &mut service, request)?;
        checks.same(&answer, &Ok(request));
        let told = format!(in alloc;
            "a pending;a ready;a called {request};a({request}) pending;a({request}) ready;a({request}) dropped;"
        )?;
        checks.told(&log, told.as_str());
    }
    checks.verdict()
}

#[test]
fn each_answer_is_told_before_the_next_call(rt: HostRuntime) -> Result<(), Fail> {
    let log = Log::new(rt.alloc())?;
    let script = Script::new(&log);
    script.replies(&[Reply::Echo(1), Reply::Fail(0), Reply::Echo(0)]);
    let mut service = Scripted::new(&script, 'a');
    let requests = vec![in rt.alloc(); 1, 2, 3]?;
    block_on_each(&mut service, &rt, requests, |answer| {
        log.note(format_args!("told {answer:?}"))
    })?;
    assert_eq!(rt;
        log.told(rt.alloc())?.as_str(),
        "a ready;a called 1;a(1) pending;a(1) ready;a(1) dropped;told Ok(1);\
         a ready;a called 2;a(2) ready;a(2) dropped;told Err(2);\
         a ready;a called 3;a(3) ready;a(3) dropped;told Ok(3);"
    );
    Ok(())
}

// Says that it begins, and makes a call.
fn waits<R, S>(rt: &R, began: &AtomicU64, mut service: S) -> io::Result<bool>
where
    R: Wait + RandomSource + AllocGlobal,
    S: Service<u8, Response = u8>,
    requires { S.sound service }
{
    began.store(1, Ordering::SeqCst);
    Ok(matches!(block_on_call(&mut service, rt, 6)?, Ok(6)))
}

// Drops what it holds, some time after the other thread began.
fn lets_go<T: Drop>(rt: &impl Clock, began: &AtomicU64, held: T) {
    for _ in 0..1_000_000_u32 {
        if began.load(Ordering::SeqCst) == 1 {
            break;
        }
        thread::yield_now();
    }
    thread::sleep(rt, Duration::from_millis(20));
    drop(held);
}

#[test]
fn waker_of_another_thread_ends_the_wait(rt: HostRuntime) -> Result<(), Fail> {
    let checks = Checks::new(rt.alloc());
    let semaphore = Semaphore::new(rt, rt.alloc(), 1)?;
    let began = AtomicU64::new(0);
    let echo = service_fn(|n: u8| -> Ready<Result<u8, Infallible>> { ok(n) });
    let mut first = ConcurrencyLimit::with_semaphore(echo, semaphore.share()?);
    let second = first.clone()?;
    checks.holds(block_on_ready::<_, _, u8>(&mut first, &rt)?.is_ok());
    checks.same(&semaphore.available_permits(), &0);
    let (answered, ()) = thread::join(
        &rt,
        || waits(&rt, &began, second),
        || lets_go(&rt, &began, first),
    );
    checks.holds(answered?);
    checks.same(&semaphore.available_permits(), &1);
    checks.verdict()
}

const MANY: u32 = 1500;

// Readiness is pending for so many polls, and so is each response.
#[derive(Drop)]
struct Slow {
    left: u32,
}

impl Service<u8> for Slow {
    type Response = u8;

    type Error = u8;

    type Future = Late;

    ghost readies = { λ _ _ _. tt };

    fn poll_ready(&mut self, cx: &mut Context<'_>) -> Poll<Result<(), u8>> {
        if self.left > 0 {
            self.left -= 1;
            return cx.yield_now();
        }
        Poll::Ready(Ok(()))
    }

    fn call(&mut self, request: u8) -> Late {
        Late {
            left: MANY,
            answer: request,
        }
    }
}

#[derive(Drop)]
struct Late {
    left: u32,
    answer: u8,
}

impl Steps for Late {
    type Output = Result<u8, u8>;

    fn step(&mut self, cx: &mut Context<'_>) -> Poll<Result<u8, u8>> {
        if self.left > 0 {
            self.left -= 1;
            return cx.yield_now();
        }
        Poll::Ready(Ok(self.answer))
    }
}

// However often a poll is pending, the wait doesn't give up. The thread sleeps before it polls again what only woke itself: a
// millisecond but for the first six times, of which the first is at once.
#[test]
fn wait_outlasts_many_pending_polls(rt: HostRuntime) -> Result<(), Fail> {
    let checks = Checks::new(rt.alloc());
    let start = Instant::now(&rt)?;
    let mut service = Slow { left: MANY };
    checks.same(&block_on_ready::<_, _, u8>(&mut service, &rt)?, &Ok(()));
    checks.holds(start.elapsed(&rt)?.as_millis() >= 1_490);
    service.left = MANY;
    checks.same(&block_on_call(&mut service, &rt, 7)?, &Ok(7));
    let sum = Cell::new(0u8);
    service.left = MANY;
    let requests = vec![in rt.alloc(); 7u8, 8]?;
    block_on_each(&mut service, &rt, requests, |answer: Result<u8, u8>| {
        sum.set(sum.get().wrapping_add(answer.unwrap_or(0)));
    })?;
    checks.same(&sum.get(), &15);
    checks.verdict()
}
