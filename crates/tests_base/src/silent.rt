//! Parties of one's own with as few ghost lines as there can be, each used through its bound.
ghost use Rattle.tower_base.specs.Gives.{MayGive, IsStep};

use futures::executor::block_on;
use futures::future::{Future, Ready, ok};
use futures::task::{Context, Poll};
use std::test::Fail;
use tests_support::checks::Checks;
use tests_support::future::After;
use tests_support::log::Log;
use tests_support::run::{awaited, fire, task};
use tower_base::service::{Clock, Executor, Service, Sleep, Steps};

// Answers each request with its half. Of its answers nothing is known.
#[derive(Drop)]
struct Half;

impl Service<u8> for Half {
    type Response = u8;

    type Error = u8;

    type Future = Ready<Result<u8, u8>>;

    ghost readies = { λ _ _ _. tt };

    fn poll_ready(&mut self, _cx: &mut Context<'_>) -> Poll<Result<(), u8>> {
        Poll::Ready(Ok(()))
    }

    fn call(&mut self, request: u8) -> Ready<Result<u8, u8>> {
        ok(request / 2)
    }
}

#[test]
fn service_that_says_nothing_is_called(rt: HostRuntime) -> Result<(), Fail> {
    let solo = task(&rt)?;
    assert_eq!(rt; fire(&solo, Half, 9), Some(Ok(4)));
    Ok(())
}

// Goes on by one with each reading.
#[derive(Drop)]
struct Ticks {
    last: u64,
}

impl Clock for Ticks {
    ghost reading = { λ c. c.last };

    fn now(&mut self) -> u64 {
        self.last = self.last.saturating_add(1);
        self.last
    }

    fn share(&self) -> Ticks {
        Ticks { last: self.last }
    }

    // The task is polled again at once.
    fn wake_at(&mut self, _deadline: u128, cx: &mut Context<'_>) {
        let _pending: Poll<()> = cx.yield_now();
    }
}

#[test]
fn clock_that_says_only_its_reading_is_waited_for(rt: HostRuntime) -> Result<(), Fail> {
    let checks = Checks::new(rt.alloc());
    let solo = task(&rt)?;
    checks.same(&awaited(&solo, Sleep::new(Ticks { last: 0 }, 3)), &Some(()));
    checks.same(&awaited(&solo, Sleep::new(Ticks { last: 0 }, 300)), &None);
    checks.verdict()
}

// Takes no task.
#[derive(Drop)]
struct Refuses;

impl<T> Executor<T> for Refuses {
    fn spawn(&self, task: T) -> Result<(), T> {
        Err(task)
    }
}

fn handed<T, E: Executor<T>>(executor: &E, task: T) -> Result<(), T>
    requires { E.can_spawn executor.now task }
{
    executor.spawn(task)
}

#[test]
fn executor_that_says_nothing_gives_a_task_back(rt: HostRuntime) -> Result<(), Fail> {
    assert_eq!(rt; handed(&Refuses, 7u8), Err(7));
    Ok(())
}

// Counts the polls of a future. Its own polls are one step each, which `IsStep` says in one clause.
#[derive(Drop)]
struct Polls<F> {
    inner: F,
    polls: u64,
}

impl<F: Steps> Future for Polls<F> {
    type Output = F::Output;

    ghost can_poll = { λ f. F.can_poll f.inner };

    ghost gives = { MayGive (λ old answer new. F.stepped old.inner answer new.inner) };

    ghost needs = { λ f. F.needs f.inner };

    #[tactic(auto, using(tower_base::specs::GivesLemmas::one_step))]
    fn poll(&mut self, cx: &mut Context<'_>) -> Poll<F::Output>
        requires { F.can_poll self.old.inner }
        ensures { IsStep (λ old answer new. F.stepped old.inner answer new.inner) (λ f. F.can_poll f.inner) (λ f. F.needs f.inner) self.old result self.new cx.old cx.new }
    {
        self.step(cx)
    }
}

impl<F: Steps> Steps for Polls<F> {
    type Output = F::Output;

    ghost can_poll = { λ f. F.can_poll f.inner };

    ghost needs = { λ f. F.needs f.inner };

    ghost stepped = { λ old answer new. F.stepped old.inner answer new.inner };

    fn step(&mut self, cx: &mut Context<'_>) -> Poll<F::Output> {
        self.polls = self.polls.saturating_add(1);
        self.inner.step(cx)
    }
}

// Passes polls on, and says of its answers nothing at all.
#[derive(Drop)]
struct Quiet<F> {
    inner: F,
}

impl<F: Steps> Future for Quiet<F> {
    type Output = F::Output;

    ghost can_poll = { λ f. F.can_poll f.inner };

    ghost needs = { λ f. F.needs f.inner };

    fn poll(&mut self, cx: &mut Context<'_>) -> Poll<F::Output> {
        self.step(cx)
    }
}

impl<F: Steps> Steps for Quiet<F> {
    type Output = F::Output;

    ghost can_poll = { λ f. F.can_poll f.inner };

    ghost needs = { λ f. F.needs f.inner };

    fn step(&mut self, cx: &mut Context<'_>) -> Poll<F::Output> {
        self.inner.step(cx)
    }
}

#[test]
fn futures_of_ones_own_are_polled(rt: HostRuntime) -> Result<(), Fail> {
    let checks = Checks::new(rt.alloc());
    let log = Log::new(rt.alloc())?;
    let inner = Quiet {
        inner: After::new(&log, 'f', 2, 7),
    };
    let answer = block_on(&rt, Polls { inner, polls: 0 })?;
    checks.same(&answer, &7);
    checks.told(&log, "f pending;f pending;f ready;f dropped;");
    checks.verdict()
}
