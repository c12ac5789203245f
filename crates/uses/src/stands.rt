//! Where the task of a pending stack stands: a rate limit, a timeout, a filter, a concurrency limit and a
//! custom layer, whose clocks are those of one event loop.
ghost use Rattle.std.specs.Prelude.{ℕ, ◌≡◌, ◌⊎◌, true};
ghost use Rattle.futures.specs.Poll.{OnPending};
ghost use Rattle.futures.specs.Task.{Covers, Hears, IsArmed};
ghost use Rattle.tower_limit.specs.Concurrency.{Needs as PermitNeeds};
ghost use Rattle.tower_limit.specs.Rate.{Needs as RateNeeds, WokenInTime};
ghost use Rattle.tower_time.specs.Clocks.{Hears as ClockHears, WakesBy};
ghost use Rattle.tower_ware.specs.Timeout.{Needs as ResponseNeeds};

use crate::counted::Counted;
use crate::server::Server;
use crate::tell;
use crate::within_rate::Even;
use futures::task::{Context, Poll};
use std::alloc::AllocGlobal;
use std::fmt::Display;
use std::random::RandomSource;
use std::sync::Wait;
use std::{io, rt};
use tower::Service;
use tower::filter::{self, Filter, Predicate};
use tower::latch::Latch;
use tower::limit::concurrency::{self, ConcurrencyLimit, LineCore, Semaphore};
use tower::limit::rate::{Rate, RateLimit};
use tower::service::{Clock, Steps};
use tower::timeout::{self, Timeout, future};
use tower::util::{Oneshot, Ready};
use tower_time::{ClockLoop, LoopClock};

type Inner<S, L, U> = Filter<ConcurrencyLimit<Counted<S>, L>, U>;

type Five<S, L, U, R> = RateLimit<Timeout<Inner<S, L, U>, LoopClock<R>>, LoopClock<R>>;

type Failure<E, P> = timeout::Error<filter::Error<concurrency::Error<E>, P>>;

/// Polls the five once. If they are pending, their task stands at the clock's source if the rate is what
/// they wait for, at the sources of the semaphore's latch if they hold no permit, and else where the server's
/// does. If the rate isn't kept at this moment, the loop's wheel has the moment at which it is.
pub fn ask_five<S, L, U, R, T>(
    five: &mut Five<S, L, U, R>,
    cx: &mut Context<'_>,
) -> Poll<Result<(), Failure<S::Error, U::Error>>>
where
    S: Service<u32>,
    L: Latch<LineCore>,
    U: Predicate<T, Request = u32>,
    R: rt::Clock + Copy,
    requires server { S.sound five.old.inner.inner.inner.inner }
    requires predicate { U.sound five.old.inner.inner.predicate }
    ensures stands { OnPending result (Covers cx.new (RateNeeds (λ timed. PermitNeeds S.needs L.source timed.inner.inner) ClockHears five.new)) }
    ensures in_time { WokenInTime ⟦<LoopClock<R> as Clock>⟧ five.old five.new cx.new }
{
    Service::<T>::poll_ready(five, cx)
}

/// Polls a response of the five once. If it is pending, its task stands where the server's response does and
/// at the clock's source, and the loop's wheel has the deadline.
pub fn await_five<F, L, P, R, A, E>(
    response: &mut future::ResponseFuture<
        filter::future::ResponseFuture<concurrency::future::ResponseFuture<F, L>, P>,
        LoopClock<R>,
    >,
    cx: &mut Context<'_>,
) -> Poll<Result<A, Failure<E, P>>>
where
    F: Steps<Output = Result<A, E>>,
    L: Latch<LineCore>,
    P: Drop,
    R: rt::Clock + Copy,
    requires { ⟦<filter::future::ResponseFuture<concurrency::future::ResponseFuture<F, L>, P> as Steps>⟧.can_poll response.old.response }
    ensures stands { OnPending result (Covers cx.new (ResponseNeeds ⟦<filter::future::ResponseFuture<concurrency::future::ResponseFuture<F, L>, P> as Steps>⟧.needs ClockHears response.new)) }
    ensures in_time { OnPending result ((cx.new.is_woken ≡ true) ⊎ WakesBy response.new.clock response.new.deadline cx.new) }
{
    response.step(cx)
}

/// Makes two calls of the five in a loop. The second one waits for the rate, and the thread sleeps meanwhile.
pub fn wait_for_the_rate<R>(rt: R) -> io::Result<()>
where
    R: Wait + RandomSource + AllocGlobal + Print + rt::Clock + Copy,
{
    let mut tasks = ClockLoop::new(rt, &rt)?;
    let semaphore = Semaphore::new(rt, rt.alloc(), 3)?;
    let limited = ConcurrencyLimit::with_semaphore(Counted::new(Server(1)), semaphore);
    let inner = Timeout::new(Filter::new(limited, Even), 1_000_000_000, tasks.clock());
    let five = RateLimit::new(rt.alloc(), inner, Rate::new(1, 2_000_000), tasks.clock())?;
    call_twice(rt, &mut tasks, five)
}

// Makes a call whose response is dropped, and then one that is answered.
fn call_twice<R, S>(rt: R, tasks: &mut ClockLoop<R>, mut service: S) -> io::Result<()>
where
    R: Wait + RandomSource + AllocGlobal + Print + rt::Clock + Copy,
    S: Service<u32, Response: Display + Drop, Error: Display + Drop>,
    requires { S.sound service }
{
    match tasks.block_on(&rt, Ready::<_, u32>::new(&mut service))? {
        Ok(ready) => drop(ready.call(2)),
        Err(error) => return tell(rt, "stands", Err::<S::Response, S::Error>(error)),
    }
    tell(rt, "stands", tasks.block_on(&rt, Oneshot::new(service, 4))?)
}
