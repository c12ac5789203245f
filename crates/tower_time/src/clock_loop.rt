//! An event loop whose tasks wait for the machine's clock, and that clock.
ghost use Rattle.std.specs.Prelude.{◌≡◌, ◌⊎◌, ◌+◌, ◌*◌, ◌<◌, ◌≤◌, ℕ, true, option_map, IfOk, OnOk, IsSomeAnd};
ghost use Rattle.futures.specs.Runs.{AllItems};
ghost use Rattle.futures.specs.Task.{Covers, IsLent, Keeps};
ghost use Rattle.futures.specs.Task.EventLoop.Names.{key_source};
ghost use Rattle.futures.specs.Task.EventLoop.Settled.{IsFired, WaitsUntil};
ghost use Rattle.tower_base.specs.SystemClock.{Read};
ghost use Rattle.tower_time.specs.Clocks.{ClockView, Hears, WakesBy, nap};

use crate::ticks::{Slept, nanos_until, tick_at, tick_from};
use futures::executor::{EventLoop, Events, Rest, TaskSet};
use futures::future::Future;
use futures::stream::Stream;
use futures::task::{Context, Doorbell, Key, Keys, Poll};
use std::alloc::AllocGlobal;
use std::marker::Model;
use std::random::RandomSource;
use std::sync::Wait;
use std::{io, rt};
use tower_base::service::{Clock, Monotonic, SystemClock};
use tower_spawn::Spawner;

// The longest sleep in nanoseconds. A wake by another thread doesn't end it, and may be seen so late.
const LONGEST: u64 = 1_000_000;

/// An event loop on the calling thread. A task that waits for one of its clocks is polled again once its
/// deadline has come, and meanwhile the thread sleeps.
///
/// It needs no second thread. In return, a wake by another thread may be seen 1 millisecond late, since the
/// loop sleeps so long at most.
#[derive(Drop)]
pub struct ClockLoop<R> {
    event_loop: EventLoop,
    naps: Naps<R>,
}

// How the loop sleeps.
#[derive(Drop)]
struct Naps<R> {
    rt: R,
    clock: SystemClock<R>,
    // The last sleep.
    slept: Slept,
}

impl<R: rt::Clock + Copy> ClockLoop<R> {
    /// Creates a loop. Reads the machine's clock once, and returns an
    /// error if that fails, or if there is no memory or no random number.
    pub fn new<A: RandomSource + AllocGlobal>(rt: R, alloc: &A) -> io::Result<ClockLoop<R>> {
        Ok(ClockLoop {
            event_loop: EventLoop::new(alloc, Doorbell::spinning())?,
            naps: Naps {
                rt,
                clock: SystemClock::new(rt)?,
                slept: Slept::not_yet(),
            },
        })
    }

    /// Returns a clock of the loop. It doesn't allocate, and doesn't read the clock.
    pub fn clock(&self) -> LoopClock<R> {
        LoopClock {
            clock: self.naps.clock.share(),
            keys: self.event_loop.keys().clone().ok(),
            key: None,
        }
    }

    /// Polls the future until it is ready, and returns its output. Returns an error if there is no memory.
    pub fn block_on<W, B>(&mut self, rt: &W, future: B) -> io::Result<B::Output>
    where
        W: Wait + AllocGlobal,
        B: Future,
        requires { B.can_poll future }
        ensures { IfOk result (B.gives future) }
    {
        self.event_loop.block_on(rt, &mut self.naps, future)
    }

    /// As `block_on`, and polls the tasks of the spawner too, until no task is left. The thread sleeps while
    /// all of them wait. Returns an error, too, if another run has the tasks of the spawner.
    pub fn run_with<W, F, B>(
        &mut self,
        rt: &W,
        future: B,
        spawner: &Spawner<F>,
    ) -> io::Result<B::Output>
    where
        W: Wait + AllocGlobal,
        F: Future<Output = ()>,
        B: Future<Output: Drop>,
        requires { B.can_poll future }
        ensures { IfOk result (B.gives future) }
    {
        match spawner.beside(rt.alloc(), future) {
            Ok(both) => self.event_loop.block_on(rt, &mut self.naps, both),
            Err(error) => Err(error.into()),
        }
    }

    /// As `block_on`, and polls what is spawned into the set too, until no task is left. Returns an error,
    /// too, if the set is shut down while the future is pending. No other thread may work at the set meanwhile.
    ///
    /// It keeps a processor busy while its tasks wait, since another thread may spawn into the set, and only a
    /// set with a doorbell of its own kind (the kit's `Doorbell::with_driver`) wakes a thread that sleeps in
    /// this loop. `run_with` sleeps.
    pub fn block_on_with<W, F, B>(
        &mut self,
        rt: &W,
        tasks: &TaskSet<F>,
        future: B,
    ) -> io::Result<B::Output>
    where
        W: Wait + AllocGlobal,
        F: Future<Output = ()>,
        B: Future<Output: Drop>,
        requires { B.can_poll future }
        ensures { IfOk result (B.gives future) }
    {
        self.event_loop
            .block_on_with(rt, &mut self.naps, tasks, future, None)
    }

    /// Polls each future that the stream yields as a task, until no task is left. Returns an error if
    /// there is no memory.
    pub fn run_all<W, S, F>(&mut self, rt: &W, futures: S) -> io::Result<()>
    where
        W: Wait + AllocGlobal,
        S: Stream<Item = F>,
        F: Future<Output = ()>,
        requires stream { S.can_poll futures }
        requires items { AllItems (S.yields futures) F.can_poll }
    {
        self.event_loop.run_all(rt, &mut self.naps, futures, None)
    }
}

impl<W: Wait, R: rt::Clock + Copy> Events<W> for Naps<R> {
    fn look(&mut self, _rt: &W) -> io::Result<()> {
        Ok(())
    }

    fn wait(&mut self, _rt: &W, rest: &Rest<'_>) -> io::Result<()>
        ensures slept { OnOk result
            (self.new.slept.nanos ≡ nap rest.now.until self.new.clock.last) }
        ensures read { Read self.old.clock self.new.clock }
    {
        let moment = self.clock.now();
        let left = match rest.until() {
            Some(tick) => nanos_until(tick, moment, LONGEST),
            None => LONGEST,
        };
        self.slept = Slept::sleep(&self.rt, left);
        Ok(())
    }

    fn dispatch(&mut self, _rt: &W, _cx: &mut Context<'_>) -> io::Result<u64>
        ensures rung { (s : ℕ) → ⊥ → IsFired _cx.new s }
        ensures kept { Keeps _cx.old _cx.new }
        ensures now { IfOk result (λ tick. (tick * 1000 ≤ self.new.clock.last)
            × (self.new.clock.last < tick * 1000 + 1000)) }
        ensures read { Read self.old.clock self.new.clock }
    {
        Ok(tick_at(self.clock.now()))
    }
}

/// The machine's monotonic clock, as `SystemClock`, whose tasks wait in a `ClockLoop`. A reading is the
/// number of nanoseconds since the loop was created.
///
/// A task of the loop is polled again once the machine's clock has reached the first whole microsecond
/// that isn't before its deadline. Under another executor, or if there is no memory, a task that waits for
/// it is polled again at once. A task that is nested in a task of the loop, as in a `FuturesUnordered`, waits
/// in the loop too.
#[derive(Drop)]
pub struct LoopClock<R> {
    clock: SystemClock<R>,
    keys: Option<Keys>,
    key: Option<Key>,
}

impl<R> Model for LoopClock<R> {
    ghost Value = { ClockView R };

    // The view leaves out `keys`: it never changes, and only issues `key` at the first wait.
    ghost view = { λ c. record { clock = c.clock; source = option_map key_source c.key } };
}

impl<R> LoopClock<R> {
    // The task waits at the clock's source until the tick, or asks to be polled again.
    fn wait_until(&mut self, when: u64, cx: &mut Context<'_>)
        ensures registered { Covers cx.new (Hears self.new) }
        ensures timed { (cx.new.is_woken ≡ true) ⊎ (IsLent cx.new
            ⊎ IsSomeAnd self.new.source (λ source. WaitsUntil cx.new source when)) }
        ensures kept { Keeps cx.old cx.new }
        ensures same { self.new.clock ≡ self.old.clock }
    {
        if self.key.is_none()
            && let Some(keys) = &self.keys
        {
            self.key = keys.issue().ok();
        }
        let Some(key) = &self.key else {
            let _pending: Poll<()> = cx.yield_now();
            return;
        };
        if let Poll::Ready(_) = cx.poll_at(key, when) {
            let _pending: Poll<()> = cx.yield_now();
        }
    }
}

// It isn't known when `wake_at` asks for another poll, since the kit's `poll_at` doesn't bound that.
impl<R: rt::Clock + Copy> Clock for LoopClock<R> {
    ghost reading = { λ c. c.clock.last };

    ghost read = { λ old new. Read old.clock new.clock };

    ghost shared = { λ c other. other.clock ≡ c.clock };

    ghost hears = { Hears };

    ghost wakes_by = { WakesBy };

    fn now(&mut self) -> u64 {
        self.clock.now()
    }

    fn share(&self) -> LoopClock<R> {
        let keys = match &self.keys {
            Some(keys) => keys.clone().ok(),
            None => None,
        };
        LoopClock {
            clock: self.clock.share(),
            keys,
            key: None,
        }
    }

    fn wake_at(&mut self, deadline: u128, cx: &mut Context<'_>) {
        self.wait_until(tick_from(deadline), cx);
    }
}

impl<R: rt::Clock + Copy> Monotonic for LoopClock<R> {
    ghost forward = { λ old new read. read.0 };
}
