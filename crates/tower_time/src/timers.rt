//! Timers that a thread fires, and the clock whose tasks wait at them under any executor.
ghost use Rattle.std.specs.Prelude.{◌≡◌, true, option_map, MatchOption};
ghost use Rattle.futures.specs.Task.{Covers, Keeps};
ghost use Rattle.tower_base.specs.SystemClock.{Read};
ghost use Rattle.tower_time.specs.Clocks.{TimerHears, TimerView, TimerWakesBy};
ghost use Rattle.tower_time.specs.TimerSource.{armed_tick, shared_source};

mod bell;
mod doze;
mod state;

use crate::ticks::{LAST_TICK, tick_at, tick_from};
use bell::{Bell, Rings, Turned};
use futures::spin::lock;
use futures::task::{Context, Poll, Source};
use state::{Armed, Ended, Look, State, closed, looked, removed, waited};
use std::alloc::Global;
use std::marker::Model;
use std::sync::{Arc, Mutex, Wait};
use std::thread::{self, Threads};
use std::{io, rt};
use tower_base::service::{Clock, Monotonic, SystemClock};

#[derive(Drop)]
struct Shared {
    // Fires for a task once its timer is due.
    source: Source,
    state: Mutex<State>,
    // Rings if a timer is due before the next turn, and at the end.
    bell: Bell,
}

/// Timers on the machine's monotonic clock, for tasks of any executor. It takes the place of the timers
/// of tokio's runtime, or of the crate `futures-timer`.
///
/// They fire while a call of `beside` runs. Before it and after it, a task that waits for one of their
/// clocks is polled again at once, as with a `SystemClock`. The thread sleeps for 500 microseconds at
/// least, unless a new timer is due before its next turn, so a timer may fire so much later.
#[derive(Drop)]
pub struct Timers<R> {
    clock: SystemClock<R>,
    shared: Arc<Shared>,
}

impl<R: rt::Clock + Copy> Timers<R> {
    /// Creates timers. Reads the machine's clock once, and returns an error if that fails or there is no
    /// memory.
    pub fn new(rt: R, alloc: Global) -> io::Result<Timers<R>> {
        let shared = Shared {
            source: Source::new(),
            state: Mutex::new(State::new(alloc)?),
            bell: Bell::new(),
        };
        Ok(Timers {
            clock: SystemClock::new(rt)?,
            shared: Arc::new(alloc, shared)?,
        })
    }

    /// Returns a clock whose tasks wait at these timers. It doesn't allocate, and doesn't read the clock.
    pub fn clock(&self) -> TimerClock<R> {
        TimerClock {
            clock: self.clock.share(),
            shared: Arc::try_clone(&self.shared).ok(),
            key: None,
            armed: None,
        }
    }

    /// Returns how many timers there are: one for each clock that a task waited for and that wasn't dropped
    /// since.
    pub fn len(&self) -> usize {
        match lock(&self.shared.state) {
            Some(state) => state.len(),
            None => 0,
        }
    }

    /// Calls the closure while another thread, which sleeps until a timer is due, fires the timers.
    /// Returns what the closure returned once that thread has ended.
    ///
    /// Tasks wait from the beginning of the call on, so none is polled again before the thread has begun.
    /// If no thread can be made, tasks are polled again at once for the whole call, as in any second
    /// call, since the first has closed the timers. Tasks that still wait at the end are polled again then.
    pub fn beside<W, F, A>(&self, rt: &W, f: F) -> A
    where
        R: Sync,
        W: Threads + Wait + Sync,
        F: FnOnce() -> A,
        requires { F.pre f }
        ensures { F.post f result }
    {
        self.shared.open();
        thread::scope(
            thread::scope_env(),
            rt,
            |scope| -> A
                requires { F.pre f }
                ensures { F.post f result }
            {
                if scope.spawn(|| self.run(rt).end()).is_err() {
                    self.shared.close(rt).end();
                }
                let output = f();
                self.shared.close(rt).end();
                output
            },
        )
    }

    // Fires timers as they become due, until they are closed.
    fn run<W: Wait>(&self, rt: &W) -> Ended {
        let mut clock = self.clock.share();
        for _turn in rt.forever() {
            let rings = self.shared.bell.rings();
            match self.shared.turn_after(rt, rings, tick_at(clock.now())) {
                Ok(turned) => {
                    let _dozed = self.shared.bell.sleep(rt, turned, clock.now());
                }
                Err(ended) => return ended,
            }
        }
        unreachable!()
    }
}

impl Shared {
    fn open(&self) {
        if let Some(mut state) = lock(&self.state) {
            state.open();
        }
    }

    // Ends the thread, and has each task that waits polled again.
    fn close<W: Wait>(&self, rt: &W) -> Ended {
        for _ in rt.forever() {
            let end = closed(self.state.lock(rt));
            self.bell.ring_if_due(end);
            if let Err(ended) = self.turn(rt, LAST_TICK) {
                return ended;
            }
        }
        unreachable!()
    }

    // Fires each timer that is due at `now`, one after another, and wakes its task once the lock is free.
    // Returns the tick of the next turn once no timer is due.
    fn turn<W: Wait>(&self, rt: &W, now: u64) -> Result<u64, Ended> {
        for _look in rt.forever() {
            match looked(self.state.lock(rt), now) {
                Look::Fired(waker) => drop(waker),
                Look::Next(tick) => return Ok(tick),
                Look::Ended(ended) => return Err(ended),
            }
        }
        unreachable!()
    }

    // A turn of the thread, after a look at the bell.
    fn turn_after<W: Wait>(&self, rt: &W, rings: Rings, now: u64) -> Result<Turned, Ended> {
        match self.turn(rt, now) {
            Ok(tick) => Ok(rings.next_turn(tick)),
            Err(ended) => {
                rings.end(&ended);
                Err(ended)
            }
        }
    }

    // `None` if the task is polled again at once.
    fn wait_until(&self, key: &mut Option<usize>, when: u64, cx: &mut Context<'_>) -> Option<Armed>
        ensures armed { MatchOption result (cx.new.is_woken ≡ true) (λ armed. armed.tick ≡ when) }
        ensures registered { Covers cx.new (λ s. s ≡ self.now.source.id) }
        ensures kept { Keeps cx.old cx.new }
    {
        let Some(state) = lock(&self.state) else {
            let _pending: Poll<()> = cx.yield_now();
            return None;
        };
        let (notice, armed) = waited(state, key, when, cx, &self.source);
        self.bell.ring_if_due(notice);
        armed
    }

    fn leave(&self, key: usize) {
        if let Some(state) = lock(&self.state) {
            drop(removed(state, key));
        }
    }
}

/// The machine's monotonic clock, as `SystemClock`, whose tasks wait at timers. A reading is the number of
/// nanoseconds since the timers were created.
///
/// A task that waits is polled again once the machine's clock has reached the first whole microsecond that
/// isn't before its deadline. If there is no memory, or no thread fires the timers, it is polled again at
/// once. So a task never hangs, and is never polled too late for want of memory; it is only busy meanwhile.
/// Each share has a timer of its own, which is made at its first wait and removed when it is dropped.
pub struct TimerClock<R> {
    clock: SystemClock<R>,
    shared: Option<Arc<Shared>>,
    key: Option<usize>,
    // The timer that the last wait armed.
    armed: Option<Armed>,
}

impl<R> Model for TimerClock<R> {
    ghost Value = { TimerView R };

    // The view leaves out `key`: it only finds the timer, and `armed` tells what that waits for.
    ghost view = { λ c. record {
      clock = c.clock;
      source = option_map shared_source c.shared;
      armed = option_map armed_tick c.armed;
    } };
}

impl<R: Drop> Drop for TimerClock<R> {
    fn drop(self) {
        let Self {
            clock: _,
            shared,
            key,
            armed: _,
        } = self;
        if let Some(shared) = shared
            && let Some(key) = key
        {
            shared.leave(key);
        }
    }
}

// It isn't known when `wake_at` asks for another poll, since the kit's `register` doesn't bound that.
impl<R: rt::Clock + Copy> Clock for TimerClock<R> {
    ghost reading = { λ c. c.clock.last };

    ghost read = { λ old new. Read old.clock new.clock };

    ghost shared = { λ c other. other.clock ≡ c.clock };

    ghost hears = { TimerHears };

    ghost wakes_by = { TimerWakesBy };

    fn now(&mut self) -> u64 {
        self.clock.now()
    }

    fn share(&self) -> TimerClock<R> {
        let shared = match &self.shared {
            Some(shared) => Arc::try_clone(shared).ok(),
            None => None,
        };
        TimerClock {
            clock: self.clock.share(),
            shared,
            key: None,
            armed: None,
        }
    }

    fn wake_at(&mut self, deadline: u128, cx: &mut Context<'_>) {
        self.armed = match &self.shared {
            Some(shared) => shared.wait_until(&mut self.key, tick_from(deadline), cx),
            None => {
                let _pending: Poll<()> = cx.yield_now();
                None
            }
        };
    }
}

impl<R: rt::Clock + Copy> Monotonic for TimerClock<R> {
    ghost forward = { λ old new read. read.0 };
}
