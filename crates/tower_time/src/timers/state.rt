//! What timers and their tasks share under a lock.
ghost use Rattle.std.specs.Prelude.{◌≡◌, ◌≢◌, ℕ, ◌<◌, ◌≤◌, max, true, false, not, Some, None, IfOk, OnOk, OnErr, IfSome, IfNone, IsSome, MatchOption, unwrap_or};
ghost use Rattle.std.specs.Sync.Mutex.{mutex_guard_value};
ghost use Rattle.slab.specs.Slab.{get, slab_len};
ghost use Rattle.futures.specs.Task.{Covers, Keeps};
ghost use Rattle.futures.specs.Slot.{IsLeftIn};
ghost use Rattle.futures.specs.LinkedLists.Wheel.{deadline_of, key_limit, EachDeadline, SameDeadlines, Sets};
ghost use Rattle.tower_time.specs.Firing.{FiresOne, HasWork, Looks};

use crate::ticks::LAST_TICK;
use crate::timers::bell::Notice;
use futures::task::{Context, Poll, Source, Waker};
use futures::util::wheel::Wheel;
use slab::Slab;
use std::alloc::{AllocError, Global};
use std::sync::MutexGuard;

/// A timer that is armed, and has the waker of the task that waits. Only a wait makes one.
#[derive(Clone, Copy)]
pub struct Armed {
    tick: u64,
}

/// The timers are closed, and none was due. Only `State::next_turn` makes one.
pub struct Ended(());

impl Ended {
    pub fn end(self) {
        let Ended(()) = self;
    }
}

#[derive(Drop)]
pub struct State {
    wheel: Wheel,
    // The waker of each timer, under its key in the wheel.
    wakers: Slab<Option<Waker>>,
    // The tick of the thread's next turn, or the last tick.
    next: u64,
    // A thread fires the timers, or is about to begin.
    is_running: bool,
    is_closed: bool,
    ghost room: { (key : ℕ) → get wakers key ≢ None → key < key_limit wheel },
    ghost woken_when_fired: { (key : ℕ) (slot : _) → get wakers key ≡ Some slot
        → deadline_of wheel key ≡ None → slot ≡ None },
    ghost in_time: { EachDeadline wheel (λ when. next ≤ when) },
}

impl State {
    pub fn new(alloc: Global) -> Result<State, AllocError> {
        Ok(State {
            wheel: Wheel::new(alloc)?,
            wakers: Slab::new(alloc),
            next: LAST_TICK,
            is_running: false,
            is_closed: false,
        })
    }

    pub fn len(&self) -> usize
        ensures { result ≡ slab_len self.now.wakers }
    {
        self.wakers.len()
    }

    /// Has tasks wait from now on, since a thread is about to fire the timers. After `close` it does
    /// nothing.
    pub fn open(&mut self)
        ensures runs { self.new.is_running ≡ not self.old.is_closed }
        ensures wheel { self.new.wheel ≡ self.old.wheel }
    {
        self.is_running = !self.is_closed;
    }

    fn add(&mut self) -> Result<usize, AllocError>
        ensures added { IfOk result (λ key. get self.new.wakers key ≢ None) }
        ensures deadlines { SameDeadlines self.old.wheel self.new.wheel }
        ensures elapsed { self.new.wheel.elapsed ≡ self.old.wheel.elapsed }
        ensures next { self.new.next ≡ self.old.next }
    {
        self.wheel.reserve_key(self.wakers.vacant_key())?;
        let key = self.wakers.insert(None)?;
        Ok(key)
    }

    // Returns whether the timer is due before the thread's next turn, which is then at the timer's tick.
    fn arm(&mut self, key: usize, when: u64) -> bool
        requires { get self.old.wakers key ≢ None }
        ensures armed { Sets self.old.wheel self.new.wheel key (Some when) }
        ensures wakers { self.new.wakers ≡ self.old.wakers }
        ensures elapsed { self.new.wheel.elapsed ≡ self.old.wheel.elapsed }
        ensures unheard { result ≡ false → self.new.next ≡ self.old.next }
    {
        let is_earlier = when < self.next;
        if is_earlier {
            self.next = when;
        }
        self.wheel.insert(key, when);
        is_earlier
    }

    /// Leaves the task's waker at a timer that is due at `when`: at its own, which it makes if there is
    /// none. Returns a notice, which is due if the thread has to look earlier, and that the timer is armed.
    /// If there is no memory, no thread fires the timers or the tick has come, has the task polled again at
    /// once.
    pub fn wait(
        &mut self,
        key: &mut Option<usize>,
        when: u64,
        cx: &mut Context<'_>,
        source: &Source,
    ) -> (Notice, Option<Armed>)
        ensures unheard { result.0.is_due ≡ false → self.new.next ≡ self.old.next }
        ensures armed { MatchOption result.1 (cx.new.is_woken ≡ true) (λ armed. armed.tick ≡ when) }
        ensures registered { Covers cx.new (λ s. s ≡ source.now.id) }
        ensures kept { Keeps cx.old cx.new }
    {
        let place = match *key {
            Some(place) => place,
            None => {
                let Ok(place) = self.add() else {
                    let _pending: Poll<()> = cx.yield_now();
                    return (Notice::new(false), None);
                };
                *key = Some(place);
                place
            }
        };
        match self.wait_at(place, when, cx, source) {
            Some((is_earlier, armed)) => (Notice::new(is_earlier), Some(armed)),
            None => (Notice::new(false), None),
        }
    }

    // `None` if the task is polled again at once. Else also whether the thread has to look earlier.
    fn wait_at(
        &mut self,
        key: usize,
        when: u64,
        cx: &mut Context<'_>,
        source: &Source,
    ) -> Option<(bool, Armed)>
        ensures left { get self.old.wakers key ≢ None → self.old.is_running ≡ true
            → self.old.wheel.elapsed < when → IsSome result }
        ensures armed { IfSome result (λ it. (it.1.tick ≡ when)
            × (deadline_of self.new.wheel key ≡ Some when)
            × IsLeftIn cx.old cx.new (unwrap_or (get self.new.wakers key) None)) }
        ensures unheard { MatchOption result (self.new.next ≡ self.old.next)
            (λ it. it.0 ≡ false → self.new.next ≡ self.old.next) }
        ensures woken { IfNone result (cx.new.is_woken ≡ true) }
        ensures registered { Covers cx.new (λ s. s ≡ source.now.id) }
        ensures kept { Keeps cx.old cx.new }
    {
        if !self.is_running || when <= self.wheel.elapsed() || !self.wakers.contains(key) {
            let _pending: Poll<()> = cx.yield_now();
            return None;
        }
        let mut is_earlier = false;
        if self.wheel.deadline(key) != Some(when) {
            is_earlier = self.arm(key, when);
        }
        let _pending: Poll<()> = cx.register(source, &mut self.wakers[key]);
        Some((is_earlier, Armed { tick: when }))
    }

    /// Removes a timer, which then never fires. Returns the waker that it had.
    pub fn remove(&mut self, key: usize) -> Option<Waker>
        ensures waker { result ≡ unwrap_or (get self.old.wakers key) None }
        ensures disarmed { Sets self.old.wheel self.new.wheel key None }
        ensures removed { get self.new.wakers key ≡ None }
    {
        self.wheel.remove(key);
        self.wakers.try_remove(key)?
    }

    /// Fires one timer that is due at `now`, and returns the waker that it had. `None` if no timer is due.
    pub fn fire(&mut self, now: u64) -> Option<Option<Waker>>
        ensures fires { IfSome result (λ waker. FiresOne self.old.wheel self.new.wheel
            (λ key. waker ≡ unwrap_or (get self.old.wakers key) None)) }
        ensures none_due { IfNone result
            (EachDeadline self.new.wheel (λ when. self.new.wheel.elapsed < when)) }
        ensures reached { IfNone result (self.new.wheel.elapsed ≡ max self.old.wheel.elapsed now) }
        ensures kept { IfNone result (SameDeadlines self.old.wheel self.new.wheel) }
        ensures same { (self.new.is_closed ≡ self.old.is_closed)
            × (self.new.is_running ≡ self.old.is_running) }
    {
        let key = self.wheel.poll(now)?;
        match self.wakers.get_mut(key) {
            Some(slot) => Some(slot.take()),
            None => Some(None),
        }
    }

    /// Returns the tick of the thread's next turn, which isn't after any deadline, and at which there is
    /// work; or the end. No timer may be due.
    pub fn next_turn(&mut self) -> Result<u64, Ended>
        requires { EachDeadline self.old.wheel (λ when. self.old.wheel.elapsed < when) }
        ensures next { IfOk result (λ at. EachDeadline self.new.wheel (λ when. at ≤ when)) }
        ensures noted { IfOk result (λ at. at ≡ self.new.next) }
        ensures work { IfOk result (HasWork self.new.wheel) }
        ensures ends { OnErr result (self.old.is_closed ≡ true) }
        ensures goes_on { OnOk result (self.old.is_closed ≡ false) }
        ensures wheel { self.new.wheel ≡ self.old.wheel }
    {
        if self.is_closed {
            return Err(Ended(()));
        }
        self.next = self.wheel.poll_at().unwrap_or(LAST_TICK);
        Ok(self.next)
    }

    /// Has each task polled again at once from now on. Returns a notice that is due, since the thread has
    /// to end.
    pub fn close(&mut self) -> Notice
        ensures due { result.is_due ≡ true }
        ensures closed { (self.new.is_closed ≡ true) × (self.new.is_running ≡ false) }
        ensures wheel { self.new.wheel ≡ self.old.wheel }
    {
        self.is_running = false;
        self.is_closed = true;
        Notice::new(true)
    }
}

/// Takes the waker of a timer, which then never fires. The lock is free at the end.
pub fn removed(mut state: MutexGuard<'_, State>, key: usize) -> Option<Waker>
    ensures { result ≡ unwrap_or (get (mutex_guard_value state.entry).wakers key) None }
{
    state.remove(key)
}

/// Has the task wait, as `State::wait` does. The lock is free at the end, so the bell is rung without it.
pub fn waited(
    mut state: MutexGuard<'_, State>,
    key: &mut Option<usize>,
    when: u64,
    cx: &mut Context<'_>,
    source: &Source,
) -> (Notice, Option<Armed>)
    ensures armed { MatchOption result.1 (cx.new.is_woken ≡ true) (λ armed. armed.tick ≡ when) }
    ensures registered { Covers cx.new (λ s. s ≡ source.now.id) }
    ensures kept { Keeps cx.old cx.new }
{
    state.wait(key, when, cx, source)
}

/// Closes the timers. The lock is free at the end.
pub fn closed(mut state: MutexGuard<'_, State>) -> Notice
    ensures due { result.is_due ≡ true }
{
    state.close()
}

/// What one look at the timers found.
pub enum Look {
    /// A timer was due, and fired. Its task is to be woken by the waker that it had.
    Fired(Option<Waker>),
    /// No timer is due. The next turn is at this tick.
    Next(u64),
    /// No timer is due, and there is no next turn.
    Ended(Ended),
}

/// Fires one timer that is due at `now`. The lock is free at the end, so the task is woken without it.
pub fn looked(mut state: MutexGuard<'_, State>, now: u64) -> Look
    ensures { Looks (mutex_guard_value state.entry).wheel
        (get (mutex_guard_value state.entry).wakers) now result }
{
    if let Some(waker) = state.fire(now) {
        return Look::Fired(waker);
    }
    match state.next_turn() {
        Ok(tick) => Look::Next(tick),
        Err(ended) => Look::Ended(ended),
    }
}
