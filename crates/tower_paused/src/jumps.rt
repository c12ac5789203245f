//! How a paused loop moves its time.
ghost use Rattle.std.specs.Prelude.{◌≡◌, ◌<◌, ◌-◌, ◌^◌, ℕ, max, None, IsSome, IfOk, OnOk, OnErr, IsErr, IsSomeAnd};
ghost use Rattle.futures.specs.Task.{Keeps};
ghost use Rattle.futures.specs.Task.EventLoop.Settled.{IsFired};

use futures::executor::{Events, Rest};
use futures::spin::lock;
use futures::task::{Bell, Context, Keys};
use std::alloc::{AllocError, Global};
use std::io;
use std::sync::atomic::{AtomicU64, Ordering};
use std::sync::{Arc, Mutex, Wait};

/// No clock gets there.
pub const END_OF_TIME: u64 = u64::MAX;

/// What a loop and its clocks share.
#[derive(Drop)]
pub struct Shown {
    now: AtomicU64,
    pub keys: Keys,
    // The bells of the tasks that wait until no other can go on, oldest first.
    idle: Mutex<Vec<Bell>>,
}

impl Shown {
    pub fn new(alloc: Global, keys: Keys) -> Shown {
        Shown {
            now: AtomicU64::new(0),
            keys,
            idle: Mutex::new(Vec::new(alloc)),
        }
    }

    /// Returns the loop's moment.
    pub fn now(&self) -> u64 {
        self.now.load(Ordering::SeqCst)
    }

    /// Has the bell rung once no task can go on.
    pub(crate) fn ring_at_rest(&self, bell: Bell) -> Result<(), AllocError> {
        let mut idle = lock(&self.idle).ok_or(AllocError)?;
        idle.push(bell)?;
        Ok(())
    }

    fn take_idle(&self) -> Option<Bell> {
        let mut idle = lock(&self.idle)?;
        if idle.is_empty() {
            None
        } else {
            Some(idle.remove(0))
        }
    }
}

/// How the loop moves its time.
#[derive(Drop)]
pub struct Jumps {
    pub now: u64,
    pub shown: Arc<Shown>,
    // To be rung, since no task can go on.
    rings: Option<Bell>,
    /// The number of clocks at a deadlock, until it is told.
    pub deadlock: Option<usize>,
}

impl Jumps {
    pub fn new(shown: Arc<Shown>) -> Jumps
        ensures { (result.now ≡ 0) × (result.deadlock ≡ None) }
    {
        Jumps {
            now: 0,
            shown,
            rings: None,
            deadlock: None,
        }
    }

    // No task can go on. Has the oldest task polled that waits for that. If none does, moves the time to the
    // end of the rest. If that has none, it is a deadlock.
    fn go_on(&mut self, rest: &Rest<'_>) -> io::Result<()>
        ensures stands { IsSomeAnd self.new.rings (λ _. Unit {0}) → self.new.now ≡ self.old.now }
        ensures moved { self.new.rings ≡ None → OnOk result (IsSomeAnd rest.now.until
            (λ tick. (tick < 2 ^ 64 - 1) × (self.new.now ≡ max self.old.now tick))) }
        ensures stays { OnErr result ((self.new.now ≡ self.old.now) × IsSome self.new.deadlock) }
        ensures goes { OnOk result (self.new.deadlock ≡ self.old.deadlock) }
        ensures stuck { self.new.rings ≡ None → rest.now.until ≡ None → IsErr result }
    {
        self.rings = self.shown.take_idle();
        if self.rings.is_some() {
            return Ok(());
        }
        match rest.until() {
            Some(tick) if tick < END_OF_TIME => {
                self.now = self.now.max(tick);
                self.shown.now.store(self.now, Ordering::SeqCst);
                Ok(())
            }
            _ => {
                self.deadlock = Some(Arc::strong_count(&self.shown).saturating_sub(1));
                Err(io::Error::other("deadlock"))
            }
        }
    }
}

// A loop makes a `Rest` only if it owes no task a poll. So time moves only when all wait.
impl<W: Wait> Events<W> for Jumps {
    fn look(&mut self, _rt: &W) -> io::Result<()>
        ensures { self.new ≡ self.old }
    {
        Ok(())
    }

    fn wait(&mut self, _rt: &W, rest: &Rest<'_>) -> io::Result<()>
        ensures stands { IsSomeAnd self.new.rings (λ _. Unit {0}) → self.new.now ≡ self.old.now }
        ensures moved { self.new.rings ≡ None → OnOk result (IsSomeAnd rest.now.until
            (λ tick. (tick < 2 ^ 64 - 1) × (self.new.now ≡ max self.old.now tick))) }
        ensures stays { OnErr result ((self.new.now ≡ self.old.now) × IsSome self.new.deadlock) }
        ensures goes { OnOk result (self.new.deadlock ≡ self.old.deadlock) }
    {
        self.go_on(rest)
    }

    fn dispatch(&mut self, _rt: &W, cx: &mut Context<'_>) -> io::Result<u64>
        ensures rung { (s : ℕ) → ⊥ → IsFired cx.new s }
        ensures kept { Keeps cx.old cx.new }
        ensures same { self.new.now ≡ self.old.now }
        ensures now { IfOk result (λ tick. tick ≡ self.old.now) }
        ensures quiet { self.new.rings ≡ None }
    {
        if let Some(bell) = self.rings.take() {
            cx.ring(bell, false);
        }
        Ok(self.now)
    }
}
