//! Semaphores, their permits, and those who wait for permits.
ghost use Rattle.std.specs.Prelude.{◌≡◌, ◌<◌, ◌≤◌, ℕ, All, IfOk, IfErr, IfSome, None, Err, vec_len};
ghost use Rattle.tower_limit.specs.Concurrency.{SemaphoreView, PermitView, PollSemaphoreView, SharesPermits, IsOf, Acquired, StirsLine};
ghost use Rattle.tower_latch.specs.CoreTable.{places};
ghost use Rattle.tower_base.specs.Quiet.{Quiet};
ghost use Rattle.futures.specs.Task.{Hears, IsArmed, Keeps};
ghost use Rattle.futures.specs.Poll.{OnPending};

use crate::limit::concurrency::line_core::{LineCore, LineReply, LineStep};
use futures::task::{Context, Poll};
use std::alloc::{AllocError, Global};
use std::marker::Model;
use std::sync::Wait;
use tower_latch::held::{Fact, open};
use tower_latch::{Guarded, Latch, Token};

/// A share of a line of permits. The Rust has `tokio::sync::Semaphore` for it.
#[derive(Drop)]
pub struct Semaphore<L: Latch<LineCore>> {
    latch: L,
    max: usize,
}

impl<L: Latch<LineCore>> Model for Semaphore<L> {
    ghost Value = { SemaphoreView L };

    ghost view = { λ s. record { latch = s.latch; max = s.max } };
}

impl<R: Wait + Copy> Semaphore<Guarded<LineCore, R>> {
    /// Creates a semaphore of `max` permits, all free, behind a lock. Any number is allowed, including
    /// 0. Returns `AllocError` if allocation fails.
    pub fn new(rt: R, alloc: Global, max: usize) -> Result<Self, AllocError>
        ensures max { IfOk result (λ made. made.max ≡ max) }
        ensures terms { IfOk result
            (λ made. ⟦<Guarded<LineCore, R> as Latch<LineCore>>⟧.terms made.latch ≡ max) }
    {
        let core = LineCore::new(alloc, max);
        let latch = Guarded::new(rt, alloc, core)?;
        Ok(Semaphore { latch, max })
    }
}

impl<L: Latch<LineCore>> Semaphore<L> {
    /// Creates a semaphore of `max` permits over the caller's latch.
    pub fn with_latch(latch: L, max: usize) -> Semaphore<L>
        ensures { result ≡ record { latch = latch; max = max } }
    {
        Semaphore { latch, max }
    }

    /// Returns the `max` that it was created with.
    pub fn max(&self) -> usize
        ensures { result ≡ self.now.max }
    {
        self.max
    }

    /// Returns how many permits are free, by one step at the latch.
    pub fn available_permits(&self) -> usize
        ensures { L.gave self.now.latch LineStep.Free (LineReply.Count result) }
    {
        match self.latch.step(LineStep::Free) {
            LineReply::Count(free) => free,
            _ => unreachable!(),
        }
    }

    /// Gives back permits of this semaphore, of its shares, and of the limits over these. Returns how
    /// many they were, whoever has gathered them: never more than the latch has, which is `max` if
    /// `new` created it.
    pub fn release_all(&self, mut permits: Vec<Permit<L>>) -> usize
        requires { All (IsOf L.Latch self.now) permits.items }
        ensures count { result ≡ vec_len permits }
        ensures bound { result ≤ L.terms self.now.latch }
        ensures released { 0 < result → (reply : _) × L.gave self.now.latch LineStep.Release reply }
    {
        let count = permits.len();
        let mut token = self.latch.empty();
        while let Some(permit) = permits.pop() {
            token = self.latch.merge(token, permit.into_token());
        }
        for _ in 0..count {
            (_, token) = self.latch.give(LineStep::Release, token);
        }
        token.end();
        count
    }

    /// Returns another share of the same permits. Fails if the latch refuses its share.
    pub fn share(&self) -> Result<Semaphore<L>, AllocError>
        ensures shares { IfOk result (λ other. SharesPermits L.Latch self.now other) }
        ensures refused { IfErr result (λ e. L.shares self.now.latch (Err e)) }
    {
        let latch = self.latch.share()?;
        Ok(Semaphore {
            latch,
            max: self.max,
        })
    }
}

/// A permit, which is held until it is dropped.
pub struct Permit<L: Latch<LineCore>> {
    place: Placed<L>,
    ghost its: { ∥ L.its place.latch place.token ∥₁ },
    ghost one: { places place.token ≡ 1 },
}

// A share of the latch, and a token of it.
struct Placed<L: Latch<LineCore>> {
    latch: L,
    token: Token,
}

// The token is one of the latch's core.
struct IsOfLatch;

impl<L: Latch<LineCore>> Fact<Placed<L>> for IsOfLatch {
    ghost holds = { λ place. L.its place.latch place.token };
}

impl<L: Latch<LineCore>> Model for Permit<L> {
    ghost Value = { PermitView L };

    ghost view = { λ p. record { latch = p.place.latch } };
}

impl<L: Latch<LineCore>> Permit<L> {
    // Returns the token that shows that it is held.
    fn into_token(self) -> Token
        ensures its { L.its self.latch result }
        ensures one { places result ≡ 1 }
    {
        let Permit { place } = self;
        let Placed { latch: _, token } = open::<Placed<L>, IsOfLatch>(place);
        token
    }

    // Gives the permit back, as its drop does. Inlined, since a drop that is called through
    // `drop::<Option<Permit>>` is a function of its own in a large program.
    #[inline(always)]
    pub(crate) fn release(self)
        ensures { (reply : _) × L.gave self.latch LineStep.Release reply }
    {
        let Permit { place } = self;
        let Placed { latch, token } = open::<Placed<L>, IsOfLatch>(place);
        latch.give(LineStep::Release, token).1.end();
    }
}

/// Dropping a permit gives it back by one step at its latch.
impl<L: Latch<LineCore>> Drop for Permit<L> {
    #[inline(always)]
    fn drop(self)
        ensures { (reply : _) × L.gave self.latch LineStep.Release reply }
    {
        self.release();
    }
}

/// Acquires permits of a semaphore, one at a time: the Rust's `tokio_util::sync::PollSemaphore`.
pub struct PollSemaphore<L: Latch<LineCore>> {
    semaphore: Semaphore<L>,
    key: Option<u64>,
}

impl<L: Latch<LineCore>> Model for PollSemaphore<L> {
    ghost Value = { PollSemaphoreView L };

    ghost view = { λ p. record { semaphore = p.semaphore; key = p.key } };
}

impl<L: Latch<LineCore>> PollSemaphore<L> {
    /// Creates a `PollSemaphore` that has no place in the line yet.
    pub fn new(semaphore: Semaphore<L>) -> PollSemaphore<L>
        ensures { result ≡ record { semaphore = semaphore; key = None } }
    {
        PollSemaphore {
            semaphore,
            key: None,
        }
    }

    /// Returns another share of its semaphore. Fails if the latch refuses its share.
    pub fn share(&self) -> Result<Semaphore<L>, AllocError>
        ensures shares { IfOk result (λ other. SharesPermits L.Latch self.now.semaphore other) }
        ensures refused { IfErr result (λ e. L.shares self.now.semaphore.latch (Err e)) }
    {
        self.semaphore.share()
    }

    /// Acquires a permit, or takes a place in the line, which is kept until the permit is obtained.
    ///
    /// The permit's share of the latch is created before the step. Returns `AllocError` if allocation
    /// fails; a place in the line is kept then.
    #[inline(always)]
    pub fn poll_acquire(&mut self, cx: &mut Context<'_>) -> Poll<Result<Permit<L>, AllocError>>
        ensures acquired { Acquired L.Latch self.old result self.new }
        ensures armed { OnPending result (IsArmed cx.new) }
        ensures heard { OnPending result
            ((s : ℕ) → L.source self.new.semaphore.latch s → Hears cx.new s) }
        ensures quiet { Quiet (StirsLine L.Latch L.stirs self.new) cx.old cx.new }
        ensures kept { Keeps cx.old cx.new }
    {
        let Ok(latch) = self.semaphore.latch.share() else {
            return Poll::Ready(Err(AllocError));
        };
        let step = match self.key {
            None => LineStep::Join,
            Some(key) => LineStep::Look(key),
        };
        let (reply, token) = self.semaphore.latch.wait(step, cx);
        match reply {
            LineReply::Granted => {
                self.key = None;
                let place = Placed { latch, token };
                Poll::Ready(Ok(Permit { place }))
            }
            LineReply::Waiting(key) => {
                token.end();
                self.key = Some(key);
                Poll::Pending
            }
            LineReply::Memory => {
                token.end();
                Poll::Ready(Err(AllocError))
            }
            LineReply::Unknown => {
                token.end();
                cx.yield_now()
            }
            LineReply::Left | LineReply::Count(_) => unreachable!(),
        }
    }
}

/// Dropping one that still waits cancels its wait by one step at the latch.
impl<L: Latch<LineCore>> Drop for PollSemaphore<L> {
    fn drop(self)
        ensures { IfSome self.key
            (λ key. (reply : _) × L.gave self.semaphore.latch (LineStep.Cancel key) reply) }
    {
        if let Some(key) = self.key {
            self.semaphore.latch.step(LineStep::Cancel(key));
        }
        let PollSemaphore {
            semaphore: _,
            key: _,
        } = self;
    }
}
