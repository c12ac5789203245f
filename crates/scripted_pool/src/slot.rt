//! A latch over a slot that notes its steps.
ghost use Rattle.std.specs.Prelude.{◌≡◌};

use futures::task::Context;
use std::alloc::AllocError;
use std::cell::Cell;
use tests_support::log::Log;
use tower_latch::{Latch, Token};
use tower_pool::spawn_ready::{SlotCore, SlotReply, SlotStep};

/// How many shares of a latch there are before they are refused for want of memory, 255 for always, and whether the slot is aborted just before
/// a service is put there or looked for, as if its handle were dropped meanwhile.
#[derive(Drop)]
pub struct Hitches {
    pub shares: Cell<u8>,
    pub aborts: Cell<bool>,
}

impl Hitches {
    pub fn new() -> Hitches {
        Hitches {
            shares: Cell::new(u8::MAX),
            aborts: Cell::new(false),
        }
    }
}

/// A latch over another. It notes its steps, shares and drop, and its shares may be refused.
pub struct Told<'a, L: Drop> {
    log: &'a Log,
    hitches: &'a Hitches,
    inner: L,
}

impl<'a, L: Drop> Told<'a, L> {
    pub fn new(log: &'a Log, hitches: &'a Hitches, inner: L) -> Told<'a, L> {
        Told {
            log,
            hitches,
            inner,
        }
    }

    // Notes the step, and before it an abort that comes between.
    fn begins<S: Drop, E: Drop>(&self, step: &SlotStep<S, E>)
    where
        L: Latch<SlotCore<S, E>>,
    {
        if matches!(step, SlotStep::Put(_) | SlotStep::Look) && self.hitches.aborts.replace(false) {
            self.log.note("Abort");
            self.inner.step(SlotStep::Abort);
        }
        self.log.note(word(step));
    }
}

fn word<S, E>(step: &SlotStep<S, E>) -> &'static str {
    match step {
        SlotStep::Start => "Start",
        SlotStep::Put(_) => "Put",
        SlotStep::PutError(_) => "PutError",
        SlotStep::Abort => "Abort",
        SlotStep::TaskGone => "TaskGone",
        SlotStep::Aborted => "Aborted",
        SlotStep::Look => "Look",
    }
}

impl<'a, S: Drop, E: Drop, L: Latch<SlotCore<S, E>>> Latch<SlotCore<S, E>> for Told<'a, L> {
    ghost gave = { λ latch step reply. L.gave latch.inner step reply };

    ghost terms = { λ latch. L.terms latch.inner };

    ghost its = { λ latch token. L.its latch.inner token };

    ghost honest = { λ latch step reply given. L.honest latch.inner step reply given };

    fn step(&self, step: SlotStep<S, E>) -> SlotReply<S, E> {
        self.begins(&step);
        self.inner.step(step)
    }

    fn wait(&self, step: SlotStep<S, E>, cx: &mut Context<'_>) -> (SlotReply<S, E>, Token) {
        self.begins(&step);
        self.inner.wait(step, cx)
    }

    fn give(&self, step: SlotStep<S, E>, token: Token) -> (SlotReply<S, E>, Token) {
        self.begins(&step);
        self.inner.give(step, token)
    }

    fn empty(&self) -> Token {
        self.inner.empty()
    }

    fn merge(&self, token: Token, other: Token) -> Token {
        self.inner.merge(token, other)
    }

    fn share(&self) -> Result<Told<'a, L>, AllocError> {
        let shares = self.hitches.shares.get();
        if shares == 0 {
            self.log.note("share refused");
            return Err(AllocError);
        }
        if shares < u8::MAX {
            self.hitches.shares.set(shares - 1);
        }
        let inner = self.inner.share()?;
        self.log.note("latch shared");
        Ok(Told {
            log: self.log,
            hitches: self.hitches,
            inner,
        })
    }
}

impl<'a, L: Drop> Drop for Told<'a, L> {
    fn drop(self) {
        self.log.note("latch dropped");
        let Told {
            log: _,
            hitches: _,
            inner,
        } = self;
        drop(inner);
    }
}
