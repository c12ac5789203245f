//! A latch that notes its steps.
ghost use Rattle.std.specs.Prelude.{◌≡◌};

use crate::log::Log;
use futures::task::Context;
use std::alloc::AllocError;
use std::cell::Cell;
use std::fmt::Debug;
use tower_latch::{Core, Latch, Token};

/// A latch over another. It notes its steps, shares and drop, and its shares may be refused.
pub struct Noting<'a, L: Drop> {
    log: &'a Log,
    shares: &'a Cell<u8>,
    inner: L,
}

impl<'a, L: Drop> Noting<'a, L> {
    /// The cell has how many shares there are before they are refused for want of memory; 255 is always.
    pub fn new(log: &'a Log, shares: &'a Cell<u8>, inner: L) -> Noting<'a, L>
        ensures { result.inner ≡ inner }
    {
        Noting { log, shares, inner }
    }
}

impl<'a, C: Core, L: Latch<C>> Latch<C> for Noting<'a, L>
where
    C::Step: Debug,
{
    ghost gave = { λ latch step reply. L.gave latch.inner step reply };

    ghost terms = { λ latch. L.terms latch.inner };

    ghost its = { λ latch token. L.its latch.inner token };

    ghost honest = { λ latch step reply given. L.honest latch.inner step reply given };

    fn step(&self, step: C::Step) -> C::Reply {
        self.log.note(format_args!("latch stepped {step:?}"));
        self.inner.step(step)
    }

    fn wait(&self, step: C::Step, cx: &mut Context<'_>) -> (C::Reply, Token) {
        self.log.note(format_args!("latch waited {step:?}"));
        self.inner.wait(step, cx)
    }

    fn give(&self, step: C::Step, token: Token) -> (C::Reply, Token) {
        self.log.note(format_args!("latch stepped {step:?}"));
        self.inner.give(step, token)
    }

    fn empty(&self) -> Token {
        self.inner.empty()
    }

    fn merge(&self, token: Token, other: Token) -> Token {
        self.inner.merge(token, other)
    }

    fn share(&self) -> Result<Noting<'a, L>, AllocError> {
        let shares = self.shares.get();
        if shares == 0 {
            self.log.note("latch refused");
            return Err(AllocError);
        }
        if shares < u8::MAX {
            self.shares.set(shares - 1);
        }
        let inner = self.inner.share()?;
        self.log.note("latch shared");
        Ok(Noting::new(self.log, self.shares, inner))
    }
}

impl<'a, L: Drop> Drop for Noting<'a, L> {
    fn drop(self) {
        self.log.note("latch dropped");
        let Noting {
            log: _,
            shares: _,
            inner,
        } = self;
        drop(inner);
    }
}
