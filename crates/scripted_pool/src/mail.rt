//! A latch over mail that notes the names of its steps, and whether mail is at its end.
ghost use Rattle.std.specs.Prelude.{◌≡◌};

use futures::task::Context;
use std::alloc::AllocError;
use std::cell::Cell;
use std::marker::PhantomData;
use tests_support::log::Log;
use tower_buffer::buffer::{MailCore, MailReply, MailStep};
use tower_latch::{Latch, Token};

/// How many shares of the latch there are, 255 for always, how many requests are left, and whether the next message that is answered is
/// forgotten just before, as if its response were dropped in the call.
#[derive(Drop)]
pub struct Counts {
    pub shares: Cell<u8>,
    pub left: Cell<u8>,
    pub forgets: Cell<bool>,
}

impl Counts {
    pub fn new() -> Counts {
        Counts {
            shares: Cell::new(u8::MAX),
            left: Cell::new(0),
            forgets: Cell::new(false),
        }
    }
}

/// A latch over another. Its shares may be refused.
#[derive(Drop)]
pub struct Named<'a, L> {
    log: &'a Log,
    counts: &'a Counts,
    inner: L,
}

impl<'a, L> Named<'a, L> {
    pub fn new(log: &'a Log, counts: &'a Counts, inner: L) -> Named<'a, L>
        ensures { result.inner ≡ inner }
    {
        Named { log, counts, inner }
    }

    fn note<Q, F, E>(&self, step: &MailStep<Q, F, E>) {
        let (name, id) = match step {
            MailStep::Join => ("Join", None),
            MailStep::Part => ("Part", None),
            MailStep::Reserve => ("Reserve", None),
            MailStep::Look(key) => ("Look", Some(*key)),
            MailStep::Cancel(key) => ("Cancel", Some(*key)),
            MailStep::Unreserve => ("Unreserve", None),
            MailStep::Send(_) => ("Send", None),
            MailStep::Take => ("Take", None),
            MailStep::Live(id) => ("Live", Some(*id)),
            MailStep::Answer(id, _) => ("Answer", Some(*id)),
            MailStep::Fail(id, _) => ("Fail", Some(*id)),
            MailStep::FailStored(id) => ("FailStored", Some(*id)),
            MailStep::Outcome(id) => ("Outcome", Some(*id)),
            MailStep::Forget(id) => ("Forget", Some(*id)),
            MailStep::WorkerGone => ("WorkerGone", None),
        };
        match id {
            Some(id) => self.log.note(format_args!("{name} {id}")),
            None => self.log.note(name),
        }
    }
}

impl<'a, Q: Drop, F: Drop, E: Clone, L> Latch<MailCore<Q, F, E>> for Named<'a, L>
where
    L: Latch<MailCore<Q, F, E>>,
{
    ghost gave = { λ latch step reply. L.gave latch.inner step reply };

    ghost terms = { λ latch. L.terms latch.inner };

    ghost its = { λ latch token. L.its latch.inner token };

    ghost honest = { λ latch step reply given. L.honest latch.inner step reply given };

    fn step(&self, step: MailStep<Q, F, E>) -> MailReply<Q, F, E> {
        if let MailStep::Answer(id, _) = &step
            && self.counts.forgets.replace(false)
        {
            let forget = MailStep::Forget(*id);
            self.note(&forget);
            self.inner.step(forget);
        }
        self.note(&step);
        self.inner.step(step)
    }

    fn wait(&self, step: MailStep<Q, F, E>, cx: &mut Context<'_>) -> (MailReply<Q, F, E>, Token) {
        self.note(&step);
        self.inner.wait(step, cx)
    }

    fn give(&self, step: MailStep<Q, F, E>, token: Token) -> (MailReply<Q, F, E>, Token) {
        self.note(&step);
        self.inner.give(step, token)
    }

    fn empty(&self) -> Token {
        self.inner.empty()
    }

    fn merge(&self, token: Token, other: Token) -> Token {
        self.inner.merge(token, other)
    }

    fn share(&self) -> Result<Named<'a, L>, AllocError> {
        let shares = self.counts.shares.get();
        if shares == 0 {
            self.log.note("no share");
            return Err(AllocError);
        }
        if shares < u8::MAX {
            self.counts.shares.set(shares - 1);
        }
        Ok(Named::new(self.log, self.counts, self.inner.share()?))
    }
}

/// What is known of mail from outside.
pub trait Mail {
    /// No handle is left, no place is taken and no message is there.
    fn is_at_its_end(&self) -> bool;
}

/// A share of mail that looks at it.
#[derive(Drop)]
pub struct Probe<Q, F, E, L> {
    latch: L,
    of: PhantomData<(Q, F, E)>,
}

impl<Q, F, E, L> Probe<Q, F, E, L> {
    pub fn new(latch: L) -> Probe<Q, F, E, L> {
        Probe {
            latch,
            of: PhantomData,
        }
    }
}

impl<Q: Drop, F: Drop, E: Clone, L: Latch<MailCore<Q, F, E>>> Mail for Probe<Q, F, E, L> {
    fn is_at_its_end(&self) -> bool {
        matches!(self.latch.step(MailStep::Take), MailReply::End)
    }
}
