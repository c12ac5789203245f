//! A latch of mail that counts what becomes of its places.

use futures::task::Context;
use std::alloc::{AllocError, Global};
use std::sync::Arc;
use std::sync::atomic::{AtomicU64, Ordering};
use tower_buffer::buffer::{MailCore, MailReply, MailStep};
use tower_latch::{Latch, Token};

/// How many places were given, and how many of them were sent into or given back.
#[derive(Drop)]
pub struct Places {
    given: AtomicU64,
    sent: AtomicU64,
    given_back: AtomicU64,
}

impl Places {
    pub fn new() -> Places {
        Places {
            given: AtomicU64::new(0),
            sent: AtomicU64::new(0),
            given_back: AtomicU64::new(0),
        }
    }

    /// The three numbers.
    pub fn all(&self) -> [u64; 3] {
        [
            self.given.load(Ordering::SeqCst),
            self.sent.load(Ordering::SeqCst),
            self.given_back.load(Ordering::SeqCst),
        ]
    }

    fn asked<Q, F, E>(&self, step: &MailStep<Q, F, E>) {
        match step {
            MailStep::Send(_) => {
                self.sent.fetch_add(1, Ordering::SeqCst);
            }
            MailStep::Unreserve => {
                self.given_back.fetch_add(1, Ordering::SeqCst);
            }
            _ => {}
        }
    }

    fn told<Q, F, E>(&self, reply: &MailReply<Q, F, E>) {
        if let MailReply::Place = reply {
            self.given.fetch_add(1, Ordering::SeqCst);
        }
    }
}

/// A share of the latch.
#[derive(Drop)]
pub struct Counted<L> {
    places: Arc<Places, Global>,
    inner: L,
}

impl<L> Counted<L> {
    pub fn new(places: Arc<Places, Global>, inner: L) -> Counted<L> {
        Counted { places, inner }
    }
}

impl<Q: Drop, F: Drop, E: Clone, L: Latch<MailCore<Q, F, E>>> Latch<MailCore<Q, F, E>>
    for Counted<L> {
    ghost gave = { λ latch step reply. L.gave latch.inner step reply };

    ghost terms = { λ latch. L.terms latch.inner };

    ghost its = { λ latch token. L.its latch.inner token };

    ghost honest = { λ latch step reply given. L.honest latch.inner step reply given };

    fn step(&self, step: MailStep<Q, F, E>) -> MailReply<Q, F, E> {
        self.places.asked(&step);
        self.inner.step(step)
    }

    fn wait(&self, step: MailStep<Q, F, E>, cx: &mut Context<'_>) -> (MailReply<Q, F, E>, Token) {
        let (reply, token) = self.inner.wait(step, cx);
        self.places.told(&reply);
        (reply, token)
    }

    fn give(&self, step: MailStep<Q, F, E>, token: Token) -> (MailReply<Q, F, E>, Token) {
        self.places.asked(&step);
        self.inner.give(step, token)
    }

    fn empty(&self) -> Token {
        self.inner.empty()
    }

    fn merge(&self, token: Token, other: Token) -> Token {
        self.inner.merge(token, other)
    }

    fn share(&self) -> Result<Counted<L>, AllocError> {
        Ok(Counted {
            places: Arc::try_clone(&self.places)?,
            inner: self.inner.share()?,
        })
    }
}
