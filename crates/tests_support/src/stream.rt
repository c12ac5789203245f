//! Requests that a test sends.
ghost use Rattle.std.specs.Prelude.{⊤};

use crate::log::Log;
use futures::stream::Stream;
use futures::task::{Context, Poll};
use std::cell::Cell;
use tower_base::service::Flow;

/// The test's side of a stream of requests.
#[derive(Drop)]
pub struct Outbox {
    sent: Cell<u8>,
    is_closed: Cell<bool>,
}

impl Outbox {
    /// So many requests were sent.
    pub fn new(sent: u8, is_closed: bool) -> Outbox {
        Outbox {
            sent: Cell::new(sent),
            is_closed: Cell::new(is_closed),
        }
    }

    /// So many requests were sent in all.
    pub fn send(&self, sent: u8) {
        self.sent.set(sent);
    }

    pub fn close(&self) {
        self.is_closed.set(true);
    }
}

/// The numbers from 0 on that were sent, as requests. A pending poll wakes its task. It notes its polls and drop.
pub struct Requests<'a> {
    log: &'a Log,
    outbox: &'a Outbox,
    next: u8,
}

impl<'a> Requests<'a> {
    pub fn new(log: &'a Log, outbox: &'a Outbox) -> Requests<'a> {
        Requests {
            log,
            outbox,
            next: 0,
        }
    }
}

impl<'a> Stream for Requests<'a> {
    type Item = u8;

    fn poll_next(&mut self, cx: &mut Context<'_>) -> Poll<Option<u8>> {
        self.flow(cx)
    }
}

impl<'a> Flow for Requests<'a> {
    ghost flowed = { λ _ _ _. ⊤ };

    fn flow(&mut self, cx: &mut Context<'_>) -> Poll<Option<u8>> {
        let number = self.next;
        if number < self.outbox.sent.get() {
            self.log.note(format_args!("requests gave {number}"));
            self.next = number + 1;
            return Poll::Ready(Some(number));
        }
        if self.outbox.is_closed.get() {
            self.log.note("requests ended");
            return Poll::Ready(None);
        }
        self.log.note("requests pending");
        self.log.pending(cx)
    }
}

impl<'a> Drop for Requests<'a> {
    fn drop(self) {
        self.log.note("requests dropped");
        let Requests {
            log: _,
            outbox: _,
            next: _,
        } = self;
    }
}
