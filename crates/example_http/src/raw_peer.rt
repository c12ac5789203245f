//! The client's end of a connection in memory.
ghost use Rattle.futures.specs.Poll.{OnPending};
ghost use Rattle.futures.specs.Task.{IsArmed, Keeps};

use futures::future::Future;
use futures::ready;
use futures::task::{Context, Poll};
use std::alloc::Global;
use std::mem;
use tokio::io::{AsyncRead, AsyncWrite};

/// A future that writes a text, and reads until the other side has hung up. It returns all that it read.
#[derive(Drop)]
pub struct RawPeer<I> {
    alloc: Global,
    stream: I,
    // What is left of the text.
    due: &'static [u8],
    read: Vec<u8>,
}

impl<I> RawPeer<I> {
    pub fn new(alloc: Global, stream: I, text: &'static [u8]) -> RawPeer<I> {
        RawPeer {
            alloc,
            stream,
            due: text,
            read: Vec::new(alloc),
        }
    }
}

impl<I: AsyncRead + AsyncWrite> RawPeer<I> {
    // Writes once if some text is left, and else reads once. Returns whether the other side is still there, and
    // there was memory.
    fn talk(&mut self, cx: &mut Context<'_>) -> Poll<bool>
        ensures armed { OnPending result (IsArmed cx.new) }
        ensures kept { Keeps cx.old cx.new }
    {
        if !self.due.is_empty() {
            return match ready!(self.stream.poll_write(cx, self.due)) {
                Ok(0) | Err(_) => Poll::Ready(false),
                Ok(count) => {
                    self.due = &self.due[count..];
                    Poll::Ready(true)
                }
            };
        }
        let mut room = [0u8; 512];
        match ready!(self.stream.poll_read(cx, &mut room)) {
            Ok(0) | Err(_) => Poll::Ready(false),
            Ok(count) => Poll::Ready(self.read.extend_from_slice(&room[..count]).is_ok()),
        }
    }
}

impl<I: AsyncRead + AsyncWrite> Future for RawPeer<I> {
    type Output = Vec<u8>;

    fn poll(&mut self, cx: &mut Context<'_>) -> Poll<Vec<u8>> {
        for _ in 0..64 {
            if !ready!(self.talk(cx)) {
                return Poll::Ready(mem::replace(&mut self.read, Vec::new(self.alloc)));
            }
        }
        cx.yield_now()
    }
}
