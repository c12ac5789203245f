//! The streams that are served: one type, so that the stack is proved for one type of requests.
ghost use Rattle.std.specs.Prelude.{◌≡◌, ⊤};
ghost use Rattle.futures.specs.Poll.{IfReady, OnPending};
ghost use Rattle.futures.specs.Task.{IsArmed, Keeps};

use crate::pipe::Pipe;
use futures::task::{Context, Poll};
use std::io::{self, ErrorKind, Read, Write};
use tokio::io::{AsyncRead, AsyncWrite};

/// A connection.
#[derive(Drop)]
pub enum Stream<I, O> {
    /// Over a reader and a writer, such as standard input and output. Each poll blocks until it is done, unless
    /// a signal interrupts it.
    Standard(I, O),
    /// In memory.
    Pipe(Pipe),
}

impl<I, O> From<Pipe> for Stream<I, O> {
    fn from(pipe: Pipe) -> Stream<I, O> {
        Stream::Pipe(pipe)
    }
}

// The outcome of a call that may block. If a signal interrupted it, the next poll calls again.
fn done<T>(outcome: io::Result<T>, cx: &mut Context<'_>) -> Poll<io::Result<T>>
    ensures done { IfReady result (λ done. done ≡ outcome) }
    ensures armed { OnPending result (IsArmed cx.new) }
    ensures kept { Keeps cx.old cx.new }
{
    match outcome {
        Err(error) if error.kind() == ErrorKind::Interrupted => cx.yield_now(),
        outcome => Poll::Ready(outcome),
    }
}

impl<I: Read + Drop, O: Write + Drop> AsyncRead for Stream<I, O> {
    ghost reads = { λ _ _ _. ⊤ };

    ghost is_at_end = { λ _. ⊤ };

    ghost reads_nothing = { λ _. tt };

    ghost reads_in_order = { λ _ _ _ _ _ _ _. tt };

    fn poll_read(&mut self, cx: &mut Context<'_>, buf: &mut [u8]) -> Poll<io::Result<usize>> {
        match self {
            Stream::Standard(input, _) => done(input.read(buf), cx),
            Stream::Pipe(pipe) => pipe.poll_read(cx, buf),
        }
    }
}

impl<I: Read + Drop, O: Write + Drop> AsyncWrite for Stream<I, O> {
    ghost writes = { λ _ _ _. ⊤ };

    ghost writes_nothing = { λ _. tt };

    ghost writes_in_order = { λ _ _ _ _ _ _ _. tt };

    fn poll_write(&mut self, cx: &mut Context<'_>, buf: &[u8]) -> Poll<io::Result<usize>> {
        match self {
            Stream::Standard(_, output) => done(output.write(buf), cx),
            Stream::Pipe(pipe) => pipe.poll_write(cx, buf),
        }
    }

    fn poll_flush(&mut self, cx: &mut Context<'_>) -> Poll<io::Result<()>> {
        match self {
            Stream::Standard(_, output) => done(output.flush(), cx),
            Stream::Pipe(pipe) => pipe.poll_flush(cx),
        }
    }

    fn poll_shutdown(&mut self, cx: &mut Context<'_>) -> Poll<io::Result<()>> {
        match self {
            Stream::Standard(_, output) => done(output.flush(), cx),
            Stream::Pipe(pipe) => pipe.poll_shutdown(cx),
        }
    }
}
