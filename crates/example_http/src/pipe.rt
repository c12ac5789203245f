//! An end of a connection in memory, of which one read or write may fail.
ghost use Rattle.std.specs.Prelude.{⊤};

use futures::task::{Context, Poll};
use std::cell::Cell;
use std::io::{self, ErrorKind};
use std::rc::Rc;
use tokio::io::{AsyncRead, AsyncWrite, DuplexStream};

/// The reads and writes of all pipes until one fails. At 0 none does.
pub type Fault = Rc<Cell<u64>>;

/// One end of a connection in memory.
#[derive(Drop)]
pub struct Pipe {
    stream: DuplexStream,
    fault: Fault,
}

impl Pipe {
    pub fn new(stream: DuplexStream, fault: Fault) -> Pipe {
        Pipe { stream, fault }
    }

    // Counts a read or a write, which fails if its turn has come.
    fn count(&self) -> io::Result<()> {
        let left = self.fault.get();
        self.fault.set(left.saturating_sub(1));
        if left == 1 {
            return Err(ErrorKind::BrokenPipe.into());
        }
        Ok(())
    }
}

impl AsyncRead for Pipe {
    ghost reads = { λ _ _ _. ⊤ };

    ghost is_at_end = { λ _. ⊤ };

    ghost reads_nothing = { λ _. tt };

    ghost reads_in_order = { λ _ _ _ _ _ _ _. tt };

    fn poll_read(&mut self, cx: &mut Context<'_>, buf: &mut [u8]) -> Poll<io::Result<usize>> {
        match self.count() {
            Ok(()) => self.stream.poll_read(cx, buf),
            Err(error) => Poll::Ready(Err(error)),
        }
    }
}

impl AsyncWrite for Pipe {
    ghost writes = { λ _ _ _. ⊤ };

    ghost writes_nothing = { λ _. tt };

    ghost writes_in_order = { λ _ _ _ _ _ _ _. tt };

    fn poll_write(&mut self, cx: &mut Context<'_>, buf: &[u8]) -> Poll<io::Result<usize>> {
        match self.count() {
            Ok(()) => self.stream.poll_write(cx, buf),
            Err(error) => Poll::Ready(Err(error)),
        }
    }

    fn poll_flush(&mut self, cx: &mut Context<'_>) -> Poll<io::Result<()>> {
        self.stream.poll_flush(cx)
    }

    fn poll_shutdown(&mut self, cx: &mut Context<'_>) -> Poll<io::Result<()>> {
        self.stream.poll_shutdown(cx)
    }
}
