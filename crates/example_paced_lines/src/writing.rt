//! A service that writes the lines that it is called with.
ghost use Rattle.std.specs.Prelude.{◌≡◌, ⊤, ◌≤◌, vec_len};

use futures::future::Future;
use futures::task::{Context, Poll};
use std::cell::RefCell;
use std::io::{ErrorKind, Write};
use tower::Service;
use tower::service::Steps;

/// The error of a writer that failed.
#[derive(Clone, Copy, Debug, PartialEq, Eq)]
pub struct CannotWrite;

/// A service that writes each request, a line, to its writer.
#[derive(Drop)]
pub struct Writing<'w, W> {
    pub out: &'w RefCell<W>,
}

/// A line that is being written.
#[derive(Drop)]
pub struct Line<'w, W> {
    out: &'w RefCell<W>,
    bytes: Vec<u8>,
    written: usize,
    ghost inside: { written ≤ vec_len bytes },
}

impl<'w, W: Write> Service<Vec<u8>> for Writing<'w, W> {
    type Response = ();

    type Error = CannotWrite;

    type Future = Line<'w, W>;

    ghost readies = { λ _ _ _. tt };

    fn poll_ready(&mut self, _cx: &mut Context<'_>) -> Poll<Result<(), CannotWrite>> {
        Poll::Ready(Ok(()))
    }

    fn call(&mut self, bytes: Vec<u8>) -> Line<'w, W> {
        Line {
            out: self.out,
            bytes,
            written: 0,
        }
    }
}

impl<W: Write> Future for Line<'_, W> {
    type Output = Result<(), CannotWrite>;

    ghost needs = { λ _ _. ⊤ };

    fn poll(&mut self, cx: &mut Context<'_>) -> Poll<Result<(), CannotWrite>> {
        self.step(cx)
    }
}

/// A poll writes once. It is pending if bytes are left, or if the writer would wait.
impl<W: Write> Steps for Line<'_, W> {
    type Output = Result<(), CannotWrite>;

    ghost needs = { λ _ _. ⊤ };

    fn step(&mut self, cx: &mut Context<'_>) -> Poll<Result<(), CannotWrite>> {
        let rest = &self.bytes[self.written..];
        if rest.is_empty() {
            return Poll::Ready(Ok(()));
        }
        let Ok(mut out) = self.out.try_borrow_mut() else {
            return cx.yield_now();
        };
        match out.write(rest) {
            Ok(0) => Poll::Ready(Err(CannotWrite)),
            Ok(count) => {
                self.written += count;
                if self.written == self.bytes.len() {
                    return Poll::Ready(Ok(()));
                }
                cx.yield_now()
            }
            Err(error) => match error.kind() {
                ErrorKind::Interrupted | ErrorKind::WouldBlock => cx.yield_now(),
                _ => Poll::Ready(Err(CannotWrite)),
            },
        }
    }
}
