//! A service, its callers' responses, and tasks that count their polls.
ghost use Rattle.std.specs.Prelude.{◌≡◌};

use futures::future::Future;
use futures::task::{Context, Poll};
use std::cell::Cell;
use std::marker::Model;
use tower_base::service::{Service, Steps};

/// The service's error, which it never returns.
#[derive(Clone, Copy, Debug)]
pub struct Lost;

/// A response, which is pending once if it isn't due.
#[derive(Drop)]
pub struct Once {
    is_due: bool,
    number: u64,
}

impl Steps for Once {
    type Output = Result<u64, Lost>;

    fn step(&mut self, cx: &mut Context<'_>) -> Poll<Self::Output> {
        if self.is_due {
            return Poll::Ready(Ok(self.number));
        }
        self.is_due = true;
        cx.yield_now()
    }
}

/// A service that returns each request, at once or at the second poll. It is always ready.
#[derive(Clone, Copy)]
pub struct Echo {
    is_due: bool,
}

/// Returns responses that are ready at the first poll.
pub const PROMPT: Echo = Echo { is_due: true };

/// Returns responses that are pending once.
pub const LATE: Echo = Echo { is_due: false };

impl Service<u64> for Echo {
    type Response = u64;

    type Error = Lost;

    type Future = Once;

    ghost readies = { λ _ _ _. tt };

    fn poll_ready(&mut self, _cx: &mut Context<'_>) -> Poll<Result<(), Lost>> {
        Poll::Ready(Ok(()))
    }

    fn call(&mut self, number: u64) -> Once {
        Once {
            is_due: self.is_due,
            number,
        }
    }
}

/// A service that counts the answers of another.
#[derive(Drop)]
pub struct Answered<'a, S> {
    inner: S,
    answers: &'a Cell<u64>,
    waits: bool,
}

impl<'a, S> Answered<'a, S> {
    /// Counts the answers. Unless the caller `waits`, it drops a response that is pending in the poll of
    /// its call.
    pub fn new(inner: S, answers: &'a Cell<u64>, waits: bool) -> Answered<'a, S>
        ensures { result ≡ inner }
    {
        Answered {
            inner,
            answers,
            waits,
        }
    }
}

impl<'a, S> Model for Answered<'a, S> {
    ghost Value = { S };

    ghost view = { λ a. a.inner };
}

impl<'a, S: Service<u64>> Service<u64> for Answered<'a, S> {
    type Response = Option<S::Response>;

    type Error = S::Error;

    type Future = Answer<'a, S::Future>;

    ghost sound = { S.sound };

    ghost ready = { S.ready };

    ghost polled = { S.polled };

    ghost needs = { S.needs };

    ghost readies = { S.readies };

    fn poll_ready(&mut self, cx: &mut Context<'_>) -> Poll<Result<(), S::Error>> {
        self.inner.poll_ready(cx)
    }

    fn call(&mut self, number: u64) -> Self::Future {
        Answer {
            response: self.inner.call(number),
            answers: self.answers,
            waits: self.waits,
        }
    }
}

/// The response of an `Answered`: `None` in place of one that is dropped.
#[derive(Drop)]
pub struct Answer<'a, F> {
    response: F,
    answers: &'a Cell<u64>,
    waits: bool,
}

impl<'a, T, E, F: Steps<Output = Result<T, E>>> Steps for Answer<'a, F> {
    type Output = Result<Option<T>, E>;

    ghost can_poll = { λ a. F.can_poll a.response };

    ghost needs = { λ a. F.needs a.response };

    fn step(&mut self, cx: &mut Context<'_>) -> Poll<Self::Output> {
        match self.response.step(cx) {
            Poll::Ready(Ok(response)) => {
                self.answers.add();
                Poll::Ready(Ok(Some(response)))
            }
            Poll::Ready(Err(error)) => Poll::Ready(Err(error)),
            Poll::Pending if self.waits => Poll::Pending,
            Poll::Pending => Poll::Ready(Ok(None)),
        }
    }
}

/// A count of polls that tasks share.
pub trait Count: Copy {
    /// Counts one more.
    fn add(self);
}

impl Count for &Cell<u64> {
    fn add(self) {
        self.set(self.get().wrapping_add(1));
    }
}

/// A future that counts its polls. It leaves after as many polls as it has patience for.
#[derive(Drop)]
pub struct Counted<F, C> {
    future: F,
    polls: C,
    left: u64,
}

impl<F, C> Counted<F, C> {
    /// Counts the polls of the future, and leaves at the poll after the next `left` ones.
    pub fn new(future: F, polls: C, left: u64) -> Counted<F, C>
        ensures { result.future ≡ future }
    {
        Counted {
            future,
            polls,
            left,
        }
    }
}

impl<F: Future<Output: Drop>, C: Count + Drop> Future for Counted<F, C> {
    type Output = ();

    ghost can_poll = { λ c. F.can_poll c.future };

    ghost needs = { λ c. F.needs c.future };

    fn poll(&mut self, cx: &mut Context<'_>) -> Poll<()> {
        self.polls.add();
        if self.left == 0 {
            return Poll::Ready(());
        }
        self.left -= 1;
        match self.future.poll(cx) {
            Poll::Ready(_) => Poll::Ready(()),
            Poll::Pending if self.left == 0 => cx.yield_now(),
            Poll::Pending => Poll::Pending,
        }
    }
}
