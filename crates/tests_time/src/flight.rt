//! Responses under a timeout whose polls are counted.

use futures::future::Future;
use futures::task::{Context, Poll};
use std::convert::Infallible;
use std::sync::atomic::{AtomicU64, Ordering};
use tower_base::service::{Clock, Service, Sleep, Steps};
use tower_ware::timeout::Timeout;
use tower_ware::timeout::future::ResponseFuture;

/// Counts the responses: those that answered in time, and those that were polled more than three times.
#[derive(Drop)]
pub struct Board {
    answered: AtomicU64,
    often: AtomicU64,
}

impl Board {
    pub fn new() -> Board {
        Board {
            answered: AtomicU64::new(0),
            often: AtomicU64::new(0),
        }
    }

    fn note(&self, has_answered: bool, polls: u64) {
        self.answered
            .fetch_add(u64::from(has_answered), Ordering::SeqCst);
        self.often.fetch_add(u64::from(polls > 3), Ordering::SeqCst);
    }

    /// Returns how many answered, and how many were polled more than three times.
    pub fn told(&self) -> (u64, u64) {
        let answered = self.answered.load(Ordering::SeqCst);
        (answered, self.often.load(Ordering::SeqCst))
    }
}

/// A service whose response is ready after a time, which is the request, in nanoseconds.
#[derive(Drop)]
pub struct Late<C> {
    clock: C,
}

/// The response, once its time has come.
#[derive(Drop)]
pub struct Answer<C> {
    sleep: Sleep<C>,
}

impl<C> Late<C> {
    pub fn new(clock: C) -> Late<C> {
        Late { clock }
    }
}

impl<C: Clock> Service<u64> for Late<C> {
    type Response = ();

    type Error = Infallible;

    type Future = Answer<C>;

    // It may always be called.
    ghost readies = { λ _ _ _. tt };

    fn poll_ready(&mut self, _cx: &mut Context<'_>) -> Poll<Result<(), Infallible>> {
        Poll::Ready(Ok(()))
    }

    fn call(&mut self, wait: u64) -> Answer<C> {
        Answer {
            sleep: Sleep::new(self.clock.share(), wait),
        }
    }
}

impl<C: Clock> Steps for Answer<C> {
    type Output = Result<(), Infallible>;

    ghost needs = { λ a. C.hears a.sleep.clock };

    fn step(&mut self, cx: &mut Context<'_>) -> Poll<Result<(), Infallible>> {
        self.sleep.step(cx).map(Ok)
    }
}

/// A response in flight.
#[derive(Drop)]
pub struct Flight<'a, C> {
    response: ResponseFuture<Answer<C>, C>,
    board: &'a Board,
    polls: u64,
}

impl<'a, C: Clock> Flight<'a, C> {
    /// Calls a service that answers after `wait`, under a timeout, both in nanoseconds.
    pub fn new(clock: &C, board: &'a Board, wait: u64, limit: u64) -> Flight<'a, C> {
        let late = Late::new(clock.share());
        let mut service = Timeout::new(late, limit, clock.share());
        Flight {
            response: service.call(wait),
            board,
            polls: 0,
        }
    }
}

impl<C: Clock> Future for Flight<'_, C> {
    type Output = ();

    ghost needs = { λ _ _. ⊥ };

    fn poll(&mut self, cx: &mut Context<'_>) -> Poll<()> {
        self.polls = self.polls.saturating_add(1);
        match self.response.step(cx) {
            Poll::Ready(answer) => {
                self.board.note(answer.is_ok(), self.polls);
                Poll::Ready(())
            }
            Poll::Pending => Poll::Pending,
        }
    }
}
