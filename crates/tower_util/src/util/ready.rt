//! Futures that wait until a service is ready.
ghost use Rattle.std.specs.Prelude.{◌≡◌, Option, Some, IsSomeAnd, Ok, Err};
ghost use Rattle.futures.specs.Poll.{IfReady, OnPending};
ghost use Rattle.futures.specs.Task.{Covers, Keeps};
ghost use Rattle.tower_base.specs.Gives.{MayGive};
ghost use Rattle.tower_util.specs.Fuse.{needs_of};
ghost use Rattle.tower_util.specs.Ready.{ReadyStepped, ReadyStirs, ReadyOneshotStepped, ReadyOneshotStirs, HandsBack, IsReadyOneshotStep, MayGiveBack};

use futures::future::Future;
use futures::task::{Context, Poll};
use std::marker::{Model, PhantomData};
use tower_base::service::{Service, Steps};

/// A future that waits until a service is ready, and returns the service. It is the Rust's
/// `tower::util::ReadyOneshot`.
#[derive(Drop)]
pub struct ReadyOneshot<T, Request> {
    inner: Option<T>,
    request: PhantomData<Request>,
}

impl<T, Request> Model for ReadyOneshot<T, Request> {
    ghost Value = { Option T };

    ghost view = { λ r. r.inner };
}

impl<T: Service<Request>, Request> ReadyOneshot<T, Request> {
    /// Creates the future. Polls nothing.
    pub fn new(service: T) -> ReadyOneshot<T, Request>
        ensures { result ≡ Some service }
    {
        ReadyOneshot {
            inner: Some(service),
            request: PhantomData,
        }
    }
}

impl<T: Service<Request>, Request: Drop> Future for ReadyOneshot<T, Request> {
    type Output = Result<T, T::Error>;

    ghost can_poll = { λ r. IsSomeAnd r T.sound };

    ghost needs = { needs_of T.needs };

    // The service that the future returns is sound and ready.
    ghost gives = { MayGiveBack T.sound T.ready T.polled };

    #[tactic(auto, using(crate::proofs::ReadyLemmas::gives_back_step))]
    fn poll(&mut self, cx: &mut Context<'_>) -> Poll<Result<T, T::Error>>
        requires { ⟦<ReadyOneshot<T, Request> as Future>⟧.can_poll self.old }
        ensures { IsReadyOneshotStep T.sound T.ready T.polled T.needs self.old result self.new
            cx.old cx.new }
    {
        self.step(cx)
    }
}

impl<T: Service<Request>, Request: Drop> Steps for ReadyOneshot<T, Request> {
    type Output = Result<T, T::Error>;

    ghost can_poll = { λ r. IsSomeAnd r T.sound };

    ghost needs = { needs_of T.needs };

    ghost stirs = { ReadyOneshotStirs T.stirs };

    ghost stepped = { ReadyOneshotStepped T.sound T.ready T.polled };

    fn step(&mut self, cx: &mut Context<'_>) -> Poll<Result<T, T::Error>> {
        let Some(mut service) = self.inner.take() else {
            unreachable!()
        };
        match service.poll_ready(cx) {
            Poll::Ready(Ok(())) => Poll::Ready(Ok(service)),
            Poll::Ready(Err(error)) => {
                self.inner = Some(service);
                Poll::Ready(Err(error))
            }
            Poll::Pending => {
                self.inner = Some(service);
                Poll::Pending
            }
        }
    }
}

/// A future that waits until a borrowed service is ready, and returns the borrow. It is the Rust's
/// `tower::util::Ready`. After an error it keeps the borrow, of a service that is still sound.
#[derive(Drop)]
pub struct Ready<'a, T, Request> {
    service: Option<&'a mut T>,
    request: PhantomData<Request>,
}

impl<'a, T: Service<Request>, Request> Ready<'a, T, Request> {
    /// Creates the future. Polls nothing.
    pub fn new(service: &'a mut T) -> Ready<'a, T, Request>
        ensures { IsSomeAnd result.service
            (λ lent. (lent.now ≡ service.old) × (lent.ghost_name ≡ service.entry.ghost_name)) }
    {
        Ready {
            service: Some(service),
            request: PhantomData,
        }
    }
}

impl<'a, T: Service<Request>, Request: Drop> Future for Ready<'a, T, Request> {
    type Output = Result<&'a mut T, T::Error>;

    ghost can_poll = { λ r. IsSomeAnd r.service (λ lent. T.sound lent.now) };

    ghost needs = { λ r source. IsSomeAnd r.service (λ lent. T.needs lent.now source) };

    // The future returns the same borrow, of a service that is sound and ready.
    ghost gives = { λ r out. MayGive (λ old answer new. ReadyStepped T.sound T.ready T.polled
        old.service answer new.service) r out
        × HandsBack T.sound T.ready r.service out };

    fn poll(&mut self, cx: &mut Context<'_>) -> Poll<Result<&'a mut T, T::Error>>
        requires { ⟦<Ready<'a, T, Request> as Future>⟧.can_poll self.old }
        ensures step { ReadyStepped T.sound T.ready T.polled self.old.service result
            self.new.service }
        ensures value { IfReady result (⟦<Ready<'a, T, Request> as Future>⟧.gives self.old) }
        ensures again { OnPending result (⟦<Ready<'a, T, Request> as Future>⟧.can_poll self.new) }
        ensures same { OnPending result ((x : _) → ⟦<Ready<'a, T, Request> as Future>⟧.gives
            self.new x → ⟦<Ready<'a, T, Request> as Future>⟧.gives self.old x) }
        ensures registered { OnPending result
            (Covers cx.new (⟦<Ready<'a, T, Request> as Future>⟧.needs self.new)) }
        ensures kept { Keeps cx.old cx.new }
    {
        self.step(cx)
    }
}

impl<'a, T: Service<Request>, Request: Drop> Steps for Ready<'a, T, Request> {
    type Output = Result<&'a mut T, T::Error>;

    ghost can_poll = { λ r. IsSomeAnd r.service (λ lent. T.sound lent.now) };

    ghost needs = { λ r source. IsSomeAnd r.service (λ lent. T.needs lent.now source) };

    ghost stirs = { λ old new. ReadyStirs T.stirs old.service new.service };

    ghost stepped = { λ old answer new. ReadyStepped T.sound T.ready T.polled old.service answer
        new.service };

    fn step(&mut self, cx: &mut Context<'_>) -> Poll<Result<&'a mut T, T::Error>> {
        let Some(lent) = self.service.take() else {
            unreachable!()
        };
        match lent.poll_ready(cx) {
            Poll::Ready(Ok(())) => Poll::Ready(Ok(lent)),
            Poll::Ready(Err(error)) => {
                self.service = Some(lent);
                Poll::Ready(Err(error))
            }
            Poll::Pending => {
                self.service = Some(lent);
                Poll::Pending
            }
        }
    }
}
