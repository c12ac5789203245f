//! The future of a `Latency`.
ghost use Rattle.std.specs.Prelude.{◌≡◌, Option, IfSome};
ghost use Rattle.tower_base.specs.Gives.{IsStep, MayGive};
ghost use Rattle.tower_retry.specs.Latency.{ResponseFutureView, Stepped};

use crate::hedge::latency::Record;
use futures::future::Future;
use futures::task::{Context, Poll};
use std::marker::Model;
use tower_base::service::{Clock, Steps};

/// The future of a `Latency`, which records its response if that is `Ok`: the Rust's
/// `tower::hedge::latency::ResponseFuture`.
#[derive(Drop)]
pub struct ResponseFuture<R, F, C> {
    start: u64,
    // `None` if allocating a clone failed
    rec: Option<R>,
    inner: F,
    clock: C,
}

impl<R, F, C> Model for ResponseFuture<R, F, C> {
    ghost Value = { ResponseFutureView R F C };

    ghost view = { λ f. record { start = f.start; rec = f.rec; inner = f.inner; clock = f.clock } };
}

impl<R, F, C> ResponseFuture<R, F, C> {
    pub(crate) fn new(start: u64, rec: Option<R>, inner: F, clock: C) -> ResponseFuture<R, F, C>
        ensures { result ≡ record { start = start; rec = rec; inner = inner; clock = clock } }
    {
        ResponseFuture {
            start,
            rec,
            inner,
            clock,
        }
    }
}

impl<T, E, R, F, C> Future for ResponseFuture<R, F, C>
where
    R: Record,
    F: Steps<Output = Result<T, E>>,
    C: Clock,
{
    type Output = Result<T, E>;

    ghost can_poll = { λ v. F.can_poll v.inner × IfSome v.rec R.sound };

    ghost gives = { MayGive (Stepped F.Steps.own R.Record C.Clock) };

    ghost needs = { λ v. F.needs v.inner };

    #[tactic(auto, using(tower_base::specs::GivesLemmas::one_step))]
    fn poll(&mut self, cx: &mut Context<'_>) -> Poll<Self::Output>
        requires { F.can_poll self.old.inner × IfSome self.old.rec R.sound }
        ensures { IsStep (Stepped F.Steps.own R.Record C.Clock)
            (λ v. F.can_poll v.inner × IfSome v.rec R.sound) (λ v. F.needs v.inner)
            self.old result self.new cx.old cx.new }
    {
        self.step(cx)
    }
}

impl<T, E, R, F, C> Steps for ResponseFuture<R, F, C>
where
    R: Record,
    F: Steps<Output = Result<T, E>>,
    C: Clock,
{
    type Output = Result<T, E>;

    ghost can_poll = { λ v. F.can_poll v.inner × IfSome v.rec R.sound };

    ghost needs = { λ v. F.needs v.inner };

    ghost stepped = { Stepped F.Steps.own R.Record C.Clock };

    ghost stirs = { λ old new. F.stirs old.inner new.inner };

    fn step(&mut self, cx: &mut Context<'_>) -> Poll<Self::Output> {
        match self.inner.step(cx) {
            Poll::Ready(Ok(response)) => {
                if let Some(rec) = &mut self.rec {
                    rec.record(self.clock.now().saturating_sub(self.start));
                }
                Poll::Ready(Ok(response))
            }
            Poll::Ready(Err(error)) => Poll::Ready(Err(error)),
            Poll::Pending => Poll::Pending,
        }
    }
}
