//! The future of a `Select`.
ghost use Rattle.std.specs.Prelude.{◌≡◌, Option, IfSome};
ghost use Rattle.tower_base.specs.Gives.{IsStep, MayGive};
ghost use Rattle.tower_retry.specs.Select.{ResponseFutureView, Stepped, Stirs, Needs};

use crate::hedge::select::error::Error;
use futures::future::Future;
use futures::task::{Context, Poll};
use std::marker::Model;
use tower_base::service::Steps;

/// The future of a `Select`, which resolves to the first answer of its calls: the Rust's
/// `tower::hedge::select::ResponseFuture`.
///
/// Each poll polls the first call and, if that is pending, the second, if there is one.
#[derive(Drop)]
pub struct ResponseFuture<AF, BF> {
    a_fut: AF,
    b_fut: Option<BF>,
}

impl<AF, BF> Model for ResponseFuture<AF, BF> {
    ghost Value = { ResponseFutureView AF BF };

    ghost view = { λ f. record { a_fut = f.a_fut; b_fut = f.b_fut } };
}

impl<AF, BF> ResponseFuture<AF, BF> {
    pub(crate) fn new(a_fut: AF, b_fut: Option<BF>) -> ResponseFuture<AF, BF>
        ensures { result ≡ record { a_fut = a_fut; b_fut = b_fut } }
    {
        ResponseFuture { a_fut, b_fut }
    }
}

impl<T, E, G, AF, BF> Future for ResponseFuture<AF, BF>
where
    AF: Steps<Output = Result<T, E>>,
    BF: Steps<Output = Result<T, G>>,
{
    type Output = Result<T, Error<E, G>>;

    ghost can_poll = { λ f. AF.can_poll f.a_fut × IfSome f.b_fut BF.can_poll };

    ghost gives = { MayGive (Stepped AF.Steps.own BF.Steps.own) };

    ghost needs = { Needs AF.needs BF.needs };

    #[tactic(auto, using(tower_base::specs::GivesLemmas::one_step))]
    fn poll(&mut self, cx: &mut Context<'_>) -> Poll<Self::Output>
        requires { AF.can_poll self.old.a_fut × IfSome self.old.b_fut BF.can_poll }
        ensures { IsStep (Stepped AF.Steps.own BF.Steps.own)
            (λ v. AF.can_poll v.a_fut × IfSome v.b_fut BF.can_poll) (Needs AF.needs BF.needs)
            self.old result self.new cx.old cx.new }
    {
        self.step(cx)
    }
}

impl<T, E, G, AF, BF> Steps for ResponseFuture<AF, BF>
where
    AF: Steps<Output = Result<T, E>>,
    BF: Steps<Output = Result<T, G>>,
{
    type Output = Result<T, Error<E, G>>;

    ghost can_poll = { λ f. AF.can_poll f.a_fut × IfSome f.b_fut BF.can_poll };

    ghost needs = { Needs AF.needs BF.needs };

    ghost stepped = { Stepped AF.Steps.own BF.Steps.own };

    ghost stirs = { Stirs AF.stirs BF.stirs };

    fn step(&mut self, cx: &mut Context<'_>) -> Poll<Self::Output> {
        match self.a_fut.step(cx) {
            Poll::Ready(Ok(response)) => return Poll::Ready(Ok(response)),
            Poll::Ready(Err(error)) => return Poll::Ready(Err(Error::First(error))),
            Poll::Pending => {}
        }
        let Some(b_fut) = &mut self.b_fut else {
            return Poll::Pending;
        };
        match b_fut.step(cx) {
            Poll::Ready(Ok(response)) => Poll::Ready(Ok(response)),
            Poll::Ready(Err(error)) => Poll::Ready(Err(Error::Second(error))),
            Poll::Pending => Poll::Pending,
        }
    }
}
