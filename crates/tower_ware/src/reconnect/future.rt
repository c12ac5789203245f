//! The future of a `Reconnect`.
ghost use Rattle.std.specs.Prelude.{◌≡◌};
ghost use Rattle.tower_base.specs.Gives.{IsStep, MayGive};
ghost use Rattle.tower_ware.specs.Reconnect.{CanPoll, Stepped, needs_of, stirs_of};
ghost use Rattle.tower_ware.specs.declared.reconnect.state.Reply.{Reply};

use crate::reconnect::error::Error;
use crate::reconnect::state::Reply;
use futures::future::Future;
use futures::task::{Context, Poll};
use std::marker::Model;
use tower_base::service::Steps;

/// The future of a `Reconnect`, which resolves to the connection's response or to the error of a connect:
/// the Rust's `tower::reconnect::ResponseFuture`.
#[derive(Drop)]
pub struct ResponseFuture<F, E> {
    reply: Reply<F, E>,
}

impl<F, E> Model for ResponseFuture<F, E> {
    ghost Value = { Reply F E };

    ghost view = { λ r. r.reply };
}

impl<F, E> ResponseFuture<F, E> {
    pub(crate) fn new(reply: Reply<F, E>) -> ResponseFuture<F, E>
        ensures { result ≡ reply }
    {
        ResponseFuture { reply }
    }
}

impl<T, E, M: Drop, F: Steps<Output = Result<T, E>>> Future for ResponseFuture<F, M> {
    type Output = Result<T, Error<E, M>>;

    ghost can_poll = { CanPoll F.can_poll };

    ghost gives = { MayGive (Stepped F.Steps.own) };

    ghost needs = { needs_of F.needs };

    #[tactic(auto, using(tower_base::specs::GivesLemmas::one_step))]
    fn poll(&mut self, cx: &mut Context<'_>) -> Poll<Self::Output>
        requires { CanPoll F.can_poll self.old }
        ensures { IsStep (Stepped F.Steps.own) (CanPoll F.can_poll) (needs_of F.needs)
            self.old result self.new cx.old cx.new }
    {
        self.step(cx)
    }
}

impl<T, E, M: Drop, F: Steps<Output = Result<T, E>>> Steps for ResponseFuture<F, M> {
    type Output = Result<T, Error<E, M>>;

    ghost can_poll = { CanPoll F.can_poll };

    ghost needs = { needs_of F.needs };

    ghost stepped = { Stepped F.Steps.own };

    ghost stirs = { stirs_of F.stirs };

    fn step(&mut self, cx: &mut Context<'_>) -> Poll<Self::Output> {
        match &mut self.reply {
            Reply::InFlight(response) => match response.step(cx) {
                Poll::Ready(Ok(response)) => Poll::Ready(Ok(response)),
                Poll::Ready(Err(error)) => Poll::Ready(Err(Error::Inner(error))),
                Poll::Pending => Poll::Pending,
            },
            Reply::Failed(error) => {
                let Some(error) = error.take() else {
                    unreachable!()
                };
                Poll::Ready(Err(Error::Make(error)))
            }
        }
    }
}
