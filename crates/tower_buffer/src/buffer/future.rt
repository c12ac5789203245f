//! The response of a `Buffer`.
ghost use Rattle.std.specs.Prelude.{◌≡◌, Some};
ghost use Rattle.futures.specs.Poll.{OnPending};
ghost use Rattle.futures.specs.Task.{Covers, Keeps};
ghost use Rattle.tower_base.specs.Gives.{IsStep, MayGive};
ghost use Rattle.tower_base.specs.Quiet.{Quiet};
ghost use Rattle.tower_buffer.specs.Buffer.{CanPoll, Carries, Forgets, Needs, Stepped, Stirs};
ghost use Rattle.tower_buffer.specs.declared.buffer.reservation.ResponseState.{ResponseState};
ghost use Rattle.tower_buffer.specs.declared.buffer.reservation.ResponseState.TheVariants.{Told, Sent as IsSent};
ghost use Rattle.tower_buffer.specs.declared.buffer.error.Error.{Error as BufferError};

use crate::buffer::error::{Error, ServiceError};
use crate::buffer::mail::{MailReply, MailStep};
use crate::buffer::mail_core::{Mail, waited};
use crate::buffer::reservation::ResponseState;
use futures::future::Future;
use futures::task::{Context, Poll};
use std::marker::{Model, PhantomData};
use tower_base::service::Steps;
use tower_latch::Latch;

/// The future of a message's response: the Rust's `tower::buffer::future::ResponseFuture`.
///
/// It waits for the outcome of its message, and polls the inner future in the same poll. If it is
/// dropped before, the mail forgets its message.
pub struct ResponseFuture<Request: Drop, F: Steps + Drop, E: Clone, L: Latch<Mail<Request, F, E>>> {
    state: ResponseState<L, F, Error<E>>,
    of: PhantomData<(Request, E)>,
}

impl<Request: Drop, F: Steps + Drop, E: Clone, L: Latch<Mail<Request, F, E>>> Model
    for ResponseFuture<Request, F, E, L> {
    ghost Value = { ResponseState L F (BufferError E) };

    ghost view = { λ f. f.state };
}

impl<Request: Drop, F: Steps + Drop, E: Clone, L: Latch<Mail<Request, F, E>>> Drop
    for ResponseFuture<Request, F, E, L> {
    fn drop(self)
        ensures { Forgets L.gave self }
    {
        if let ResponseState::Sent(latch, id) = &self.state {
            latch.step(MailStep::Forget(*id));
        }
        let ResponseFuture { state: _, of: _ } = self;
    }
}

impl<Request: Drop, F: Steps + Drop, E: Clone, L: Latch<Mail<Request, F, E>>> ResponseFuture<
    Request,
    F,
    E,
    L,
> {
    pub(crate) fn sent(latch: L, id: u64) -> Self
        ensures { result ≡ IsSent latch id }
    {
        ResponseFuture {
            state: ResponseState::Sent(latch, id),
            of: PhantomData,
        }
    }

    pub(crate) fn told(error: Error<E>) -> Self
        ensures { result ≡ Told (Some error) }
    {
        ResponseFuture {
            state: ResponseState::Told(Some(error)),
            of: PhantomData,
        }
    }
}

impl<Request, T, E, F, L> Future for ResponseFuture<Request, F, E, L>
where
    Request: Drop,
    E: Clone,
    F: Steps<Output = Result<T, E>> + Drop,
    L: Latch<Mail<Request, F, E>>,
{
    type Output = Result<T, Error<E>>;

    ghost can_poll = { CanPoll F.can_poll };

    ghost gives = { MayGive (Stepped L.gave F.stepped) };

    ghost needs = { Needs L.source F.needs };

    #[tactic(auto, using(tower_base::specs::GivesLemmas::one_step))]
    fn poll(&mut self, cx: &mut Context<'_>) -> Poll<Self::Output>
        requires { CanPoll F.can_poll self.old }
        ensures { IsStep (Stepped L.gave F.stepped) (CanPoll F.can_poll) (Needs L.source F.needs)
            self.old result self.new cx.old cx.new }
    {
        self.step(cx)
    }
}

impl<Request, T, E, F, L> Steps for ResponseFuture<Request, F, E, L>
where
    Request: Drop,
    E: Clone,
    F: Steps<Output = Result<T, E>> + Drop,
    L: Latch<Mail<Request, F, E>>,
{
    type Output = Result<T, Error<E>>;

    ghost can_poll = { CanPoll F.can_poll };

    ghost needs = { Needs L.source F.needs };

    ghost stepped = { Stepped L.gave F.stepped };

    ghost stirs = { Stirs L.gave F.stepped L.stirs F.stirs };

    fn step(&mut self, cx: &mut Context<'_>) -> Poll<Self::Output> {
        let (latch, id) = match &mut self.state {
            ResponseState::Told(error) => return Poll::Ready(Err(error.take().unwrap())),
            ResponseState::Polls(future) => return carry(future, cx),
            ResponseState::Sent(latch, id) => (latch, *id),
        };
        match waited(latch, MailStep::Outcome(id), cx) {
            MailReply::Waiting(_) => Poll::Pending,
            MailReply::Unknown => cx.yield_now(),
            MailReply::Memory => Poll::Ready(Err(Error::Memory)),
            MailReply::Failed(error) => {
                self.state = ResponseState::Told(None);
                Poll::Ready(Err(Error::Service(ServiceError { error })))
            }
            MailReply::Lost => {
                self.state = ResponseState::Told(None);
                Poll::Ready(Err(Error::Closed))
            }
            MailReply::Future(future) => {
                self.state = ResponseState::Polls(future.into_inner());
                let ResponseState::Polls(future) = &mut self.state else {
                    unreachable!();
                };
                carry(future, cx)
            }
            _ => unreachable!(),
        }
    }
}

// Polls the inner future once. Its error becomes `Inner`.
fn carry<T, E, F>(future: &mut F, cx: &mut Context<'_>) -> Poll<Result<T, Error<E>>>
where
    F: Steps<Output = Result<T, E>>,
    requires { F.can_poll future.old }
    ensures step { Carries F.stepped future.old result future.new }
    ensures again { OnPending result (F.can_poll future.new) }
    ensures registered { OnPending result (Covers cx.new (F.needs future.new)) }
    ensures quiet { Quiet (F.stirs future.old future.new) cx.old cx.new }
    ensures kept { Keeps cx.old cx.new }
{
    match future.step(cx) {
        Poll::Ready(Ok(value)) => Poll::Ready(Ok(value)),
        Poll::Ready(Err(error)) => Poll::Ready(Err(Error::Inner(error))),
        Poll::Pending => Poll::Pending,
    }
}
