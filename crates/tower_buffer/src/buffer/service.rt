//! A share of a bounded queue before a service.
ghost use Rattle.std.specs.Prelude.{◌≡◌, Some, None, IfErr, IsSome, MatchResult};
ghost use Rattle.tower_buffer.specs.Buffer.{BufferView, Called, CloneRefused, GivesUp, IsClone, Polled, StirsAt};
ghost use Rattle.tower_buffer.specs.BufferReady.{ready_after};
ghost use Rattle.tower_buffer.specs.declared.buffer.reservation.Reservation.TheVariants.{Away, Reserved};

use crate::buffer::error::{Error, ServiceError};
use crate::buffer::future::ResponseFuture;
use crate::buffer::mail::{MailReply, MailStep};
use crate::buffer::mail_core::{Mail, waited};
use crate::buffer::reservation::Reservation;
use futures::task::{Context, Poll};
use std::alloc::AllocError;
use std::marker::{Model, PhantomData};
use tower_base::service::{Service, Steps};
use tower_latch::Latch;

/// A service that sends its requests to a worker, through a bounded queue that its clones share: the
/// Rust's `tower::buffer::Buffer`.
///
/// A poll of readiness creates the share of the mail that the response takes along, and then reserves a
/// place. If a place is reserved already, it returns `Ok` without a step. A call uses the place, and
/// doesn't allocate while the worker is there. A `Buffer` that is dropped gives its place back or
/// cancels its wait.
pub struct Buffer<Request: Drop, F: Steps + Drop, E: Clone, L: Latch<Mail<Request, F, E>>> {
    latch: L,
    reservation: Reservation,
    share: Option<L>,
    of: PhantomData<(Request, F, E)>,
}

impl<Request: Drop, F: Steps + Drop, E: Clone, L: Latch<Mail<Request, F, E>>> Model
    for Buffer<Request, F, E, L> {
    ghost Value = { BufferView L };

    ghost view = { λ b. record { latch = b.latch; reservation = b.reservation; share = b.share } };

    // If a place is reserved, the response's share is there.
    ghost invariant = { λ b. b.reservation ≡ Reserved → IsSome b.share };
}

/// Dropping a `Buffer` gives its place back or cancels its wait, and counts one `Buffer` less.
impl<Request: Drop, F: Steps + Drop, E: Clone, L: Latch<Mail<Request, F, E>>> Drop
    for Buffer<Request, F, E, L> {
    fn drop(self)
        ensures gives_up { GivesUp L.gave self.latch self.reservation }
        ensures part { (reply : _) × L.gave self.latch MailStep.Part reply }
    {
        match self.reservation {
            Reservation::Away => {}
            Reservation::Asking(key) => {
                self.latch.step(MailStep::Cancel(key));
            }
            Reservation::Reserved => {
                self.latch.step(MailStep::Unreserve);
            }
        }
        self.latch.step(MailStep::Part);
        let Buffer {
            latch: _,
            reservation: _,
            share: _,
            of: _,
        } = self;
    }
}

impl<Request, T, E, F, L> Service<Request> for Buffer<Request, F, E, L>
where
    Request: Drop,
    T: Drop,
    E: Clone,
    F: Steps<Output = Result<T, E>> + Drop,
    L: Latch<Mail<Request, F, E>>,
{
    type Response = T;

    type Error = Error<E>;

    type Future = ResponseFuture<Request, F, E, L>;

    ghost ready = { λ b. b.reservation ≡ Reserved };

    ghost polled = { Polled L.gave L.shares };

    ghost needs = { λ b. L.source b.latch };

    ghost stirs = { λ old new. StirsAt L.gave L.shares old.reservation L.stirs new.latch };

    ghost called = { Called L.gave L.shares };

    ghost readies = { λ old new p. ready_after {Q = Request} {F = F} L.gave L.shares old new p };

    fn poll_ready(&mut self, cx: &mut Context<'_>) -> Poll<Result<(), Error<E>>> {
        if let Reservation::Reserved = self.reservation {
            return Poll::Ready(Ok(()));
        }
        if self.share.is_none() {
            let Ok(share) = self.latch.share() else {
                return Poll::Ready(Err(Error::Memory));
            };
            self.share = Some(share);
        }
        let step = match self.reservation {
            Reservation::Asking(key) => MailStep::Look(key),
            _ => MailStep::Reserve,
        };
        match waited(&self.latch, step, cx) {
            MailReply::Place => {
                self.reservation = Reservation::Reserved;
                Poll::Ready(Ok(()))
            }
            MailReply::Waiting(key) => {
                self.reservation = Reservation::Asking(key);
                Poll::Pending
            }
            MailReply::Memory => Poll::Ready(Err(Error::Memory)),
            MailReply::Failed(error) => {
                self.reservation = Reservation::Away;
                Poll::Ready(Err(Error::Service(ServiceError { error })))
            }
            MailReply::Closed => {
                self.reservation = Reservation::Away;
                Poll::Ready(Err(Error::Closed))
            }
            MailReply::Unknown => cx.yield_now(),
            _ => unreachable!(),
        }
    }

    fn call(&mut self, request: Request) -> Self::Future {
        match self.latch.step(MailStep::Send(request)) {
            MailReply::Sent(id) => {
                self.reservation = Reservation::Away;
                ResponseFuture::sent(self.share.take().unwrap(), id)
            }
            MailReply::Failed(error) => {
                self.reservation = Reservation::Away;
                ResponseFuture::told(Error::Service(ServiceError { error }))
            }
            MailReply::Closed | MailReply::Unknown => {
                self.reservation = Reservation::Away;
                ResponseFuture::told(Error::Closed)
            }
            MailReply::Memory => ResponseFuture::told(Error::Memory),
            _ => unreachable!(),
        }
    }
}

/// A clone shares the mail. It has no place and waits for none. Cloning fails if the latch refuses its
/// share, or if the mail can't count another `Buffer`.
impl<Request: Drop, F: Steps + Drop, E: Clone, L: Latch<Mail<Request, F, E>>> Clone
    for Buffer<Request, F, E, L> {
    ghost is_clone = { IsClone L.gave L.shares };

    fn clone(&self) -> Result<Self, AllocError>
        ensures cases { MatchResult result (IsClone L.gave L.shares self.now) (λ _. ¬ ⊥) }
        ensures refused { IfErr result (CloneRefused L.gave L.shares self.now) }
    {
        let latch = self.latch.share()?;
        match self.latch.step(MailStep::Join) {
            MailReply::Done => Ok(Buffer::away(latch)),
            MailReply::Memory => Err(AllocError),
            _ => unreachable!(),
        }
    }
}

impl<Request: Drop, F: Steps + Drop, E: Clone, L: Latch<Mail<Request, F, E>>> Buffer<
    Request,
    F,
    E,
    L,
> {
    // Creates a `Buffer` that has no place and waits for none.
    pub(crate) fn away(latch: L) -> Self
        ensures { result ≡ record { latch = latch; reservation = Away; share = None } }
    {
        Buffer {
            latch,
            reservation: Reservation::Away,
            share: None,
            of: PhantomData,
        }
    }
}
