//! The worker of a `Buffer`.
ghost use Rattle.std.specs.Prelude.{◌≡◌, ◌⊎◌, ℕ, Some, None, false};
ghost use Rattle.futures.specs.Poll.{OnPending};
ghost use Rattle.futures.specs.Task.{Covers, Hears, IsArmed, Keeps};
ghost use Rattle.futures.specs.declared.task.Poll.TheVariants.{Pending};
ghost use Rattle.tower_base.specs.Gives.{IsStep, MayGive};
ghost use Rattle.tower_base.specs.Quiet.{Ever, Quiet};
ghost use Rattle.tower_base.specs.LastIteration.{AnsweredOrWoken};
ghost use Rattle.tower_buffer.specs.WorkerOrder.{Orderly};
ghost use Rattle.tower_buffer.specs.Worker.{HandsOn, Needs, Iteration, Serves, Stepped, Stirs, WorkerView};

use crate::buffer::mail::{MailReply, MailStep};
use crate::buffer::mail_core::{Mail, waited};
use futures::future::Future;
use futures::task::{Context, Poll};
use std::marker::{Model, PhantomData};
use tower_base::iterations::TURNS;
use tower_base::service::{Service, Steps};
use tower_latch::Latch;
use tower_latch::held::Pollable;

/// A future that takes one message after another, waits until the service is ready, and calls it: the
/// Rust's `tower::buffer::worker::Worker`, whose module is private. It is passed to an executor, and ends
/// once no further message will come.
///
/// After a failure of the service each message that it takes gets that error. A poll makes at most
/// `TURNS` iterations; then it is pending and has woken its own task. If a worker is dropped, the messages
/// without an outcome are lost.
pub struct Worker<
    S: Drop,
    Request: Drop,
    F: Steps + Drop,
    E: Clone,
    L: Latch<Mail<Request, F, E>>,
> {
    latch: L,
    service: S,
    message: Option<(u64, Request)>,
    has_failed: bool,
    of: PhantomData<(F, E)>,
}

impl<S: Drop, Request: Drop, F: Steps + Drop, E: Clone, L: Latch<Mail<Request, F, E>>> Model
    for Worker<S, Request, F, E, L> {
    ghost Value = { WorkerView L S Request };

    ghost view = { λ w. record {
      latch = w.latch;
      service = w.service;
      message = w.message;
      has_failed = w.has_failed;
    } };
}

/// Dropping a worker reports to the mail that it is gone, by one step at the latch.
impl<S: Drop, Request: Drop, F: Steps + Drop, E: Clone, L: Latch<Mail<Request, F, E>>> Drop
    for Worker<S, Request, F, E, L> {
    fn drop(self)
        ensures { (reply : _) × L.gave self.latch MailStep.WorkerGone reply }
    {
        self.latch.step(MailStep::WorkerGone);
        let Worker {
            latch: _,
            service: _,
            message: _,
            has_failed: _,
            of: _,
        } = self;
    }
}

impl<S, Request, F, E, L> Worker<S, Request, F, E, L>
where
    Request: Drop,
    F: Steps + Drop,
    E: Clone,
    S: Service<Request, Error = E, Future = F>,
    L: Latch<Mail<Request, F, E>>,
{
    // Creates a worker that has taken no message.
    pub(crate) fn new(latch: L, service: S) -> Self
        ensures { result
            ≡ record { latch = latch; service = service; message = None; has_failed = false } }
    {
        Worker {
            latch,
            service,
            message: None,
            has_failed: false,
            of: PhantomData,
        }
    }

    // Makes one iteration. Returns `None` if the next one follows.
    fn iterate_once(&mut self, cx: &mut Context<'_>) -> Option<Poll<()>>
        requires { S.sound self.old.service }
        ensures iteration { Iteration L.gave S.Service self.old result self.new }
        ensures sound { S.sound self.new.service }
        ensures armed { result ≡ Some Pending → IsArmed cx.new }
        ensures heard { result ≡ Some Pending → (s : ℕ) → Needs L.source S.needs self.new s
            → Hears cx.new s }
        ensures quiet { Quiet (L.stirs self.old.latch ⊎ Ever S.stirs) cx.old cx.new }
        ensures kept { Keeps cx.old cx.new }
    {
        let Some((id, request)) = self.message.take() else {
            return self.take(cx);
        };
        match self.latch.step(MailStep::Live(id)) {
            MailReply::Truth(true) => self.serve(id, request, cx),
            MailReply::Truth(false) | MailReply::Unknown => None,
            _ => unreachable!(),
        }
    }

    // Makes one iteration if no message is kept.
    fn take(&mut self, cx: &mut Context<'_>) -> Option<Poll<()>>
        requires sound { S.sound self.old.service }
        requires none { self.old.message ≡ None }
        ensures iteration { Iteration L.gave S.Service self.old result self.new }
        ensures sound { S.sound self.new.service }
        ensures armed { result ≡ Some Pending → IsArmed cx.new }
        ensures heard { result ≡ Some Pending → (s : ℕ) → Needs L.source S.needs self.new s
            → Hears cx.new s }
        ensures quiet { Quiet (L.stirs self.old.latch ⊎ Ever S.stirs) cx.old cx.new }
        ensures kept { Keeps cx.old cx.new }
    {
        match waited(&self.latch, MailStep::Take, cx) {
            MailReply::Message(id, request) => {
                if self.has_failed {
                    self.latch.step(MailStep::FailStored(id));
                    return None;
                }
                self.serve(id, request, cx)
            }
            MailReply::Cleared => None,
            MailReply::Empty => Some(Poll::Pending),
            MailReply::End => Some(Poll::Ready(())),
            _ => unreachable!(),
        }
    }

    // Polls the service, and calls it if it is ready.
    fn serve(&mut self, id: u64, request: Request, cx: &mut Context<'_>) -> Option<Poll<()>>
        requires sound { S.sound self.old.service }
        requires none { self.old.message ≡ None }
        ensures serves { Serves L.gave S.Service self.old id request result self.new }
        ensures sound { S.sound self.new.service }
        ensures armed { result ≡ Some Pending → IsArmed cx.new }
        ensures heard { result ≡ Some Pending → (s : ℕ) → Needs L.source S.needs self.new s
            → Hears cx.new s }
        ensures quiet { Quiet (L.stirs self.old.latch ⊎ Ever S.stirs) cx.old cx.new }
        ensures kept { Keeps cx.old cx.new }
    {
        match self.service.poll_ready(cx) {
            Poll::Pending => {
                self.message = Some((id, request));
                Some(Poll::Pending)
            }
            Poll::Ready(Err(error)) => {
                self.latch.step(MailStep::Fail(id, error));
                self.has_failed = true;
                None
            }
            Poll::Ready(Ok(())) => {
                self.hand_on(id, request);
                None
            }
        }
    }

    // Calls the service, and gives the future to the mail.
    fn hand_on(&mut self, id: u64, request: Request)
        requires sound { S.sound self.old.service }
        requires ready { S.ready self.old.service }
        ensures hands_on { HandsOn L.gave S.Service self.old id request self.new }
        ensures sound { S.sound self.new.service }
    {
        let future = self.service.call(request);
        self.latch.step(MailStep::Answer(id, Pollable::new(future)));
    }

    // Makes iterations until one returns a result, at most `TURNS`.
    fn iterate(&mut self, cx: &mut Context<'_>) -> Poll<()>
        requires { S.sound self.old.service }
        ensures stepped { Stepped L.gave S.Service self.old result self.new }
        ensures woken { AnsweredOrWoken (Iteration L.gave S.Service)
            self.old result self.new cx.new.is_woken }
        ensures sound { S.sound self.new.service }
        ensures armed { OnPending result (IsArmed cx.new) }
        ensures heard { OnPending result
            ((s : ℕ) → Needs L.source S.needs self.new s → Hears cx.new s) }
        ensures quiet { Quiet (Stirs L.gave S.Service L.stirs S.stirs self.old self.new)
            cx.old cx.new }
        ensures kept { Keeps cx.old cx.new }
    {
        for _iteration in 0..TURNS {
            if let Some(answer) = self.iterate_once(cx) {
                return answer;
            }
        }
        cx.yield_now()
    }
}

impl<S, Request, F, E, L> Future for Worker<S, Request, F, E, L>
where
    Request: Drop,
    F: Steps + Drop,
    E: Clone,
    S: Service<Request, Error = E, Future = F>,
    L: Latch<Mail<Request, F, E>>,
{
    type Output = ();

    ghost can_poll = { λ w. S.sound w.service };

    ghost gives = { MayGive (Stepped L.gave S.Service) };

    ghost needs = { Needs L.source S.needs };

    #[tactic(auto, using(tower_base::specs::GivesLemmas::one_step))]
    fn poll(&mut self, cx: &mut Context<'_>) -> Poll<()>
        requires { S.sound self.old.service }
        ensures step { IsStep (Stepped L.gave S.Service) (λ w. S.sound w.service)
            (Needs L.source S.needs) self.old result self.new cx.old cx.new }
        ensures orderly { Orderly L.gave self.old result self.new }
        ensures woken { AnsweredOrWoken (Iteration L.gave S.Service)
            self.old result self.new cx.new.is_woken }
        ensures quiet { Quiet (Stirs L.gave S.Service L.stirs S.stirs self.old self.new)
            cx.old cx.new }
    {
        self.step(cx)
    }
}

impl<S, Request, F, E, L> Steps for Worker<S, Request, F, E, L>
where
    Request: Drop,
    F: Steps + Drop,
    E: Clone,
    S: Service<Request, Error = E, Future = F>,
    L: Latch<Mail<Request, F, E>>,
{
    type Output = ();

    ghost can_poll = { λ w. S.sound w.service };

    ghost needs = { Needs L.source S.needs };

    ghost stepped = { Stepped L.gave S.Service };

    ghost stirs = { Stirs L.gave S.Service L.stirs S.stirs };

    fn step(&mut self, cx: &mut Context<'_>) -> Poll<()>
        requires { S.sound self.old.service }
        ensures step { Stepped L.gave S.Service self.old result self.new }
        ensures woken { AnsweredOrWoken (Iteration L.gave S.Service)
            self.old result self.new cx.new.is_woken }
        ensures again { OnPending result (S.sound self.new.service) }
        ensures registered { OnPending result (Covers cx.new (Needs L.source S.needs self.new)) }
        ensures quiet { Quiet (Stirs L.gave S.Service L.stirs S.stirs self.old self.new)
            cx.old cx.new }
        ensures kept { Keeps cx.old cx.new }
    {
        self.iterate(cx)
    }
}
