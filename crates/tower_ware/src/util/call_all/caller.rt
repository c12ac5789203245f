//! What both streams of calls have in common.
ghost use Rattle.std.specs.Prelude.{◌≡◌, IsSomeAnd, IfSome, false};
ghost use Rattle.futures.specs.Task.{IsArmed, Keeps};
ghost use Rattle.futures.specs.Poll.{OnPending};
ghost use Rattle.tower_base.specs.Quiet.{Quiet};
ghost use Rattle.tower_ware.specs.CallAll.{Called, Flowed, GoesOn, GoingOnStirs, Iteration, ServiceStirs, Stirs, StirsOnce, view_of};
ghost use Rattle.tower_base.specs.LastIteration.{AnsweredOrWoken};

use crate::util::call_all::call_queue::CallQueue;
use crate::util::call_all::error::Error;
use futures::task::{Context, Poll};
use tower_base::iterations::TURNS;
use tower_base::service::{Flow, Service};

type Answer<A, E> = Poll<Option<Result<A, Error<E>>>>;

/// A service, the requests to come, and the calls: the Rust's `common::CallAll`.
#[derive(Drop)]
pub struct Caller<Svc, S, Q, R> {
    pub service: Option<Svc>,
    pub requests: S,
    pub queue: Q,
    pub ended: bool,
    pub kept: Option<R>,
}

impl<Svc, S, Q, R> Caller<Svc, S, Q, R> {
    pub fn new(service: Option<Svc>, requests: S, queue: Q, kept: Option<R>) -> Caller<Svc, S, Q, R>
        ensures { result ≡ record {
          service = service;
          requests = requests;
          queue = queue;
          ended = false;
          kept = kept;
        } }
    {
        Caller {
            service,
            requests,
            queue,
            ended: false,
            kept,
        }
    }
}

impl<Svc, S, Q> Caller<Svc, S, Q, S::Item>
where
    Svc: Service<S::Item>,
    S: Flow,
    S::Item: Drop,
    Q: CallQueue<Result<Svc::Response, Svc::Error>, Svc::Future>,
{
    // Makes room in the queue, polls the service, and calls it with the request if it is ready.
    // Otherwise keeps the request.
    fn call(
        &mut self,
        request: S::Item,
        cx: &mut Context<'_>,
    ) -> Option<Answer<Svc::Response, Svc::Error>>
        requires there { IsSomeAnd self.old.service Svc.sound }
        requires queue { Q.sound self.old.queue }
        requires flow { S.can_poll self.old.requests }
        requires goes { self.old.ended ≡ false }
        ensures call { Called Svc.Service S.Flow.own Q.CallQueue
            (record (view_of self.old) { kept = None }) request result (view_of self.new) }
        ensures there { IsSomeAnd self.new.service Svc.sound }
        ensures queue { Q.sound self.new.queue }
        ensures flow { S.can_poll self.new.requests }
        ensures armed { IfSome result (λ answer. OnPending answer (IsArmed cx.new)) }
        ensures quiet { Quiet (ServiceStirs Svc.Service S.Flow.own Q.CallQueue self.old.service)
            cx.old cx.new }
        ensures kept { Keeps cx.old cx.new }
    {
        let Some(service) = &mut self.service else {
            unreachable!()
        };
        if self.queue.reserve().is_err() {
            self.kept = Some(request);
            return Some(Poll::Ready(Some(Err(Error::Memory))));
        }
        match service.poll_ready(cx) {
            Poll::Pending => {
                self.kept = Some(request);
                Some(Poll::Pending)
            }
            Poll::Ready(Err(error)) => {
                self.kept = Some(request);
                self.ended = true;
                Some(Poll::Ready(Some(Err(Error::Inner(error)))))
            }
            Poll::Ready(Ok(())) => {
                self.queue.push(service.call(request));
                self.kept = None;
                None
            }
        }
    }

    // Iterates on if the queue has no answer to yield: with the kept request, the next one, or the end.
    fn go_on(&mut self, cx: &mut Context<'_>) -> Option<Answer<Svc::Response, Svc::Error>>
        requires there { IsSomeAnd self.old.service Svc.sound }
        requires queue { Q.sound self.old.queue }
        requires flow { self.old.ended ≡ false → S.can_poll self.old.requests }
        requires armed { ¬ (Q.empty self.old.queue) → IsArmed cx.old }
        ensures goes { GoesOn Svc.Service S.Flow.own Q.CallQueue self.old.ended self.old.kept
            (view_of self.old) result (view_of self.new) }
        ensures there { IsSomeAnd self.new.service Svc.sound }
        ensures queue { Q.sound self.new.queue }
        ensures flow { self.new.ended ≡ false → S.can_poll self.new.requests }
        ensures armed { IfSome result (λ answer. OnPending answer (IsArmed cx.new)) }
        ensures quiet { Quiet (GoingOnStirs Svc.Service S.Flow.own Q.CallQueue self.old.ended
            self.old.kept (view_of self.old)) cx.old cx.new }
        ensures kept { Keeps cx.old cx.new }
    {
        if self.ended {
            if self.queue.is_empty() {
                return Some(Poll::Ready(None));
            }
            return Some(Poll::Pending);
        }
        if let Some(request) = self.kept.take() {
            return self.call(request, cx);
        }
        match self.requests.flow(cx) {
            Poll::Pending => Some(Poll::Pending),
            Poll::Ready(None) => {
                self.ended = true;
                None
            }
            Poll::Ready(Some(request)) => self.call(request, cx),
        }
    }

    // Makes one iteration. Returns the answer of the poll, or `None` if another iteration follows.
    fn iterate_once(&mut self, cx: &mut Context<'_>) -> Option<Answer<Svc::Response, Svc::Error>>
        requires there { IsSomeAnd self.old.service Svc.sound }
        requires queue { Q.sound self.old.queue }
        requires flow { self.old.ended ≡ false → S.can_poll self.old.requests }
        ensures iteration { Iteration Svc.Service S.Flow.own Q.CallQueue (view_of self.old)
            result (view_of self.new) }
        ensures there { IsSomeAnd self.new.service Svc.sound }
        ensures queue { Q.sound self.new.queue }
        ensures flow { self.new.ended ≡ false → S.can_poll self.new.requests }
        ensures armed { IfSome result (λ answer. OnPending answer (IsArmed cx.new)) }
        ensures quiet { Quiet (StirsOnce Svc.Service S.Flow.own Q.CallQueue (view_of self.old))
            cx.old cx.new }
        ensures kept { Keeps cx.old cx.new }
    {
        match self.queue.poll(cx) {
            Poll::Ready(Some(Ok(response))) => Some(Poll::Ready(Some(Ok(response)))),
            Poll::Ready(Some(Err(error))) => Some(Poll::Ready(Some(Err(Error::Inner(error))))),
            Poll::Ready(None) => self.go_on(cx),
            Poll::Pending => self.go_on(cx),
        }
    }

    // Makes iterations up to an answer, but at most `TURNS`; then it is pending and has woken its own task.
    pub fn iterate(&mut self, cx: &mut Context<'_>) -> Answer<Svc::Response, Svc::Error>
        requires there { IsSomeAnd self.old.service Svc.sound }
        requires queue { Q.sound self.old.queue }
        requires flow { self.old.ended ≡ false → S.can_poll self.old.requests }
        ensures flowed { Flowed Svc.Service S.Flow.own Q.CallQueue (view_of self.old)
            result (view_of self.new) }
        ensures woken { AnsweredOrWoken (Iteration Svc.Service S.Flow.own Q.CallQueue)
            (view_of self.old) result (view_of self.new) cx.new.is_woken }
        ensures there { IsSomeAnd self.new.service Svc.sound }
        ensures queue { Q.sound self.new.queue }
        ensures flow { self.new.ended ≡ false → S.can_poll self.new.requests }
        ensures armed { OnPending result (IsArmed cx.new) }
        ensures quiet { Quiet (Stirs Svc.Service S.Flow.own Q.CallQueue (view_of self.old)
            (view_of self.new)) cx.old cx.new }
        ensures kept { Keeps cx.old cx.new }
    {
        for _iteration in 0..TURNS {
            if let Some(answer) = self.iterate_once(cx) {
                return answer;
            }
        }
        cx.yield_now()
    }
}
