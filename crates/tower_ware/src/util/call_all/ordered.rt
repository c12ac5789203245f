//! A stream of calls that yields the answers in the order of the requests.
ghost use Rattle.std.specs.Prelude.{◌≡◌, IsSome, IsTrue, ◌↔◌, None, Some, false};
ghost use Rattle.tower_base.specs.Gives.{IsFlow, MayYield};
ghost use Rattle.tower_ware.specs.CallAll.{CallAllCanFlow, CallAllFlowed, CallAllStirs, CallerView, New, view_of};
ghost use Rattle.tower_ware.specs.declared.util.call_all.slot.Slot.{Slot};
ghost use Rattle.tower_ware.specs.Queue.{Empty, Queue};

use crate::util::call_all::bag::Bag;
use crate::util::call_all::caller::Caller;
use crate::util::call_all::error::Error;
use crate::util::call_all::line::Line;
use crate::util::call_all::unordered::CallAllUnordered;
use futures::stream::Stream;
use futures::task::{Context, Poll};
use std::alloc::Global;
use std::marker::Model;
use tower_base::service::{Flow, Service};

/// A stream that calls a service with each request of another stream, and yields the answers in the
/// order of the requests: the Rust's `tower::util::CallAll`.
///
/// An error of the service's readiness is yielded at once and ends the requests; the answers of the
/// calls that were made are still yielded. After `Memory` the stream goes on. A poll makes at most 64
/// iterations; then it is pending and has woken its own task.
///
/// `F`, `T` and `R` are the service's future, its answer and the request.
#[derive(Drop)]
pub struct CallAll<Svc, S, F, T, R> {
    caller: Caller<Svc, S, Line<F, T>, R>,
}

impl<Svc, S, F, T, R> Model for CallAll<Svc, S, F, T, R> {
    ghost Value = { CallerView Svc S (Queue (Slot F T)) R };

    ghost view = { λ c. view_of c.caller };
}

impl<Svc: Service<S::Item>, S: Flow> CallAll<
    Svc,
    S,
    Svc::Future,
    Result<Svc::Response, Svc::Error>,
    S::Item,
> {
    /// Creates a `CallAll`, which has no room for calls yet.
    pub fn new(
        alloc: Global,
        service: Svc,
        requests: S,
    ) -> CallAll<Svc, S, Svc::Future, Result<Svc::Response, Svc::Error>, S::Item>
        ensures { New (Some service) requests None result }
    {
        CallAll {
            caller: Caller::new(Some(service), requests, Line::new(alloc), None),
        }
    }
}

impl<Svc: Drop, S: Drop, F: Drop, T: Drop, R: Drop> CallAll<Svc, S, F, T, R> {
    /// Returns `true` if the service wasn't taken out.
    pub fn has_service(&self) -> bool
        ensures { IsTrue result ↔ IsSome self.now.service }
    {
        self.caller.service.is_some()
    }

    /// Takes the service out and returns it. No poll may follow. Requires that the service wasn't taken
    /// out, which `has_service` tests.
    pub fn take_service(&mut self) -> Svc
        requires { IsSome self.old.service }
        ensures service { self.old.service ≡ Some result }
        ensures same { self.new ≡ record self.old { service = None } }
    {
        let Some(service) = self.caller.service.take() else {
            unreachable!()
        };
        service
    }

    /// Returns the service and drops all else. Requires that the service wasn't taken out, which
    /// `has_service` tests.
    pub fn into_inner(mut self) -> Svc
        requires { IsSome self.service }
        ensures { self.service ≡ Some result }
    {
        self.take_service()
    }

    /// Returns `true` if the answer of each call was yielded and the requests haven't ended.
    pub fn can_unorder(&self) -> bool
        ensures { IsTrue result ↔ (Empty self.now.queue × (self.now.ended ≡ false)) }
    {
        self.caller.queue.is_clear() && !self.caller.ended
    }

    /// Returns a stream of the same calls that yields the answers as they come. A request that was taken
    /// but not called yet is passed on. Requires that the answer of each call was yielded and that the
    /// requests haven't ended, which `can_unorder` tests.
    pub fn unordered(self) -> CallAllUnordered<Svc, S, F, R>
        requires none { Empty self.queue }
        requires goes { self.ended ≡ false }
        ensures { New self.service self.requests self.kept result }
    {
        let bag = Bag::new(self.caller.queue.allocator());
        CallAllUnordered::from_parts(
            self.caller.service,
            self.caller.requests,
            bag,
            self.caller.kept,
        )
    }
}

impl<Svc: Service<S::Item>, S: Flow> Stream
    for CallAll<Svc, S, Svc::Future, Result<Svc::Response, Svc::Error>, S::Item>
where
    S::Item: Drop,
{
    type Item = Result<Svc::Response, Error<Svc::Error>>;

    ghost can_poll = { CallAllCanFlow Svc.sound Svc.Future.can_poll S.can_poll };

    ghost yields = { MayYield (CallAllFlowed Svc.Service S.Flow.own Svc.Future.Steps.own
        Svc.Future.can_poll) };

    #[tactic(auto, using(tower_base::specs::GivesLemmas::one_flow))]
    fn poll_next(&mut self, cx: &mut Context<'_>) -> Poll<Option<Self::Item>>
        requires { CallAllCanFlow Svc.sound Svc.Future.can_poll S.can_poll self.old }
        ensures { IsFlow (CallAllFlowed Svc.Service S.Flow.own Svc.Future.Steps.own
            Svc.Future.can_poll) (CallAllCanFlow Svc.sound Svc.Future.can_poll S.can_poll)
            (λ _ _. ⊥) self.old result self.new cx.old cx.new }
    {
        self.flow(cx)
    }
}

impl<Svc: Service<S::Item>, S: Flow> Flow
    for CallAll<Svc, S, Svc::Future, Result<Svc::Response, Svc::Error>, S::Item>
where
    S::Item: Drop,
{
    ghost flowed = { CallAllFlowed Svc.Service S.Flow.own Svc.Future.Steps.own
        Svc.Future.can_poll };

    ghost stirs = { CallAllStirs Svc.Service S.Flow.own Svc.Future.Steps.own
        Svc.Future.can_poll };

    fn flow(&mut self, cx: &mut Context<'_>) -> Poll<Option<Self::Item>> {
        self.caller.iterate(cx)
    }
}
