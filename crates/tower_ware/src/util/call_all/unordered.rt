//! A stream of calls that yields the answers as they come.
ghost use Rattle.std.specs.Prelude.{◌≡◌, IsSome, IsTrue, ◌↔◌, None, Some, false};
ghost use Rattle.tower_base.specs.Gives.{IsFlow, MayYield};
ghost use Rattle.tower_ware.specs.CallAll.{CallAllUnorderedCanFlow, CallAllUnorderedFlowed, CallAllUnorderedStirs, CallerView, New, view_of};
ghost use Rattle.tower_ware.specs.Queue.{Queue};

use crate::util::call_all::bag::Bag;
use crate::util::call_all::caller::Caller;
use crate::util::call_all::error::Error;
use futures::stream::Stream;
use futures::task::{Context, Poll};
use std::alloc::Global;
use std::marker::Model;
use tower_base::service::{Flow, Service};

/// A stream that calls a service with each request of another stream, and yields the answers as they come:
/// the Rust's `tower::util::CallAllUnordered`.
///
/// An error of the service's readiness is yielded at once and ends the requests; the answers of the
/// calls that were made are still yielded. After `Memory` the stream goes on. A poll makes at most 64
/// iterations; then it is pending and has woken its own task.
///
/// `F` and `R` are the service's future and the request.
#[derive(Drop)]
pub struct CallAllUnordered<Svc, S, F, R> {
    caller: Caller<Svc, S, Bag<F>, R>,
}

impl<Svc, S, F, R> Model for CallAllUnordered<Svc, S, F, R> {
    ghost Value = { CallerView Svc S (Queue F) R };

    ghost view = { λ c. view_of c.caller };
}

impl<Svc: Service<S::Item>, S: Flow> CallAllUnordered<Svc, S, Svc::Future, S::Item> {
    /// Creates a `CallAllUnordered`, which has no room for calls yet.
    pub fn new(
        alloc: Global,
        service: Svc,
        requests: S,
    ) -> CallAllUnordered<Svc, S, Svc::Future, S::Item>
        ensures { New (Some service) requests None result }
    {
        CallAllUnordered {
            caller: Caller::new(Some(service), requests, Bag::new(alloc), None),
        }
    }
}

impl<Svc, S, F, R> CallAllUnordered<Svc, S, F, R> {
    pub(crate) fn from_parts(
        service: Option<Svc>,
        requests: S,
        queue: Bag<F>,
        kept: Option<R>,
    ) -> CallAllUnordered<Svc, S, F, R>
        ensures { result ≡ record {
          service = service;
          requests = requests;
          queue = queue;
          ended = false;
          kept = kept;
        } }
    {
        CallAllUnordered {
            caller: Caller::new(service, requests, queue, kept),
        }
    }
}

impl<Svc: Drop, S: Drop, F: Drop, R: Drop> CallAllUnordered<Svc, S, F, R> {
    /// Returns `true` if the service wasn't taken out.
    pub fn has_service(&self) -> bool
        ensures { IsTrue result ↔ IsSome self.now.service }
    {
        self.caller.service.is_some()
    }

    /// Takes the service out and returns it. No poll may follow. Requires that the service wasn't taken
    /// out, which `has_service` tests.
    pub fn take_service(&mut self) -> Svc
        requires { IsSome self.old.service }
        ensures service { self.old.service ≡ Some result }
        ensures same { self.new ≡ record self.old { service = None } }
    {
        let Some(service) = self.caller.service.take() else {
            unreachable!()
        };
        service
    }

    /// Returns the service and drops all else. Requires that the service wasn't taken out, which
    /// `has_service` tests.
    pub fn into_inner(mut self) -> Svc
        requires { IsSome self.service }
        ensures { self.service ≡ Some result }
    {
        self.take_service()
    }
}

impl<Svc: Service<S::Item>, S: Flow> Stream for CallAllUnordered<Svc, S, Svc::Future, S::Item>
where
    S::Item: Drop,
{
    type Item = Result<Svc::Response, Error<Svc::Error>>;

    ghost can_poll = { CallAllUnorderedCanFlow Svc.sound Svc.Future.can_poll S.can_poll };

    ghost yields = { MayYield (CallAllUnorderedFlowed Svc.Service S.Flow.own Svc.Future.Steps.own
        Svc.Future.can_poll) };

    #[tactic(auto, using(tower_base::specs::GivesLemmas::one_flow))]
    fn poll_next(&mut self, cx: &mut Context<'_>) -> Poll<Option<Self::Item>>
        requires { CallAllUnorderedCanFlow Svc.sound Svc.Future.can_poll S.can_poll self.old }
        ensures { IsFlow (CallAllUnorderedFlowed Svc.Service S.Flow.own Svc.Future.Steps.own
            Svc.Future.can_poll) (CallAllUnorderedCanFlow Svc.sound Svc.Future.can_poll S.can_poll)
            (λ _ _. ⊥) self.old result self.new cx.old cx.new }
    {
        self.flow(cx)
    }
}

impl<Svc: Service<S::Item>, S: Flow> Flow for CallAllUnordered<Svc, S, Svc::Future, S::Item>
where
    S::Item: Drop,
{
    ghost flowed = { CallAllUnorderedFlowed Svc.Service S.Flow.own Svc.Future.Steps.own
        Svc.Future.can_poll };

    ghost stirs = { CallAllUnorderedStirs Svc.Service S.Flow.own Svc.Future.Steps.own
        Svc.Future.can_poll };

    fn flow(&mut self, cx: &mut Context<'_>) -> Poll<Option<Self::Item>> {
        self.caller.iterate(cx)
    }
}
