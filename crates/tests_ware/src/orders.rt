//! The law of calls at whole streams: what their items came of. Its service is its own, since the law asks for one whose
//! readiness never fails.
ghost use Rattle.std.specs.Prelude.{◌≡◌, IfSome, IsSomeAnd, None, Some, false};
ghost use Rattle.std.specs.List.Sorted.{IsPermutation};
ghost use Rattle.tower_ware.specs.CallOrder.{CameOf, IsCalm, NeverFails, answers_of};
ghost use Rattle.tower_ware.specs.Queue.{Empty};

use futures::future::{Future, Ready, ready};
use futures::stream::{Stream, StreamExt};
use futures::task::{Context, Doorbell, Poll, Solo};
use std::alloc::Global;
use std::test::Fail;
use tower_base::service::{Flow, Service};
use tower_ware::util::CallAll;
use tower_ware::util::call_all::{Error, law};

// Doubles a number. So many polls of its readiness are pending.
#[derive(Drop)]
struct Doubling {
    busy: u8,
}

impl Service<u8> for Doubling {
    type Response = u8;

    type Error = u8;

    type Future = Ready<Result<u8, u8>>;

    ghost ready = { λ _. Unit {0} };

    ghost polled = { λ _ answer _. IsCalm answer };

    ghost called = { λ _ _ _ _. Unit {0} };

    ghost readies = { λ _ _ _. tt };

    fn poll_ready(&mut self, cx: &mut Context<'_>) -> Poll<Result<(), u8>> {
        if self.busy > 0 {
            self.busy -= 1;
            return cx.yield_now();
        }
        Poll::Ready(Ok(()))
    }

    fn call(&mut self, request: u8) -> Ready<Result<u8, u8>> {
        ready(Ok(request.wrapping_mul(2)))
    }
}

// The numbers that are left, and then the end.
#[derive(Drop)]
struct Numbers {
    next: u8,
    end: u8,
}

impl Stream for Numbers {
    type Item = u8;

    fn poll_next(&mut self, cx: &mut Context<'_>) -> Poll<Option<u8>> {
        self.flow(cx)
    }
}

impl Flow for Numbers {
    ghost flowed = { λ _ _ _. Unit {0} };

    fn flow(&mut self, _cx: &mut Context<'_>) -> Poll<Option<u8>> {
        if self.next >= self.end {
            return Poll::Ready(None);
        }
        self.next += 1;
        Poll::Ready(Some(self.next))
    }
}

// The items of a whole stream, if it comes to its end at one poll.
fn ordered<Svc, S>(
    alloc: Global,
    solo: &Solo,
    service: Svc,
    requests: S,
) -> Option<Vec<Result<Svc::Response, Error<Svc::Error>>>>
where
    Svc: Service<S::Item>,
    S: Flow,
    S::Item: Drop,
    requires sound { Svc.sound service }
    requires flow { S.can_poll requests }
    requires calm { NeverFails Svc.Service }
    ensures { IfSome result (λ items. CameOf Svc.Service S.Flow.own Svc.Future.Steps.own Svc.Future.can_poll (Some service) requests None (answers_of items.items)) }
{
    law::<Svc, S>();
    let mut all = CallAll::new(alloc, service, requests).collect(alloc);
    let mut cx = solo.begin();
    let answer = all.poll(&mut cx);
    cx.cancel();
    match answer {
        Poll::Ready(Ok(items)) => Some(items),
        _ => None,
    }
}

// The items of the rest of a stream, unordered, if it comes to its end at one poll.
fn unordered<Svc, S>(
    alloc: Global,
    solo: &Solo,
    calls: CallAll<Svc, S, Svc::Future, Result<Svc::Response, Svc::Error>, S::Item>,
) -> Option<Vec<Result<Svc::Response, Error<Svc::Error>>>>
where
    Svc: Service<S::Item>,
    S: Flow,
    S::Item: Drop,
    requires there { IsSomeAnd calls.service Svc.sound }
    requires flow { S.can_poll calls.requests }
    requires none { Empty calls.queue }
    requires goes { calls.ended ≡ false }
    requires calm { NeverFails Svc.Service }
    ensures { IfSome result (λ items. (answers : _) × CameOf Svc.Service S.Flow.own Svc.Future.Steps.own Svc.Future.can_poll calls.service calls.requests calls.kept answers × IsPermutation answers (answers_of items.items)) }
{
    law::<Svc, S>();
    let mut all = calls.unordered().collect(alloc);
    let mut cx = solo.begin();
    let answer = all.poll(&mut cx);
    cx.cancel();
    match answer {
        Poll::Ready(Ok(items)) => Some(items),
        _ => None,
    }
}

#[test]
fn items_of_a_whole_stream_are_the_answers_of_its_calls(rt: HostRuntime) -> Result<(), Fail> {
    let solo = Solo::new(&rt, Doorbell::spinning())?;
    let service = Doubling { busy: 0 };
    let Some(items) = ordered(rt.alloc(), &solo, service, Numbers { next: 0, end: 3 }) else {
        return Err(Fail::new("not over"));
    };
    assert_eq!(rt; items.as_slice(), [Ok(2), Ok(4), Ok(6)].as_slice());
    Ok(())
}

#[test]
fn kept_request_is_called_before_those_to_come(rt: HostRuntime) -> Result<(), Fail> {
    let solo = Solo::new(&rt, Doorbell::spinning())?;
    let mut calls = CallAll::new(
        rt.alloc(),
        Doubling { busy: 1 },
        Numbers { next: 0, end: 3 },
    );
    let mut cx = solo.begin();
    let first = calls.flow(&mut cx);
    cx.cancel();
    if !first.is_pending() || !calls.can_unorder() {
        return Err(Fail::new("not kept"));
    }
    let Some(items) = unordered(rt.alloc(), &solo, calls) else {
        return Err(Fail::new("not over"));
    };
    assert_eq!(rt; items.as_slice(), [Ok(2), Ok(4), Ok(6)].as_slice());
    Ok(())
}
