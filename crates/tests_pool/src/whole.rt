//! `tower::spawn_ready` at concrete types: a closure, a wake-up. Its own service has no lifetime.

use futures::future::{Future, Pending, Ready, pending, ready};
use futures::task::{Context, Poll};
use std::alloc::AllocGlobal;
use std::random::RandomSource;
use std::sync::Wait;
use std::test::Fail;
use tests_support::run::{called, is_woken, stepped, task};
use tests_support::task_slot::{SlotRef, TaskSlot};
use tower_base::service::{Service, Steps};
use tower_latch::held::Viewed;
use tower_latch::{Guarded, Latch};
use tower_pool::spawn_ready::{Error, SlotCore, SpawnReady};
use tower_util::util::service_fn;

// What came of one call of a `SpawnReady`.
#[derive(Clone, Copy, PartialEq, Eq)]
enum Came {
    Answer(u8),
    /// It was pending, as its task was, and its drop woke that task or not.
    Dropped { is_woken: bool },
}

// (over any handle: at the concrete one the check of these lines takes minutes)
fn called_once<R, H, T>(rt: R, mut handle: H, slot: &TaskSlot<T>) -> Result<Came, Fail>
where
    R: RandomSource + AllocGlobal + Copy,
    H: Service<u8, Response = u8>,
    T: Steps<Output = ()>,
    requires { H.sound handle }
{
    let (here, there) = (task(&rt)?, task(&rt)?);
    if let Some(mut future) = called(&here, &mut handle, 3) {
        return match stepped(&here, &mut future) {
            Poll::Ready(Ok(answer)) => Ok(Came::Answer(answer)),
            _ => Err("no answer".into()),
        };
    }
    let mut job = slot.take().ok_or("a task")?.into_inner();
    if stepped(&there, &mut job).is_ready() || is_woken(&there) {
        return Err("the task is not pending".into());
    }
    drop(handle);
    Ok(Came::Dropped {
        is_woken: is_woken(&there),
    })
}

// What comes of a call of a `SpawnReady` over this service.
fn handled<R, S>(rt: R, service: S) -> Result<Came, Fail>
where
    R: Wait + RandomSource + AllocGlobal + Copy,
    S: Service<u8, Response = u8, Error = u8>,
    requires { S.sound service }
{
    let latch = Guarded::new(rt, rt.alloc(), SlotCore::new())?;
    over_latch(rt, service, latch)
}

fn over_latch<R, S, L>(rt: R, service: S, latch: L) -> Result<Came, Fail>
where
    R: RandomSource + AllocGlobal + Copy,
    S: Service<u8, Response = u8, Error = u8>,
    L: Latch<SlotCore<Viewed<S, u8>, u8>>,
    requires { S.sound service }
{
    let slot = TaskSlot::new();
    let handle = SpawnReady::with_latch(service, SlotRef::new(&slot), latch);
    called_once(rt, handle, &slot)
}

#[test]
fn closure_is_called(rt: HostRuntime) -> Result<(), Fail> {
    let more = 4u8;
    let service = service_fn(move |x: u8| ready(Ok::<u8, u8>(if x < more { x } else { more })));
    assert!(rt; handled(rt, service)? == Came::Answer(3));
    Ok(())
}

// Pending for ever. Nothing wakes who waits for it.
#[derive(Drop)]
struct Asleep {
    idle: Pending<()>,
}

impl Service<u8> for Asleep {
    type Response = u8;

    type Error = u8;

    type Future = Ready<Result<u8, u8>>;

    ghost readies = { λ _ _ _. tt };

    fn poll_ready(&mut self, cx: &mut Context<'_>) -> Poll<Result<(), u8>> {
        match self.idle.poll(cx) {
            Poll::Pending => Poll::Pending,
            Poll::Ready(()) => Poll::Ready(Ok(())),
        }
    }

    fn call(&mut self, request: u8) -> Ready<Result<u8, u8>> {
        ready(Ok(request))
    }
}

#[test]
fn abort_wakes_a_pending_task(rt: HostRuntime) -> Result<(), Fail> {
    let asleep = Asleep { idle: pending() };
    assert!(rt; handled(rt, asleep)? == Came::Dropped { is_woken: true });
    Ok(())
}

#[test]
fn texts(rt: HostRuntime) -> Result<(), Fail> {
    let alloc = rt.alloc();
    for (error, text) in [
        (Error::Inner(9u8), "9"),
        (Error::Memory, "out of memory"),
        (Error::Gone, "service is gone"),
        (Error::NotSpawned, "task was not spawned"),
    ] {
        assert_eq!(rt; format!(in alloc; "{error}")?.as_str(), text);
    }
    Ok(())
}
