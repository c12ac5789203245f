//! Constructors, layers and texts. Its own service has no lifetime: the kit's borrow checker covers no `Buffer` whose futures have one.
ghost use Rattle.std.specs.Prelude.{◌≡◌, ◌<◌, IfOk};

use futures::future::Ready;
use futures::task::Poll;
use std::alloc::{AllocError, AllocGlobal};
use std::process::Abort;
use std::random::RandomSource;
use std::sync::Wait;
use std::test::Fail;
use tests_support::checks::Checks;
use tests_support::echo::Echo;
use tests_support::run::{called, polled, stepped, task};
use tests_support::task_slot::TaskSlot;
use tower_base::layer::Layer;
use tower_base::service::{Service, Steps};
use tower_buffer::buffer::error::{Closed, ServiceError};
use tower_buffer::buffer::{Buffer, BufferLayer, Error, MailCore};
use tower_latch::Guarded;
use tower_latch::held::Pollable;

type Told = Buffer<
    u8,
    Ready<Result<u8, u8>>,
    u8,
    Guarded<MailCore<u8, Pollable<Ready<Result<u8, u8>>>, u8>, HostRuntime>,
>;

#[test]
fn errors_have_texts(rt: HostRuntime) -> Result<(), Fail> {
    let inner: Error<&str> = Error::Inner("boom");
    let failed: Error<&str> = Error::Service(ServiceError { error: "boom" });
    let (closed, memory, back): (Error<u8>, Error<u8>, Error<u8>) = (
        Error::Closed,
        Error::Memory,
        Error::NotSpawned,
    );
    let text = format!(in rt.alloc(); "{inner}; {failed}; {closed}; {Closed}; {memory}; {back}")?;
    assert_eq!(rt;
        text.as_str(),
        "boom; buffered service failed: boom; buffer's worker closed unexpectedly; \
         buffer's worker closed unexpectedly; out of memory; task was not spawned"
    );
    Ok(())
}

// One answer from a `Buffer` and its worker, which ends once the `Buffer` is gone.
fn answers<R, B, W>(rt: R, mut buffer: B, worker: W) -> Result<(), Fail>
where
    R: Wait + Abort + RandomSource + AllocGlobal + Copy,
    B: Service<u8, Response = u8, Error = Error<u8>>,
    W: Steps<Output = ()>,
    requires buffer { B.sound buffer }
    requires worker { W.can_poll worker }
{
    let checks = Checks::new(rt.alloc());
    let solo = task(&rt)?;
    let mut worker = worker;
    let mut response = called(&solo, &mut buffer, 7).ok_or("a place")?;
    if stepped(&solo, &mut worker).is_ready() {
        return Err("the worker has ended".into());
    }
    checks.same(&stepped(&solo, &mut response), &Poll::Ready(Ok(7)));
    drop(buffer);
    checks.holds(stepped(&solo, &mut worker).is_ready());
    checks.verdict()
}

// Without its worker a `Buffer` is closed.
fn is_closed<R, B>(rt: R, mut buffer: B) -> Result<(), Fail>
where
    R: Abort + RandomSource + AllocGlobal + Copy,
    B: Service<u8, Response = u8, Error = Error<u8>>,
    requires { B.sound buffer }
{
    let solo = task(&rt)?;
    assert_eq!(rt; polled(&solo, &mut buffer), Poll::Ready(Err(Error::Closed)));
    Ok(())
}

// With it there is a place.
fn is_open<R, B>(rt: R, mut buffer: B) -> Result<(), Fail>
where
    R: Abort + RandomSource + AllocGlobal + Copy,
    B: Service<u8, Response = u8, Error = Error<u8>>,
    requires { B.sound buffer }
{
    let solo = task(&rt)?;
    assert_eq!(rt; polled(&solo, &mut buffer), Poll::Ready(Ok(())));
    Ok(())
}

// So many clones ask for a place.
const CLONES: usize = 1501;

// So many clones have a place at once, and no more, `CLONES` at most.
fn places<R, B>(rt: R, buffer: B) -> Result<usize, Fail>
where
    R: RandomSource + AllocGlobal + Copy,
    B: Service<u8, Response = u8, Error = Error<u8>> + Clone,
    requires sound { B.sound buffer }
    requires clones { (x y : B) → B.is_clone x y → B.sound x → B.sound y }
{
    let solo = task(&rt)?;
    let mut ready: Vec<B> = Vec::new(rt.alloc());
    for place in 0..CLONES {
        let mut copy = buffer.clone()?;
        if polled(&solo, &mut copy) != Poll::Ready(Ok(())) {
            return Ok(place);
        }
        ready.push(copy)?;
    }
    Ok(CLONES)
}

// A buffer has so many places, and its worker answers.
fn holds<R, B, W>(rt: R, buffer: B, worker: W, bound: usize) -> Result<(), Fail>
where
    R: Wait + Abort + RandomSource + AllocGlobal + Copy,
    B: Service<u8, Response = u8, Error = Error<u8>> + Clone,
    W: Steps<Output = ()>,
    requires buffer { B.sound buffer }
    requires clones { (x y : B) → B.is_clone x y → B.sound x → B.sound y }
    requires worker { W.can_poll worker }
{
    let copy = buffer.clone()?;
    assert_eq!(rt; places(rt, copy)?, bound.min(CLONES));
    answers(rt, buffer, worker)
}

// What two buffers of so many places came to that were made with one slot.
fn spawned<R, B, W>(
    rt: R,
    slot: TaskSlot<W>,
    first: Result<B, Error<u8>>,
    second: Result<B, Error<u8>>,
    bound: usize,
) -> Result<(), Fail>
where
    R: Wait + Abort + RandomSource + AllocGlobal + Copy,
    B: Service<u8, Response = u8, Error = Error<u8>> + Clone,
    W: Steps<Output = ()>,
    requires sound { IfOk first B.sound }
    requires clones { (x y : B) → B.is_clone x y → B.sound x → B.sound y }
{
    assert!(rt; matches!(second, Err(Error::NotSpawned)));
    let worker = slot.take().ok_or("a worker")?;
    let buffer = first.map_err(|_| "no buffer")?;
    holds(rt, buffer, worker.into_inner(), bound)
}

// What a layer with a slot makes.
fn layered<R, B, Y>(rt: R, layer: Y, bound: usize) -> Result<(), Fail>
where
    R: Wait + Abort + RandomSource + AllocGlobal + Copy,
    B: Service<u8, Response = u8, Error = Error<u8>> + Clone,
    Y: Layer<Echo, Service = B> + Clone,
    requires can_layer { (y : Y) (s : Echo) → Y.can_layer y s }
    requires sound { (y : Y) (s : Echo) (b : B) → Y.made y s b → B.sound b }
    requires clones { (x y : B) → B.is_clone x y → B.sound x → B.sound y }
{
    let first = layer.layer(Echo)?;
    // The slot is taken, but not the clone's.
    let second = layer.layer(Echo)?;
    let copy = layer.clone()?;
    let third = copy.layer(Echo)?;
    is_closed(rt, second)?;
    assert_eq!(rt; places(rt, first)?, bound.min(CLONES));
    assert_eq!(rt; places(rt, third)?, bound.min(CLONES));
    Ok(())
}

// What a layer makes whose executor gives the first worker back: a layer that asked again would leave the second one closed.
fn reluctantly<R, B, Y>(rt: R, layer: Y) -> Result<(), Fail>
where
    R: Wait + Abort + RandomSource + AllocGlobal + Copy,
    B: Service<u8, Response = u8, Error = Error<u8>>,
    Y: Layer<Echo, Service = B> + Drop,
    requires can_layer { (y : Y) (s : Echo) → Y.can_layer y s }
    requires sound { (y : Y) (s : Echo) (b : B) → Y.made y s b → B.sound b }
{
    let first = layer.layer(Echo)?;
    let second = layer.layer(Echo)?;
    is_closed(rt, first)?;
    is_open(rt, second)
}

fn pair_holds<R>(rt: R, bound: usize) -> Result<(), Fail>
where
    R: Wait + Abort + RandomSource + AllocGlobal + Copy,
    requires { 0 < bound }
{
    match Buffer::pair(rt, rt.alloc(), Echo, bound) {
        Ok((buffer, worker)) => holds(rt, buffer, worker, bound),
        Err(AllocError) => Err("no pair".into()),
    }
}

fn new_holds<R>(rt: R, bound: usize) -> Result<(), Fail>
where
    R: Wait + Abort + RandomSource + AllocGlobal + Copy,
    requires { 0 < bound }
{
    let slot = TaskSlot::new();
    let first = Buffer::new(rt, rt.alloc(), Echo, bound, &slot);
    // The slot is taken.
    let second = Buffer::new(rt, rt.alloc(), Echo, bound, &slot);
    spawned(rt, slot, first, second, bound)
}

// (One function for both slots: a `Buffer` of a named executor costs the check a minute each time.)
fn layer_holds<R>(rt: R, bound: usize, is_reluctant: bool) -> Result<(), Fail>
where
    R: Wait + Abort + RandomSource + AllocGlobal + Copy,
    requires { 0 < bound }
{
    let slot = if is_reluctant {
        TaskSlot::reluctant()
    } else {
        TaskSlot::new()
    };
    let layer = BufferLayer::new(rt, rt.alloc(), bound, slot);
    if is_reluctant {
        return reluctantly(rt, layer);
    }
    layered(rt, layer, bound)
}

#[test]
fn a_layer_spawns_a_worker_once(rt: HostRuntime) -> Result<(), Fail> {
    layer_holds(rt, 1, true)
}

#[test]
fn each_constructor_makes_so_many_places_and_one_worker(rt: HostRuntime) -> Result<(), Fail> {
    for bound in [1usize, 2, 3, 1500, 4_294_967_296, usize::MAX] {
        pair_holds(rt, bound)?;
        new_holds(rt, bound)?;
        layer_holds(rt, bound, false)?;
    }
    Ok(())
}

#[test]
fn a_bound_is_not_0(rt: HostRuntime) -> Result<(), Fail> {
    for (bound, fits) in [(0usize, false), (1, true), (2, true), (usize::MAX, true)] {
        assert_eq!(rt; Told::fits(bound), fits);
    }
    Ok(())
}

#[test]
fn errors_have_clones(rt: HostRuntime) -> Result<(), Fail> {
    let failed = Error::Service(ServiceError { error: 5u8 });
    for error in [
        Error::Inner(5u8),
        failed,
        Error::Closed,
        Error::Memory,
        Error::NotSpawned,
    ] {
        assert!(rt; error.clone()? == error);
    }
    Ok(())
}
