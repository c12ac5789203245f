//! Waiting on the calling thread, each time in a new `Waiter`. The Rust has no such functions: it waits by
//! `.await`.
ghost use Rattle.std.specs.Prelude.{IfOk, OnOk};
ghost use Rattle.tower.specs.Waits.{Waited, Answered, Each};

use crate::util::Waiter;
use futures::future::Future;
use std::alloc::AllocGlobal;
use std::io;
use std::random::RandomSource;
use std::sync::Wait;
use tower_base::service::Service;

/// Waits until a borrowed service is ready or returns an error, as `Waiter::block_on_ready` does: the Rust's
/// `service.ready().await`. Contracts know the service after an error too.
///
/// The outer error means that the executor failed. The service may have been polled then, but each poll was
/// pending.
pub fn block_on_ready<S, R, Request>(service: &mut S, rt: &R) -> io::Result<Result<(), S::Error>>
where
    S: Service<Request>,
    R: Wait + RandomSource + AllocGlobal,
    requires { S.sound service.old }
    ensures sound { S.sound service.new }
    ensures ready { IfOk result (λ answer. OnOk answer (S.ready service.new)) }
    ensures waited { IfOk result (λ answer. Waited S.Service service.old answer service.new) }
{
    Waiter::new(rt)?.block_on_ready(rt, service)
}

/// Waits until a borrowed service is ready, calls it once, and waits for the response, as
/// `Waiter::block_on_call` does: the Rust's `service.ready().await?.call(request).await`.
///
/// If readiness fails, its error is returned and no call is made. The outer error means that the executor
/// failed. The service may have been called then, and its response dropped.
pub fn block_on_call<S, R, Request>(
    service: &mut S,
    rt: &R,
    request: Request,
) -> io::Result<Result<S::Response, S::Error>>
where
    S: Service<Request>,
    R: Wait + RandomSource + AllocGlobal,
    Request: Drop,
    requires { S.sound service.old }
    ensures sound { S.sound service.new }
    ensures answered { IfOk result
        (λ answer. Answered S.Service S.Future.stepped service.old request answer service.new) }
{
    Waiter::new(rt)?.block_on_call(rt, service, request)
}

/// Calls a borrowed service with each of the requests, in order, as `Waiter::block_on_each` does. Passes each
/// answer to the closure before the next call, and goes on after an answer that is an error.
///
/// The outer error means that the executor failed. The later requests aren't made then.
pub fn block_on_each<S, R, Request: Drop, F>(
    service: &mut S,
    rt: &R,
    requests: Vec<Request>,
    each: F,
) -> io::Result<()>
where
    S: Service<Request>,
    R: Wait + RandomSource + AllocGlobal,
    F: FnMut(Result<S::Response, S::Error>) + Drop,
    requires sound { S.sound service.old }
    requires callable { F.IsAlwaysCallable each }
    ensures sound { S.sound service.new }
    ensures told { IfOk result (λ _. (last : F)
        × Each S.Service S.Future.stepped F.step requests.items service.old each service.new last) }
{
    Waiter::new(rt)?.block_on_each(rt, service, requests, each)
}

/// Polls a future on this thread until it is ready, as `Waiter::block_on` does. The `block_on` of `futures`
/// does so too, but doesn't sleep between polls over a clock that can't wake the task.
pub fn block_on<R, F>(rt: &R, future: F) -> io::Result<F::Output>
where
    R: Wait + RandomSource + AllocGlobal,
    F: Future,
    requires { F.can_poll future }
    ensures { IfOk result (F.gives future) }
{
    Waiter::new(rt)?.block_on(rt, future)
}
