//! Waiting on the calling thread, for one service or future after another, in one place.
ghost use Rattle.std.specs.Prelude.{IfOk, OnOk};
ghost use Rattle.futures.specs.Task.{IsArmed};
ghost use Rattle.tower.specs.Waits.{Waited, Answered, Each};

use futures::future::Future;
use futures::task::{Context, Doorbell, Poll, Queue};
use std::alloc::AllocGlobal;
use std::io;
use std::random::RandomSource;
use std::sync::{Condvar, Wait};
use std::time::Duration;
use tower_base::service::{Polled, Service};

/// How many microseconds a thread sleeps at first (`FIRST`), and at most (`LONGEST`), before it polls a task
/// again that was woken while it was polled.
const FIRST: u64 = 50;

const LONGEST: u64 = 1_000;

/// Waits on the calling thread, for one service or future after another: what the `block_on` of the
/// Rust's `tokio::runtime::Runtime` is there for, or the `run_until` of `futures::executor::LocalPool`.
///
/// It is made once. A wait then allocates nothing of its own and takes no random number, and a wait for
/// what is ready at once doesn't fail.
///
/// Between two polls the thread sleeps until a waker wakes it. A task that was woken while it was polled, as
/// by itself, is polled again at once. If it was woken in that poll too, the thread sleeps for 50 microseconds
/// before the next one, then twice as long each time, 1 millisecond at most, and may see a wake by another
/// thread that late. So it is over a clock that can't wake a task (`Clock::wake_at`), and if poll after poll
/// ends by `TURNS`.
#[derive(Drop)]
pub struct Waiter {
    // It has one task, which is queued between two waits.
    queue: Queue,
}

impl Waiter {
    /// Creates a waiter. It takes eight random bytes as its name. Returns an error if there is no random number
    /// or no memory.
    pub fn new<R: RandomSource + AllocGlobal>(rt: &R) -> io::Result<Waiter> {
        let queue = Queue::new(rt, Doorbell::parking())?;
        queue.add()?.schedule();
        // Leaves room for a mark.
        queue.add()?.cancel();
        Ok(Waiter { queue })
    }

    /// Waits until a borrowed service is ready or returns an error: the Rust's `service.ready().await`.
    ///
    /// The outer error means that the waiter failed, which it doesn't if it has memory. The service may have
    /// been polled then, but each poll was pending. The waiter may be used again.
    pub fn block_on_ready<S, R, Request>(
        &mut self,
        rt: &R,
        service: &mut S,
    ) -> io::Result<Result<(), S::Error>>
    where
        S: Service<Request>,
        R: Wait,
        requires { S.sound service.old }
        ensures sound { S.sound service.new }
        ensures ready { IfOk result (λ answer. OnOk answer (S.ready service.new)) }
        ensures waited { IfOk result (λ answer. Waited S.Service service.old answer service.new) }
    {
        let (cx, answer) = self.until_ready(rt, service)?;
        requeue(cx);
        Ok(answer)
    }

    /// Waits until a borrowed service is ready, calls it once, and waits for the response: the Rust's
    /// `service.ready().await?.call(request).await`.
    ///
    /// If readiness fails, its error is returned and no call is made. The outer error means that the waiter
    /// failed, which it doesn't if it has memory. The service may have been called then, and its response
    /// dropped.
    pub fn block_on_call<S, R, Request>(
        &mut self,
        rt: &R,
        service: &mut S,
        request: Request,
    ) -> io::Result<Result<S::Response, S::Error>>
    where
        S: Service<Request>,
        R: Wait,
        Request: Drop,
        requires { S.sound service.old }
        ensures sound { S.sound service.new }
        ensures answered { IfOk result
            (λ answer. Answered S.Service S.Future.stepped service.old request answer service.new) }
    {
        let (cx, ready) = self.until_ready(rt, service)?;
        match ready {
            Ok(()) => self.until_done(rt, cx, Polled::new(service.call(request))),
            Err(error) => {
                requeue(cx);
                Ok(Err(error))
            }
        }
    }

    /// Calls a borrowed service with each of the requests, in order, as `block_on_call` does. Passes each
    /// answer to the closure before the next call, and goes on after an answer that is an error.
    ///
    /// The outer error means that the waiter failed, which it doesn't if it has memory. The later requests
    /// aren't made then.
    pub fn block_on_each<S, R, Request: Drop, F>(
        &mut self,
        rt: &R,
        service: &mut S,
        requests: Vec<Request>,
        mut each: F,
    ) -> io::Result<()>
    where
        S: Service<Request>,
        R: Wait,
        F: FnMut(Result<S::Response, S::Error>) + Drop,
        requires sound { S.sound service.old }
        requires callable { F.IsAlwaysCallable each }
        ensures sound { S.sound service.new }
        ensures told { IfOk result (λ _. (last : F) × Each S.Service S.Future.stepped F.step
            requests.items service.old each service.new last) }
    {
        for request in requests {
            each(self.block_on_call(rt, service, request)?);
        }
        Ok(())
    }

    /// Polls a future until it is ready: the Rust's `tokio::runtime::Runtime::block_on`.
    ///
    /// The error means that the waiter failed, which it doesn't if it has memory. The future is dropped then.
    pub fn block_on<R, F>(&mut self, rt: &R, future: F) -> io::Result<F::Output>
    where
        R: Wait,
        F: Future,
        requires { F.can_poll future }
        ensures { IfOk result (F.gives future) }
    {
        let cx = self.begin(rt)?;
        self.until_done(rt, cx, future)
    }

    // Begins the next poll of the task, once it is queued.
    fn begin<R: Wait>(&self, rt: &R) -> io::Result<Context<'_>> {
        match self.queue.next(rt) {
            Some(cx) => Ok(cx),
            None => Err(io::Error::other("the executor was shut down")),
        }
    }

    // Returns the answer within the poll that found it, which the caller ends.
    fn until_ready<S, R, Request>(
        &self,
        rt: &R,
        service: &mut S,
    ) -> io::Result<(Context<'_>, Result<(), S::Error>)>
    where
        S: Service<Request>,
        R: Wait,
        requires { S.sound service.old }
        ensures sound { S.sound service.new }
        ensures ready { IfOk result (λ r. OnOk r.1 (S.ready service.new)) }
        ensures waited { IfOk result (λ r. Waited S.Service service.old r.1 service.new) }
    {
        let mut nap = 0;
        for _ in rt.forever() {
            let mut cx = self.begin(rt)?;
            match service.poll_ready(&mut cx) {
                Poll::Ready(answer) => return Ok((cx, answer)),
                Poll::Pending => nap = self.rest(rt, cx, nap)?,
            }
        }
        unreachable!()
    }

    // The first poll of the future is a part of the poll that the context stands for.
    fn until_done<'q, R, F>(
        &'q self,
        rt: &R,
        mut cx: Context<'q>,
        mut future: F,
    ) -> io::Result<F::Output>
    where
        R: Wait,
        F: Future,
        requires { F.can_poll future }
        ensures { IfOk result (F.gives future) }
    {
        let mut nap = 0;
        for _ in rt.forever() {
            match future.poll(&mut cx) {
                Poll::Ready(output) => {
                    requeue(cx);
                    return Ok(output);
                }
                Poll::Pending => nap = self.rest(rt, cx, nap)?,
            }
            cx = self.begin(rt)?;
        }
        unreachable!()
    }

    // Ends a poll that was pending. If the task is queued again already, because it was woken during the poll,
    // the thread sleeps for `nap` microseconds. Returns how long to sleep next.
    fn rest<R: Wait>(&self, rt: &R, cx: Context<'_>, nap: u64) -> io::Result<u64>
        requires { IsArmed cx }
    {
        // What was queued first runs first, so the mark comes first only if the task isn't queued.
        let mark = match self.queue.add() {
            Ok(mark) => mark,
            Err(error) => {
                requeue(cx);
                return Err(io::Error::from(error));
            }
        };
        let number = mark.task();
        cx.park();
        mark.schedule();
        let first = self.begin(rt)?;
        if first.task() == number {
            first.cancel();
            return Ok(0);
        }
        requeue(first);
        self.begin(rt)?.cancel();
        if nap > 0 {
            let bell = Condvar::new();
            bell.sleep(rt, bell.notifications(), Duration::from_micros(nap));
        }
        Ok(nap.saturating_mul(2).clamp(FIRST, LONGEST))
    }
}

// Ends a poll, and has the task polled again next.
fn requeue(mut cx: Context<'_>) {
    let _pending: Poll<()> = cx.yield_now();
    cx.park();
}
