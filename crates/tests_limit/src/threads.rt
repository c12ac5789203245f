//! Two threads over one line of permits. Its own service is one whose calls look for each other from two threads, which
//! those of `tests_support` can't, since their script stays in one.
ghost use Rattle.std.specs.Prelude.{⊤, IsSome};

use futures::executor::block_on;
use futures::future::{Future, Ready, ok};
use futures::task::{Context, Poll};
use std::alloc::{AllocError, AllocGlobal, Global};
use std::random::RandomSource;
use std::sync::atomic::{AtomicU64, Ordering};
use std::sync::{Arc, Wait};
use std::test::Fail;
use std::{io, thread};
use tests_support::checks::Checks;
use tests_support::run::{called, stepped, task};
use tower_base::service::Service;
use tower_latch::Latch;
use tower_limit::limit::ConcurrencyLimit;
use tower_limit::limit::concurrency::{LineCore, Permit, PollSemaphore, Semaphore};

// A permit that is not there yet.
#[derive(Drop)]
struct Acquire<L: Latch<LineCore>> {
    asking: PollSemaphore<L>,
}

impl<L: Latch<LineCore>> Future for Acquire<L> {
    type Output = Result<Permit<L>, AllocError>;

    fn poll(&mut self, cx: &mut Context<'_>) -> Poll<Result<Permit<L>, AllocError>> {
        self.asking.poll_acquire(cx)
    }
}

const ROUNDS: u32 = 100;

// Takes and gives a permit so many times, over any latch. It answers how often another was out beside it.
fn rounds<R, L>(rt: &R, semaphore: &Semaphore<L>, out: &AtomicU64) -> io::Result<u64>
where
    R: Wait + RandomSource + AllocGlobal,
    L: Latch<LineCore>,
{
    let mut others = 0u64;
    for _ in 0..ROUNDS {
        let asking = PollSemaphore::new(semaphore.share()?);
        let permit = block_on(rt, Acquire { asking })??;
        others = others.saturating_add(out.fetch_add(1, Ordering::SeqCst));
        thread::yield_now();
        out.fetch_sub(1, Ordering::SeqCst);
        drop(permit);
    }
    Ok(others)
}

#[test]
fn two_threads_one_permit(rt: HostRuntime) -> Result<(), Fail> {
    let checks = Checks::new(rt.alloc());
    let semaphore = Semaphore::new(rt, rt.alloc(), 1)?;
    let out = AtomicU64::new(0);
    let (first, second) = thread::join(
        &rt,
        || rounds(&rt, &semaphore, &out),
        || rounds(&rt, &semaphore, &out),
    );
    checks.same(&first?, &0);
    checks.same(&second?, &0);
    checks.same(&semaphore.available_permits(), &1);
    checks.verdict()
}

// Its call raises its flag and looks for the other's, for a while. The response is 1 if it was seen. A clone is the other.
#[derive(Drop)]
struct Meets {
    mine: Arc<AtomicU64, Global>,
    other: Arc<AtomicU64, Global>,
}

impl Clone for Meets {
    fn clone(&self) -> Result<Meets, AllocError> {
        Ok(Meets {
            mine: Arc::try_clone(&self.other)?,
            other: Arc::try_clone(&self.mine)?,
        })
    }
}

impl Service<u32> for Meets {
    type Response = u32;

    type Error = u32;

    type Future = Ready<Result<u32, u32>>;

    ghost ready = { λ _. ⊤ };

    ghost polled = { λ _ _ _. ⊤ };

    ghost called = { λ _ _ future _. IsSome future.0 };

    ghost readies = { λ _ _ _. tt };

    fn poll_ready(&mut self, _cx: &mut Context<'_>) -> Poll<Result<(), u32>> {
        Poll::Ready(Ok(()))
    }

    fn call(&mut self, request: u32) -> Ready<Result<u32, u32>> {
        self.mine.store(1, Ordering::SeqCst);
        for _ in 0..1_000_000_u32 {
            if self.other.load(Ordering::SeqCst) == 1 {
                return ok(request);
            }
            thread::yield_now();
        }
        ok(0)
    }
}

// One call, whose response is there at once.
fn work<S: Service<u32, Response = u32>>(rt: &HostRuntime, mut service: S) -> io::Result<bool>
    requires { S.sound service }
{
    let solo = task(rt)?;
    match called(&solo, &mut service, 1) {
        Some(mut response) => Ok(matches!(stepped(&solo, &mut response), Poll::Ready(Ok(1)))),
        None => Ok(false),
    }
}

#[test]
fn two_workers_meet(rt: HostRuntime) -> Result<(), Fail> {
    let checks = Checks::new(rt.alloc());
    let alloc = rt.alloc();
    let inner = Meets {
        mine: Arc::new(alloc, AtomicU64::new(0))?,
        other: Arc::new(alloc, AtomicU64::new(0))?,
    };
    let semaphore = Semaphore::new(rt, alloc, 2)?;
    let first = ConcurrencyLimit::with_semaphore(inner, semaphore.share()?);
    let second = first.clone()?;
    let (first, second) = thread::join(&rt, || work(&rt, first), || work(&rt, second));
    checks.holds(first?);
    checks.holds(second?);
    checks.same(&semaphore.available_permits(), &2);
    checks.verdict()
}
