//! Eight callers over one buffer, whose worker is dropped in the middle. Its service makes each call with a permit of a limit,
//! of which the callers take permits too.
//!
//! The service keeps its permits, and its responses are `Ready`: the kit's borrow checker covers no thread that gets a buffer
//! whose response type has a parameter.

use crate::counted::{Counted, Places};
use futures::future::{Future, Ready, ok};
use futures::task::{Context, Poll};
use std::alloc::{AllocError, AllocGlobal, Global};
use std::random::RandomSource;
use std::sync::atomic::{AtomicU64, Ordering};
use std::sync::{Arc, Wait};
use std::test::Fail;
use std::thread::Threads;
use std::{io, thread};
use tests_support::checks::Checks;
use tower::util::{block_on, block_on_call, block_on_ready};
use tower_base::service::{Polled, Service, Steps};
use tower_buffer::buffer::{Buffer, Error, MailCore, Worker};
use tower_latch::held::Pollable;
use tower_latch::{Guarded, Latch};
use tower_limit::limit::concurrency::{LineCore, Permit, PollSemaphore, Semaphore};

const CALLERS: u64 = 8;

// So many calls of each.
const CALLS: u64 = 1000;

// After so many calls the worker is dropped.
const SERVED: u64 = 4000;

const PERMITS: usize = 2;

// Answers with three times the request, and counts its calls. Each call takes a permit, which is kept until the next call.
#[derive(Drop)]
struct Triple<K: Latch<LineCore>> {
    calls: Arc<AtomicU64, Global>,
    asking: PollSemaphore<K>,
    permit: Option<Permit<K>>,
    last: Option<Permit<K>>,
}

impl<K: Latch<LineCore>> Triple<K> {
    fn new(calls: Arc<AtomicU64, Global>, semaphore: Semaphore<K>) -> Triple<K> {
        Triple {
            calls,
            asking: PollSemaphore::new(semaphore),
            permit: None,
            last: None,
        }
    }
}

impl<K: Latch<LineCore>> Service<u64> for Triple<K> {
    type Response = u64;

    type Error = AllocError;

    type Future = Response;

    ghost readies = { λ _ _ _. tt };

    fn poll_ready(&mut self, cx: &mut Context<'_>) -> Poll<Result<(), AllocError>> {
        if self.permit.is_some() {
            return Poll::Ready(Ok(()));
        }
        match self.asking.poll_acquire(cx) {
            Poll::Ready(Ok(permit)) => {
                self.permit = Some(permit);
                Poll::Ready(Ok(()))
            }
            Poll::Ready(Err(error)) => Poll::Ready(Err(error)),
            Poll::Pending => Poll::Pending,
        }
    }

    fn call(&mut self, request: u64) -> Response {
        self.calls.fetch_add(1, Ordering::SeqCst);
        self.last = self.permit.take();
        ok(request.wrapping_mul(3))
    }
}

type Response = Ready<Result<u64, AllocError>>;

type Mail = MailCore<u64, Pollable<Response>, AllocError>;

type Front<L> = Buffer<u64, Response, AllocError, L>;

type Back<K, L> = Worker<Triple<K>, u64, Response, AllocError, L>;

// A permit that isn't there yet.
#[derive(Drop)]
struct Acquire<K: Latch<LineCore>> {
    asking: PollSemaphore<K>,
}

impl<K: Latch<LineCore>> Future for Acquire<K> {
    type Output = Result<Permit<K>, AllocError>;

    fn poll(&mut self, cx: &mut Context<'_>) -> Poll<Result<Permit<K>, AllocError>> {
        self.asking.poll_acquire(cx)
    }
}

// Whether an error says that the buffer is closed.
trait IsClosed {
    fn is_closed(&self) -> bool;
}

impl<E> IsClosed for Error<E> {
    fn is_closed(&self) -> bool {
        matches!(self, Error::Closed)
    }
}

// What came of a caller's calls: the right response, or that the buffer is closed.
#[derive(Clone, Copy, Debug, PartialEq, Eq)]
struct Tally {
    answered: u64,
    closed: u64,
}

// Makes calls of the numbers from the first one on. After each tenth one a clone reserves a place, a permit is taken, and both
// are given back.
fn call_all<R, B, K>(
    rt: &R,
    mut buffer: B,
    semaphore: &Semaphore<K>,
    first: u64,
) -> io::Result<Tally>
where
    R: Wait + RandomSource + AllocGlobal,
    B: Service<u64, Response = u64> + Clone,
    B::Error: IsClosed,
    K: Latch<LineCore>,
    requires { (service : B) → B.sound service }
{
    let mut tally = Tally {
        answered: 0,
        closed: 0,
    };
    for request in first..first.saturating_add(CALLS) {
        match block_on_call(&mut buffer, rt, request)? {
            Ok(response) if response == request.wrapping_mul(3) => {
                tally.answered = tally.answered.saturating_add(1);
            }
            Err(error) if error.is_closed() => tally.closed = tally.closed.saturating_add(1),
            _ => {}
        }
        if request % 10 == 9 {
            let mut spare = buffer.clone()?;
            let _ = block_on_ready(&mut spare, rt)?;
            let asking = PollSemaphore::new(semaphore.share()?);
            let _permit = block_on(rt, Acquire { asking })??;
        }
    }
    Ok(tally)
}

// The calls of one caller.
fn caller<R, K, L>(
    rt: &R,
    buffer: Front<L>,
    semaphore: &Semaphore<K>,
    first: u64,
) -> io::Result<Tally>
where
    R: Wait + RandomSource + AllocGlobal,
    K: Latch<LineCore>,
    L: Latch<Mail>,
{
    call_all(rt, buffer, semaphore, first)
}

// A worker, until so many calls were made. It is dropped then, with what waits in its mail.
#[derive(Drop)]
struct Shift<W> {
    worker: W,
    calls: Arc<AtomicU64, Global>,
}

impl<W: Steps<Output = ()>> Steps for Shift<W> {
    type Output = ();

    ghost can_poll = { λ shift. W.can_poll shift.worker };

    ghost needs = { λ shift. W.needs shift.worker };

    fn step(&mut self, cx: &mut Context<'_>) -> Poll<()> {
        if self.calls.load(Ordering::SeqCst) >= SERVED {
            return Poll::Ready(());
        }
        self.worker.step(cx)
    }
}

// Runs the worker until it is dropped.
fn serve<R, K, L>(rt: &R, worker: Back<K, L>, calls: Arc<AtomicU64, Global>) -> io::Result<()>
where
    R: Wait + RandomSource + AllocGlobal,
    K: Latch<LineCore>,
    L: Latch<Mail>,
{
    block_on(rt, Polled::new(Shift { worker, calls }))
}

// A clone for each caller, with the number of its first call.
fn clones_of<B: Clone + Drop>(alloc: Global, buffer: B) -> Result<Vec<(u64, B)>, AllocError> {
    let mut clones = Vec::new(alloc);
    for number in 0..CALLERS {
        clones.push((number.saturating_mul(CALLS), buffer.clone()?))?;
    }
    Ok(clones)
}

// The calls of all callers, each in a thread.
fn callers<R, K, L>(
    rt: &R,
    buffer: Front<L>,
    semaphore: &Semaphore<K>,
) -> Result<Vec<io::Result<Tally>>, AllocError>
where
    R: Threads + Wait + RandomSource + AllocGlobal + Sync,
    K: Latch<LineCore> + Send + Sync,
    L: Latch<Mail> + Send,
{
    let clones = clones_of(rt.alloc(), buffer)?;
    thread::map_vec(
        rt,
        clones,
        &|(first, buffer)| caller(rt, buffer, semaphore, first),
    )
}

// Runs the worker in a thread, and the callers beside it.
fn run_all<R, K, L>(
    rt: &R,
    buffer: Front<L>,
    worker: Back<K, L>,
    semaphore: &Semaphore<K>,
    calls: Arc<AtomicU64, Global>,
) -> Result<Vec<io::Result<Tally>>, Fail>
where
    R: Threads + Wait + RandomSource + AllocGlobal + Sync,
    K: Latch<LineCore> + Send + Sync,
    L: Latch<Mail> + Send,
{
    let (ended, told) = thread::join(
        rt,
        || serve(rt, worker, calls),
        || callers(rt, buffer, semaphore),
    );
    ended?;
    Ok(told?)
}

// The whole storm, over this mail. The kit's borrow checker covers no test function that holds all of these types.
fn storm_of<R, K, L>(
    rt: &R,
    mail: L,
    semaphore: &Semaphore<K>,
    calls: &Arc<AtomicU64, Global>,
) -> Result<Vec<io::Result<Tally>>, Fail>
where
    R: Threads + Wait + RandomSource + AllocGlobal + Sync,
    K: Latch<LineCore> + Send + Sync,
    L: Latch<Mail> + Send,
{
    let theirs = Arc::try_clone(calls)?;
    let triple = Triple::new(Arc::try_clone(calls)?, semaphore.share()?);
    match Buffer::with_latch(mail, triple) {
        Ok((buffer, worker)) => run_all(rt, buffer, worker, semaphore, theirs),
        Err(AllocError) => Err("no memory for a buffer".into()),
    }
}

// Checks that each call came to an end. Returns how many got a response.
fn sum_of(checks: &Checks, tallies: Vec<io::Result<Tally>>) -> io::Result<u64> {
    let mut answered = 0u64;
    for tally in tallies {
        let tally = tally?;
        checks.same(&tally.answered.saturating_add(tally.closed), &CALLS);
        answered = answered.saturating_add(tally.answered);
    }
    Ok(answered)
}

#[test]
fn worker_is_dropped_under_storm(rt: HostRuntime) -> Result<(), Fail> {
    let alloc = rt.alloc();
    let calls = Arc::new(alloc, AtomicU64::new(0))?;
    let places = Arc::new(alloc, Places::new())?;
    let semaphore = Semaphore::new(rt, alloc, PERMITS)?;
    let mail = Guarded::new(rt, alloc, MailCore::new(alloc, 4))?;
    let counted = Counted::new(Arc::try_clone(&places)?, mail);
    let tallies = storm_of(&rt, counted, &semaphore, &calls)?;
    let checks = Checks::new(alloc);
    let answered = sum_of(&checks, tallies)?;
    checks.same(&answered, &calls.load(Ordering::SeqCst));
    checks.holds(SERVED <= answered && answered < CALLERS * CALLS);
    let [given, sent, given_back] = places.all();
    checks.same(&given, &sent.saturating_add(given_back));
    checks.holds(given_back > 0);
    checks.same(&semaphore.available_permits(), &PERMITS);
    checks.verdict()
}
