//! A future, and the tasks that are spawned meanwhile.
ghost use Rattle.std.specs.Prelude.{◌≡◌, true, false, IfOk, IfSome};
ghost use Rattle.futures.specs.Queued.{AllPollable, set_places};
ghost use Rattle.futures.specs.Task.{Covers, IsArmed, Keeps};
ghost use Rattle.tower_spawn.specs.Beside.{CanPoll, CanRun, Gives, IsDone, Needs, RunGives};

use crate::spawner::Spawned;
use futures::future::Future;
use futures::stream::{FuturesUnordered, Stream};
use futures::task::{Context, Poll};
use std::alloc::{AllocError, Global};
use std::mem;

// The future of a run, or its output.
#[derive(Drop)]
enum Main<B, T> {
    Pending(B),
    Done(T),
    Taken,
}

/// A future and the tasks of a `Spawner`, which it polls as one task. It is ready once the future is, and no
/// task is left. Its output is the future's. It may be polled by any executor. The future is polled whenever
/// one of the tasks is.
#[derive(Drop)]
pub struct Beside<B: Future, F: Future> {
    main: Main<B, B::Output>,
    // Each may be polled.
    tasks: FuturesUnordered<F>,
    // One for which there was no memory.
    waiting: Option<F>,
    spawned: Spawned<F>,
}

impl<B: Future<Output: Drop>> Main<B, B::Output> {
    // Polls the future, unless it has ended. Returns whether it has.
    fn poll(&mut self, cx: &mut Context<'_>) -> bool
        requires { CanPoll B.can_poll self.old }
        ensures again { CanPoll B.can_poll self.new }
        ensures same { (x : B.Output) → Gives B.gives self.new x → Gives B.gives self.old x }
        ensures registered { result ≡ false → Covers cx.new (Needs B.needs self.new) }
        ensures ended { result ≡ true → IsDone self.new }
        ensures kept { Keeps cx.old cx.new }
    {
        let Main::Pending(future) = self else {
            return true;
        };
        match future.poll(cx) {
            Poll::Pending => false,
            Poll::Ready(output) => {
                *self = Main::Done(output);
                true
            }
        }
    }

    // Returns the output, once.
    fn take(&mut self) -> B::Output
        requires { IsDone self.old }
        ensures { Gives B.gives self.old result }
    {
        match mem::replace(self, Main::Taken) {
            Main::Done(output) => output,
            _ => unreachable!(),
        }
    }
}

impl<B: Future<Output: Drop>, F: Future<Output = ()>> Beside<B, F> {
    pub(crate) fn new(
        alloc: Global,
        future: B,
        spawned: Spawned<F>,
    ) -> Result<Beside<B, F>, AllocError>
        requires { B.can_poll future }
        ensures { IfOk result (λ both. CanRun B.can_poll both
            × ((x : B.Output) → RunGives B.gives both x → B.gives future x)) }
    {
        spawned.note(0);
        Ok(Beside {
            main: Main::Pending(future),
            tasks: FuturesUnordered::new(alloc)?,
            waiting: None,
            spawned,
        })
    }

    // Polls the tasks, and takes in what was spawned. Returns whether no task is left.
    fn poll_others(&mut self, cx: &mut Context<'_>) -> bool
        requires { CanRun B.can_poll self.old }
        ensures again { CanRun B.can_poll self.new }
        ensures main { self.new.main ≡ self.old.main }
        ensures armed { result ≡ false → IsArmed cx.new }
        ensures kept { Keeps cx.old cx.new }
    {
        let is_empty = poll_tasks(&mut self.tasks, cx);
        let has_new = self.take_in(cx);
        self.spawned.note(self.tasks.len());
        if has_new {
            let _pending: Poll<()> = cx.yield_now();
        }
        is_empty && !has_new
    }

    // Takes in what was spawned. Returns whether a task is to be polled, or waits for memory.
    fn take_in(&mut self, cx: &mut Context<'_>) -> bool
        requires { CanRun B.can_poll self.old }
        ensures again { CanRun B.can_poll self.new }
        ensures main { self.new.main ≡ self.old.main }
        ensures kept { Keeps cx.old cx.new }
    {
        if self.waiting.is_none()
            && let Poll::Ready(next) = self.spawned.poll_next(cx)
        {
            self.waiting = next;
        }
        let Some(task) = self.waiting.take() else {
            return false;
        };
        if let Err(refused) = self.tasks.push(task) {
            self.waiting = Some(refused.value);
        }
        true
    }
}

// Polls each task that is woken, up to the first that ends. Returns whether none is left.
fn poll_tasks<F: Future<Output = ()>>(tasks: &mut FuturesUnordered<F>, cx: &mut Context<'_>) -> bool
    requires { AllPollable F.can_poll (set_places tasks.old) }
    ensures again { AllPollable F.can_poll (set_places tasks.new) }
    ensures armed { result ≡ false → IsArmed cx.new }
    ensures kept { Keeps cx.old cx.new }
{
    if tasks.is_empty() {
        return true;
    }
    match tasks.poll_next(cx) {
        Poll::Ready(Some(())) => {
            let _pending: Poll<()> = cx.yield_now();
            false
        }
        Poll::Ready(None) => unreachable!(),
        Poll::Pending => false,
    }
}

impl<B: Future<Output: Drop>, F: Future<Output = ()>> Future for Beside<B, F> {
    type Output = B::Output;

    ghost can_poll = { CanRun B.can_poll };

    ghost needs = { λ both. Needs B.needs both.main };

    ghost gives = { λ both. RunGives B.gives both };

    fn poll(&mut self, cx: &mut Context<'_>) -> Poll<B::Output> {
        let has_ended = self.main.poll(cx);
        let is_alone = self.poll_others(cx);
        if !has_ended || !is_alone {
            return Poll::Pending;
        }
        Poll::Ready(self.main.take())
    }
}
