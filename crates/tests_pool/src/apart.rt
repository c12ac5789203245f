//! A task in one thread, and its handle in another. Its own service can go to another thread, which a scripted one can't.

use futures::future::{Ready, ready};
use futures::task::{Context, Poll, Solo};
use std::sync::{Mutex, Wait};
use std::test::Fail;
use std::thread;
use tests_support::run::{awaited, called, task};
use tower_base::service::{Executor, Service, Steps};
use tower_latch::held::Pollable;
use tower_pool::spawn_ready::SpawnReady;

const ROUNDS: u16 = 1000;

// How often a thread asks again before it gives up.
const TRIES: u32 = 10_000_000;

// Pending at its first poll, and after each call.
#[derive(Drop)]
struct ReadyAtTheSecondPoll {
    is_ready: bool,
}

impl Service<u16> for ReadyAtTheSecondPoll {
    type Response = u16;

    type Error = u8;

    type Future = Ready<Result<u16, u8>>;

    ghost readies = { λ _ _ _. tt };

    fn poll_ready(&mut self, cx: &mut Context<'_>) -> Poll<Result<(), u8>> {
        if self.is_ready {
            return Poll::Ready(Ok(()));
        }
        self.is_ready = true;
        cx.yield_now()
    }

    fn call(&mut self, request: u16) -> Ready<Result<u16, u8>> {
        self.is_ready = false;
        ready(Ok(request))
    }
}

// Where a task lies until the other thread takes it.
#[derive(Drop)]
struct Post<T: Steps> {
    waiting: Mutex<Option<Pollable<T>>>,
}

impl<T: Steps> Post<T> {
    fn take<R: Wait>(&self, rt: &R) -> Option<Pollable<T>> {
        let mut waiting = self.waiting.lock(rt);
        waiting.take()
    }
}

#[derive(Drop)]
struct Sender<'p, R, T: Steps> {
    rt: R,
    post: &'p Post<T>,
}

impl<'p, R: Wait, T: Steps> Executor<T> for Sender<'p, R, T> {
    ghost can_spawn = { λ _ task. T.can_poll task };

    fn spawn(&self, task: T) -> Result<(), T> {
        let mut waiting = self.post.waiting.lock(&self.rt);
        if waiting.is_some() {
            return Err(task);
        }
        *waiting = Some(Pollable::new(task));
        Ok(())
    }
}

// One response, or none after so many polls.
fn one_call<H: Service<u16>>(solo: &Solo, handle: &mut H, request: u16) -> Option<H::Response>
    requires { H.sound handle.old }
    ensures sound { H.sound handle.new }
{
    for _ in 0..TRIES {
        match called(solo, handle, request) {
            Some(future) => {
                return match awaited(solo, future) {
                    Some(Ok(response)) => Some(response),
                    Some(Err(_error)) => None,
                    None => None,
                };
            }
            None => thread::yield_now(),
        }
    }
    None
}

// How many requests were answered with themselves.
fn calls<H: Service<u16, Response = u16>>(solo: &Solo, mut handle: H) -> u16
    requires { H.sound handle }
{
    let mut right = 0u16;
    for request in 0..ROUNDS {
        if one_call(solo, &mut handle, request) == Some(request) {
            right = right.saturating_add(1);
        }
    }
    right
}

// Polls the next task until it is done.
fn drive<R: Wait, T: Steps<Output = ()> + Drop>(rt: &R, solo: &Solo, post: &Post<T>) -> bool {
    for _ in 0..TRIES {
        match post.take(rt) {
            Some(task) => return awaited(solo, task.into_inner()).is_some(),
            None => thread::yield_now(),
        }
    }
    false
}

// How many tasks were done.
fn drives<R: Wait, T: Steps<Output = ()> + Drop>(rt: &R, solo: &Solo, post: &Post<T>) -> u16 {
    let mut done = 0u16;
    for _ in 0..ROUNDS {
        if drive(rt, solo, post) {
            done = done.saturating_add(1);
        }
    }
    done
}

// Each round hands a task to the other thread, which gives the service back.
#[test]
fn task_and_handle_in_two_threads(rt: HostRuntime) -> Result<(), Fail> {
    let post = Post {
        waiting: Mutex::new(None),
    };
    let sender = Sender { rt, post: &post };
    let service = ReadyAtTheSecondPoll { is_ready: false };
    let handle = SpawnReady::new(rt, rt.alloc(), service, sender)?;
    let (here, there) = (task(&rt)?, task(&rt)?);
    let (right, done) = thread::join(&rt, || calls(&here, handle), || drives(&rt, &there, &post));
    assert_eq!(rt; (right, done), (ROUNDS, ROUNDS));
    Ok(())
}
