//! A future that answers after a count of polls, or once it is answered.
ghost use Rattle.std.specs.Prelude.{◌≡◌, IsSome, Some};
ghost use Rattle.futures.specs.Poll.{IfReady, OnPending};
ghost use Rattle.futures.specs.Task.{IsArmed, Keeps};

use crate::log::{Log, Name};
use crate::script::{Reply, Script};
use futures::future::Future;
use futures::task::{Context, Poll};
use std::alloc::AllocError;
use tower_base::service::Steps;

// When the answer is there.
#[derive(Clone, Copy)]
pub(crate) enum When<'a> {
    // After so many polls, each of which wakes its task, unless the log is quiet.
    Polls(u8),
    Never,
    // Once this call is answered. Nothing wakes the task.
    Later(&'a Script<'a>, usize),
}

impl<'a> When<'a> {
    // A poll that is pending. It is noted, and counted if polls are.
    fn pending<T>(&mut self, log: &Log, name: Name, cx: &mut Context<'_>) -> Poll<T>
        ensures pending { result ≡ Poll.Pending }
        ensures armed { IsArmed cx.new }
        ensures kept { Keeps cx.old cx.new }
    {
        log.note(format_args!("{name} pending"));
        match *self {
            When::Later(_, _) => return log.wait(cx),
            When::Never => {}
            When::Polls(polls) => *self = When::Polls(polls.saturating_sub(1)),
        }
        log.pending(cx)
    }
}

/// An answer that is there after a count of pending polls. It notes its polls, clones and drop.
pub struct After<'a, T> {
    log: &'a Log,
    name: Name,
    when: When<'a>,
    answer: Option<T>,
}

impl<'a, T> After<'a, T> {
    /// Each pending poll wakes its task.
    pub fn new(log: &'a Log, letter: char, polls: u8, answer: T) -> After<'a, T>
        ensures { result.answer ≡ Some answer }
    {
        After {
            log,
            name: Name::new(letter),
            when: When::Polls(polls),
            answer: Some(answer),
        }
    }
}

// The plan of a call of the request: when its answer is there, and which.
pub(crate) fn plan<'a>(script: &'a Script<'a>, request: u8) -> (When<'a>, Result<u8, u8>) {
    let call = script.next_call();
    match script.next_reply() {
        Reply::Echo(polls) => (When::Polls(polls), Ok(request)),
        Reply::Fail(polls) => (When::Polls(polls), Err(request)),
        Reply::Give(polls, answer) => (When::Polls(polls), answer),
        Reply::Never => (When::Never, Ok(request)),
        Reply::Later => (When::Later(script, call), Ok(request)),
    }
}

// The future of a call of this service.
pub(crate) fn planned<'a, T>(
    log: &'a Log,
    service: Name,
    request: u8,
    when: When<'a>,
    answer: T,
) -> After<'a, T>
    ensures { result.answer ≡ Some answer }
{
    After {
        log,
        name: service.of_future(request),
        when,
        answer: Some(answer),
    }
}

impl<'a, T: Drop> Future for After<'a, T> {
    type Output = T;

    ghost can_poll = { λ f. IsSome f.answer };

    fn poll(&mut self, cx: &mut Context<'_>) -> Poll<T> {
        self.step(cx)
    }
}

impl<'a, T: Drop> Steps for After<'a, T> {
    type Output = T;

    ghost can_poll = { λ f. IsSome f.answer };

    ghost stepped = { λ old answer new. IfReady answer (λ x. old.answer ≡ Some x) × OnPending answer (new.answer ≡ old.answer) };

    fn step(&mut self, cx: &mut Context<'_>) -> Poll<T> {
        if matches!(self.when, When::Polls(0)) {
            self.log.note(format_args!("{} ready", self.name));
            self.log.ready(cx);
            return Poll::Ready(self.answer.take().unwrap());
        }
        self.when.pending(self.log, self.name, cx)
    }
}

impl<'a, T: Clone> Clone for After<'a, T> {
    ghost is_clone = { λ old new. IsSome old.answer → IsSome new.answer };

    fn clone(&self) -> Result<After<'a, T>, AllocError> {
        let answer = match &self.answer {
            Some(answer) => Some(answer.clone()?),
            None => None,
        };
        let name = self.name.of_copy(self.log);
        self.log.note(format_args!("{} cloned {name}", self.name));
        Ok(After {
            log: self.log,
            name,
            when: self.when,
            answer,
        })
    }
}

impl<'a, T: Drop> Drop for After<'a, T> {
    fn drop(self) {
        self.log.note(format_args!("{} dropped", self.name));
        let After {
            log: _,
            name: _,
            when: _,
            answer,
        } = self;
        drop(answer);
    }
}

/// The response of a scripted service. It notes its polls and drop.
pub struct Response<'a> {
    log: &'a Log,
    name: Name,
    when: When<'a>,
    answer: Result<u8, u8>,
}

impl<'a> Response<'a> {
    // The response to this request.
    pub(crate) fn new(script: &'a Script<'a>, service: Name, request: u8) -> Response<'a> {
        let (when, answer) = plan(script, request);
        Response {
            log: script.log,
            name: service.of_future(request),
            when,
            answer,
        }
    }

    // The answer, once it is there.
    fn answer(&self) -> Option<Result<u8, u8>> {
        match self.when {
            When::Polls(0) => Some(self.answer),
            When::Polls(_) | When::Never => None,
            When::Later(script, call) => script.answer_to(call),
        }
    }
}

impl<'a> Future for Response<'a> {
    type Output = Result<u8, u8>;

    fn poll(&mut self, cx: &mut Context<'_>) -> Poll<Result<u8, u8>> {
        self.step(cx)
    }
}

impl<'a> Steps for Response<'a> {
    type Output = Result<u8, u8>;

    fn step(&mut self, cx: &mut Context<'_>) -> Poll<Result<u8, u8>> {
        if let Some(answer) = self.answer() {
            self.log.note(format_args!("{} ready", self.name));
            self.log.ready(cx);
            return Poll::Ready(answer);
        }
        self.when.pending(self.log, self.name, cx)
    }
}

impl<'a> Drop for Response<'a> {
    fn drop(self) {
        self.log.note(format_args!("{} dropped", self.name));
        let Response {
            log: _,
            name: _,
            when: _,
            answer: _,
        } = self;
    }
}
