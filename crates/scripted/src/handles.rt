//! The handles of a service and the futures of its calls.
ghost use Rattle.std.specs.Prelude.{◌≡◌, true};

use crate::callable::Handle;
use crate::command::letter_of;
use crate::party::Reader;
use crate::report::error_text;
use futures::task::{Poll, Solo};
use std::alloc::{AllocError, Global};
use std::fmt::{Debug, Display};
use tests_support::run::{readiness, stepped};
use tests_support::slots::{put, take};
use tower_base::service::{Service, Steps};
use tower_latch::held::Pollable;

/// A response, which has answered or hasn't.
#[derive(Drop)]
pub(crate) enum Response<F: Steps> {
    Open(Pollable<F>),
    Done(F),
}

/// All handles of a service, and the futures of their calls, each in the order in which they came.
#[derive(Drop)]
pub(crate) struct Handles<S: Service<Request>, Request> {
    alloc: Global,
    handles: Vec<Option<Handle<S, Request>>>,
    futures: Vec<Option<Response<S::Future>>>,
}

impl<Request: Drop, S> Handles<S, Request>
where
    S: Service<Request>,
    S::Response: Display,
    S::Error: Debug + Display,
{
    /// The service is the first handle.
    pub(crate) fn new(
        alloc: Global,
        always: bool,
        service: S,
    ) -> Result<Handles<S, Request>, AllocError>
        requires sound { S.sound service }
        requires ready { always ≡ true → S.ready service }
    {
        let mut handles = Vec::new(alloc);
        handles.push(Some(Handle::kept(always, service)))?;
        Ok(Handles {
            alloc,
            handles,
            futures: Vec::new(alloc),
        })
    }

    pub(crate) fn poll(
        &mut self,
        solo: &Solo,
        always: bool,
        place: usize,
    ) -> Result<String, AllocError>
        requires { always ≡ true → (old : S) (answer : _) (new : S) → S.polled old answer new → S.ready new }
    {
        let Some(handle) = take(&mut self.handles, place) else {
            return "skipped".to_string(self.alloc);
        };
        let mut service = handle.into_inner();
        match readiness(solo, &mut service) {
            Poll::Ready(Ok(())) => {
                put(&mut self.handles, place, Handle::ready(service));
                "ready".to_string(self.alloc)
            }
            Poll::Ready(Err(error)) => {
                put(&mut self.handles, place, Handle::kept(always, service));
                error_text(self.alloc, &error)
            }
            Poll::Pending => {
                put(&mut self.handles, place, Handle::kept(always, service));
                "pending".to_string(self.alloc)
            }
        }
    }

    /// A handle is called if its last poll answered `Ok` and no call came since, or if the service may always be called.
    pub(crate) fn call(
        &mut self,
        always: bool,
        place: usize,
        request: Request,
    ) -> Result<String, AllocError>
        requires { always ≡ true → (old : S) (request : Request) (future : S.Future) (new : S) → S.called old request future new → S.ready new }
    {
        let mut service = match take(&mut self.handles, place) {
            Some(Handle::Ready(service)) => service.into_inner(),
            Some(idle) => {
                put(&mut self.handles, place, idle);
                return "skipped".to_string(self.alloc);
            }
            None => return "skipped".to_string(self.alloc),
        };
        let future = service.call(request);
        let number = self.futures.len();
        self.futures
            .push(Some(Response::Open(Pollable::new(future))))?;
        put(&mut self.handles, place, Handle::kept(always, service));
        format!(in self.alloc; "call {number}")
    }

    pub(crate) fn future(&mut self, solo: &Solo, place: usize) -> Result<String, AllocError> {
        let response = match take(&mut self.futures, place) {
            Some(Response::Open(response)) => response,
            Some(Response::Done(future)) => {
                put(&mut self.futures, place, Response::Done(future));
                return "skipped".to_string(self.alloc);
            }
            None => return "skipped".to_string(self.alloc),
        };
        let mut future = response.into_inner();
        match stepped(solo, &mut future) {
            Poll::Pending => {
                put(
                    &mut self.futures,
                    place,
                    Response::Open(Pollable::new(future)),
                );
                "pending".to_string(self.alloc)
            }
            Poll::Ready(answer) => {
                put(&mut self.futures, place, Response::Done(future));
                match answer {
                    Ok(value) => format!(in self.alloc; "ok {value}"),
                    Err(error) => error_text(self.alloc, &error),
                }
            }
        }
    }

    /// What the reader reads of the first handle by these words. Nothing is read of one that is gone.
    pub(crate) fn read<V: Reader<S>>(
        &mut self,
        reader: &V,
        words: &str,
    ) -> Result<Option<String>, AllocError> {
        match take(&mut self.handles, 0) {
            Some(Handle::Idle(service)) => {
                let service = service.into_inner();
                let answer = reader.read(&service, words);
                put(&mut self.handles, 0, Handle::idle(service));
                answer
            }
            Some(Handle::Ready(service)) => {
                let service = service.into_inner();
                let answer = reader.read(&service, words);
                put(&mut self.handles, 0, Handle::ready(service));
                answer
            }
            None => Ok(None),
        }
    }

    /// Drops the handle.
    pub(crate) fn drop_handle(&mut self, place: usize) -> &'static str {
        let handle = take(&mut self.handles, place);
        let answer = if handle.is_some() { "" } else { "skipped" };
        drop(handle);
        answer
    }

    /// Drops the future.
    pub(crate) fn drop_future(&mut self, place: usize) -> &'static str {
        let future = take(&mut self.futures, place);
        let answer = if future.is_some() { "" } else { "skipped" };
        drop(future);
        answer
    }

    /// Drops all handles, and then all futures.
    pub(crate) fn end(&mut self) {
        self.handles.clear();
        self.futures.clear();
    }
}

impl<Request: Drop, S> Handles<S, Request>
where
    S: Service<Request> + Clone,
{
    /// A copy of the handle is a further handle, whose letter is the answer.
    pub(crate) fn copy(&mut self, always: bool, place: usize) -> Result<String, AllocError>
        requires clones { (x y : S) → S.is_clone x y → S.sound x → S.sound y }
        requires ready { always ≡ true → (x y : S) → S.is_clone x y → S.ready y }
    {
        let copy = match take(&mut self.handles, place) {
            Some(Handle::Idle(service)) => {
                let service = service.into_inner();
                let copy: Result<S, AllocError> = service.clone();
                put(&mut self.handles, place, Handle::idle(service));
                copy
            }
            Some(Handle::Ready(service)) => {
                let service = service.into_inner();
                let copy: Result<S, AllocError> = service.clone();
                put(&mut self.handles, place, Handle::ready(service));
                copy
            }
            None => return "skipped".to_string(self.alloc),
        };
        match copy {
            Ok(copy) => {
                let letter = letter_of(self.handles.len());
                self.handles.push(Some(Handle::kept(always, copy)))?;
                format!(in self.alloc; "{letter}")
            }
            Err(AllocError) => "out of memory".to_string(self.alloc),
        }
    }
}
