//! A future that a script asks by itself.

use crate::handles::Response;
use crate::party::Party;
use crate::report::error_text;
use futures::task::{Poll, Solo};
use std::alloc::{AllocError, Global};
use std::fmt::{Debug, Display};
use tests_support::run::stepped;
use tower_base::service::Steps;
use tower_latch::held::Pollable;

/// A future with the number 0.
#[derive(Drop)]
pub(crate) struct Lone<'s, F: Steps> {
    alloc: Global,
    solo: &'s Solo,
    future: Option<Response<F>>,
}

impl<'s, F, A, E> Lone<'s, F>
where
    F: Steps<Output = Result<A, E>>,
    A: Display + Drop,
    E: Debug + Display + Drop,
{
    pub(crate) fn new(alloc: Global, solo: &'s Solo, future: F) -> Lone<'s, F>
        requires { F.can_poll future }
    {
        Lone {
            alloc,
            solo,
            future: Some(Response::Open(Pollable::new(future))),
        }
    }

    fn poll(&mut self) -> Result<String, AllocError> {
        let response = match self.future.take() {
            Some(Response::Open(response)) => response,
            other => {
                self.future = other;
                return "skipped".to_string(self.alloc);
            }
        };
        let mut future = response.into_inner();
        match stepped(self.solo, &mut future) {
            Poll::Pending => {
                self.future = Some(Response::Open(Pollable::new(future)));
                "pending".to_string(self.alloc)
            }
            Poll::Ready(answer) => {
                self.future = Some(Response::Done(future));
                match answer {
                    Ok(value) => format!(in self.alloc; "ok {value}"),
                    Err(error) => error_text(self.alloc, &error),
                }
            }
        }
    }
}

impl<'s, F, A, E> Party for Lone<'s, F>
where
    F: Steps<Output = Result<A, E>>,
    A: Display + Drop,
    E: Debug + Display + Drop,
{
    fn act(&mut self, words: &str) -> Result<Option<String>, AllocError> {
        match words {
            "fut 0" => Ok(Some(self.poll()?)),
            "drop 0" => {
                self.future = None;
                Ok(Some(String::new(self.alloc)))
            }
            _ => Ok(None),
        }
    }

    fn end(&mut self) {
        self.future = None;
    }
}
