//! What takes part in a script beside a limit.

use futures::task::{Poll, Solo};
use scripted::party::Party;
use std::alloc::{AllocError, Global};
use std::fmt::Display;
use tests_support::log::Log;
use tests_support::run::polled;
use tower_base::service::Service;
use tower_latch::Latch;
use tower_latch::held::Viewed;
use tower_limit::limit::concurrency::{LineCore, Semaphore};

/// A share of the semaphore, if the script watches it: `free` tells how many permits are free, and so does the end.
#[derive(Drop)]
pub struct Permits<'a, L: Latch<LineCore>> {
    pub alloc: Global,
    pub log: &'a Log,
    pub share: Option<Semaphore<L>>,
}

impl<'a, L: Latch<LineCore>> Party for Permits<'a, L> {
    fn act(&mut self, words: &str) -> Result<Option<String>, AllocError> {
        match (words, &self.share) {
            ("free", Some(share)) => Ok(Some(share.available_permits().to_string(self.alloc)?)),
            _ => Ok(None),
        }
    }

    fn end(&mut self) {
        let Some(share) = &self.share else {
            return;
        };
        let (free, max) = (share.available_permits(), share.max());
        self.share = None;
        self.log.note(format_args!("{free} of {max} permits free"));
    }
}

/// A second service, if there is one: `other poll` polls it.
#[derive(Drop)]
pub struct Beside<'s, S: Service<u8>> {
    pub alloc: Global,
    pub solo: &'s Solo,
    pub other: Option<Viewed<S, u8>>,
}

impl<'s, S> Party for Beside<'s, S>
where
    S: Service<u8>,
    S::Error: Display,
{
    fn act(&mut self, words: &str) -> Result<Option<String>, AllocError> {
        if words != "other poll" {
            return Ok(None);
        }
        let Some(other) = self.other.take() else {
            return Ok(Some("skipped".to_string(self.alloc)?));
        };
        let mut service = other.into_inner();
        let answer = polled(self.solo, &mut service);
        self.other = Some(Viewed::new(service));
        match answer {
            Poll::Ready(Ok(())) => Ok(Some("ready".to_string(self.alloc)?)),
            Poll::Ready(Err(error)) => Ok(Some(format!(in self.alloc; "error {error}")?)),
            Poll::Pending => Ok(Some("pending".to_string(self.alloc)?)),
        }
    }

    fn end(&mut self) {
        self.other = None;
    }
}
