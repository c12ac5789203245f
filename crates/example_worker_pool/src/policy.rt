//! The policy that decides when a search goes on.

use crate::jobs::{Job, Unfinished};
use futures::future::{Ready, ready};
use tower::retry::Policy;

/// A policy by which a search that isn't finished goes on from where it is, at most twenty times.
#[derive(Clone, Copy, Debug)]
pub struct GoesOn {
    left: u8,
}

impl GoesOn {
    pub fn new() -> GoesOn {
        GoesOn { left: 20 }
    }
}

impl Policy<Job, u64, Unfinished> for GoesOn {
    type Future = Ready<()>;

    fn retry(&mut self, job: &mut Job, outcome: &mut Result<u64, Unfinished>) -> Option<Ready<()>> {
        let Err(Unfinished { rest }) = outcome else {
            return None;
        };
        if self.left == 0 {
            return None;
        }
        self.left -= 1;
        *job = *rest;
        Some(ready(()))
    }

    fn clone_request(&mut self, job: &Job) -> Option<Job> {
        Some(*job)
    }
}
