//! A worker, beside the handles of a service.

use crate::party::Party;
use crate::script::Script;
use futures::task::Poll;
use std::alloc::AllocError;
use tests_support::run::stepped;
use tower_base::service::Steps;
use tower_latch::held::Pollable;

/// `work` polls a worker, which is dropped once it ends, and `drop worker` drops it.
#[derive(Drop)]
pub struct Working<'s, 'a, W: Steps> {
    script: &'s Script<'a>,
    worker: Option<Pollable<W>>,
}

impl<'s, 'a, W: Steps> Working<'s, 'a, W> {
    pub fn new(script: &'s Script<'a>, worker: Option<Pollable<W>>) -> Working<'s, 'a, W> {
        Working { script, worker }
    }
}

impl<'s, 'a, W: Steps<Output = ()>> Working<'s, 'a, W> {
    fn work(&mut self) -> &'static str {
        let Some(worker) = self.worker.take() else {
            return "skipped";
        };
        let mut worker = worker.into_inner();
        match stepped(self.script.solo(), &mut worker) {
            Poll::Ready(()) => "ended",
            Poll::Pending => {
                self.worker = Some(Pollable::new(worker));
                "pending"
            }
        }
    }
}

impl<'s, 'a, W: Steps<Output = ()>> Party for Working<'s, 'a, W> {
    fn act(&mut self, words: &str) -> Result<Option<String>, AllocError> {
        let answer = match words {
            "work" => self.work(),
            "drop worker" => match self.worker.take() {
                Some(_worker) => "",
                None => "skipped",
            },
            _ => return Ok(None),
        };
        Ok(Some(answer.to_string(self.script.alloc())?))
    }

    fn end(&mut self) {
        self.worker = None;
    }
}
