//! The worker of a buffer and its mail, beside its handles.

use crate::mail::{Counts, Mail};
use scripted::party::Party;
use scripted::script::Script;
use scripted::worker::Working;
use std::alloc::AllocError;
use tower_base::service::Steps;
use tower_latch::held::Pollable;

/// Beside the worker's words, `shares N` says how many shares of the latch there are yet, and `forgets` that the next message to be answered
/// is forgotten just before. The last note of an end is what is left then.
#[derive(Drop)]
pub struct Posting<'s, 'a, W: Steps, M> {
    script: &'s Script<'a>,
    counts: &'s Counts,
    working: Working<'s, 'a, W>,
    mail: M,
}

impl<'s, 'a, W: Steps, M> Posting<'s, 'a, W, M> {
    pub fn new(
        script: &'s Script<'a>,
        counts: &'s Counts,
        worker: W,
        mail: M,
    ) -> Posting<'s, 'a, W, M>
        requires { W.can_poll worker }
    {
        Posting {
            script,
            counts,
            working: Working::new(script, Some(Pollable::new(worker))),
            mail,
        }
    }
}

impl<'s, 'a, W: Steps<Output = ()>, M: Mail> Party for Posting<'s, 'a, W, M> {
    fn act(&mut self, words: &str) -> Result<Option<String>, AllocError> {
        if words == "forgets" {
            self.counts.forgets.set(true);
        } else if let Some(shares) = words.strip_prefix("shares ") {
            match shares.parse() {
                Ok(shares) => self.counts.shares.set(shares),
                Err(_) => return Ok(None),
            }
        } else {
            return self.working.act(words);
        }
        Ok(Some(String::new(self.script.alloc())))
    }

    fn end(&mut self) {
        self.working.end();
        let log = self.script.stage().log;
        let left = self.counts.left.get();
        let mail = if self.mail.is_at_its_end() {
            "mail at its end"
        } else {
            "mail goes on"
        };
        log.note(format_args!("{mail}, {left} requests left"));
    }
}
