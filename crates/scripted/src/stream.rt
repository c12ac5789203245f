//! A stream of calls, beside the handles of a service or alone.

use crate::flow::{Flowing, next};
use crate::party::Party;
use crate::script::Script;
use std::alloc::AllocError;
use std::fmt::{Debug, Display};
use tests_support::stream::Outbox;
use tower_base::service::Flow;

/// `next` polls a stream of calls, `send N` sends it requests up to so many in all, and `close` ends them. Other words are another party's.
#[derive(Drop)]
pub struct Streaming<'s, 'a, F: Flow, P> {
    pub script: &'s Script<'a>,
    pub outbox: &'s Outbox,
    pub left: Option<Flowing<F>>,
    pub other: P,
}

impl<'s, 'a, F, A, E, P> Party for Streaming<'s, 'a, F, P>
where
    F: Flow<Item = Result<A, E>>,
    A: Display + Drop,
    E: Debug + Display + Drop,
    P: Party,
{
    fn act(&mut self, words: &str) -> Result<Option<String>, AllocError> {
        let alloc = self.script.alloc();
        match words {
            "next" => return Ok(Some(next(alloc, self.script.solo(), &mut self.left)?)),
            "close" => self.outbox.close(),
            _ => {
                let Some(sent) = words.strip_prefix("send ") else {
                    return self.other.act(words);
                };
                match sent.parse() {
                    Ok(sent) => self.outbox.send(sent),
                    Err(_) => return Ok(None),
                }
            }
        }
        Ok(Some(String::new(alloc)))
    }

    fn end(&mut self) {
        self.left = None;
        self.other.end();
    }
}
