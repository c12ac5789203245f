//! What stands around a balancer.

use crate::findings::Findings;
use crate::fleet::Fleet;
use scripted::party::Party;
use scripted::script::Script;
use std::alloc::{AllocError, Global};

/// Its words are those of the discovery and of the endpoints.
#[derive(Drop)]
pub struct Around<'a> {
    pub alloc: Global,
    pub fleet: &'a Fleet<'a>,
    pub findings: &'a Findings,
}

impl<'a> Party for Around<'a> {
    fn act(&mut self, words: &str) -> Result<Option<String>, AllocError> {
        if self.findings.change(words)? || self.fleet.change(self.alloc, words)? {
            return Ok(Some(String::new(self.alloc)));
        }
        Ok(None)
    }

    fn end(&mut self) {}
}

/// The words to draw by that the first line has.
pub fn words_of(script: &Script<'_>) -> Result<Vec<u64>, AllocError> {
    let mut words = Vec::new(script.alloc());
    for place in 0..8 {
        if let Some(word) = script.number(place) {
            words.push(word)?;
        }
    }
    Ok(words)
}
