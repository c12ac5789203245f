//! A plain value whose clones and drop are noted.

use crate::log::{Log, Name};
use std::alloc::AllocError;

/// Stands for a closure, a layer or a request that is cloned and dropped. Its clones may be refused.
pub struct Plain<'a> {
    log: &'a Log,
    name: Name,
    refuses: bool,
}

impl<'a> Plain<'a> {
    pub fn new(log: &'a Log, letter: char) -> Plain<'a> {
        Plain {
            log,
            name: Name::new(letter),
            refuses: false,
        }
    }

    /// It can't be cloned for want of memory.
    pub fn refusing(log: &'a Log, letter: char) -> Plain<'a> {
        Plain {
            log,
            name: Name::new(letter),
            refuses: true,
        }
    }
}

impl<'a> Clone for Plain<'a> {
    fn clone(&self) -> Result<Plain<'a>, AllocError> {
        if self.refuses {
            self.log.note(format_args!("{} refused", self.name));
            return Err(AllocError);
        }
        let name = self.name.of_copy(self.log);
        self.log.note(format_args!("{} cloned {name}", self.name));
        Ok(Plain {
            log: self.log,
            name,
            refuses: false,
        })
    }
}

impl<'a> Drop for Plain<'a> {
    fn drop(self) {
        self.log.note(format_args!("{} dropped", self.name));
        let Plain {
            log: _,
            name: _,
            refuses: _,
        } = self;
    }
}
