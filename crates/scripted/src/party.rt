//! What a program adds to the language.

use std::alloc::AllocError;

/// What takes part in a script beside its service, or in place of one: a worker, a stream, a cache.
pub trait Party {
    /// Does what these words ask and tells its answer. There is none if they can't be read.
    fn act(&mut self, words: &str) -> Result<Option<String>, AllocError>;

    /// Drops what is left.
    fn end(&mut self);
}

/// No party: its words can't be read.
#[derive(Drop)]
pub struct Nobody;

impl Party for Nobody {
    fn act(&mut self, _words: &str) -> Result<Option<String>, AllocError> {
        Ok(None)
    }

    fn end(&mut self) {}
}

/// Reads of a service what more may be asked of it, as its load.
pub trait Reader<S> {
    /// What these words ask of the service. There is none if they can't be read.
    fn read(&self, service: &S, words: &str) -> Result<Option<String>, AllocError>;
}

/// Reads nothing.
#[derive(Drop)]
pub struct Unread;

impl<S> Reader<S> for Unread {
    fn read(&self, _service: &S, _words: &str) -> Result<Option<String>, AllocError> {
        Ok(None)
    }
}
