//! Values that a script only clones and drops.

use crate::command::{Command, command_of, letter_of};
use crate::party::Party;
use std::alloc::{AllocError, Global};
use tests_support::slots::{put, take};

/// A value and its clones, each a handle.
#[derive(Drop)]
pub(crate) struct Copies<T> {
    alloc: Global,
    values: Vec<Option<T>>,
}

impl<T: Clone + Drop> Copies<T> {
    pub(crate) fn new(alloc: Global, value: T) -> Result<Copies<T>, AllocError> {
        let mut values = Vec::new(alloc);
        values.push(Some(value))?;
        Ok(Copies { alloc, values })
    }

    fn copy(&mut self, place: usize) -> Result<String, AllocError> {
        let Some(value) = take(&mut self.values, place) else {
            return "skipped".to_string(self.alloc);
        };
        let copy: Result<T, AllocError> = value.clone();
        put(&mut self.values, place, value);
        match copy {
            Ok(copy) => {
                let letter = letter_of(self.values.len());
                self.values.push(Some(copy))?;
                format!(in self.alloc; "{letter}")
            }
            Err(AllocError) => "out of memory".to_string(self.alloc),
        }
    }

    fn let_go(&mut self, place: usize) -> &'static str {
        let value = take(&mut self.values, place);
        let answer = if value.is_some() { "" } else { "skipped" };
        drop(value);
        answer
    }
}

impl<T: Clone + Drop> Party for Copies<T> {
    fn act(&mut self, words: &str) -> Result<Option<String>, AllocError> {
        match command_of(words) {
            Some(Command::Clone(place)) => Ok(Some(self.copy(place)?)),
            Some(Command::DropHandle(place)) => {
                let answer = self.let_go(place);
                Ok(Some(answer.to_string(self.alloc)?))
            }
            _ => Ok(None),
        }
    }

    fn end(&mut self) {
        self.values.clear();
    }
}
