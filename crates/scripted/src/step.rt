//! The lines of a script.

use std::alloc::{AllocError, Global};

/// A line as it is written: `asked => answer | notes`.
#[derive(Clone, Copy)]
pub struct Step<'a> {
    pub number: usize,
    pub asked: &'a str,
    pub answer: &'a str,
    pub notes: &'a str,
}

impl<'a> Step<'a> {
    /// The line with this number and text.
    pub fn new(number: usize, text: &'a str) -> Step<'a> {
        let (left, notes) = text.split_once('|').unwrap_or((text, ""));
        let (asked, answer) = left.split_once("=>").unwrap_or((left, ""));
        Step {
            number,
            asked: asked.trim(),
            answer: answer.trim(),
            notes: notes.trim(),
        }
    }

    /// Whether these notes are the step's, which may stand on several lines.
    pub(crate) fn has_notes(&self, alloc: Global, notes: &str) -> Result<bool, AllocError> {
        let expected: Vec<&str> = self.notes.split_whitespace().collect(alloc)?;
        let came: Vec<&str> = notes.split_whitespace().collect(alloc)?;
        Ok(expected.as_slice() == came.as_slice())
    }

    /// A comment between two lines of a script.
    pub(crate) fn comment(number: usize, text: &'a str) -> Step<'a> {
        Step {
            number,
            asked: text,
            answer: "",
            notes: "",
        }
    }

    pub(crate) fn is_comment(&self) -> bool {
        self.asked.starts_with('#')
    }
}
