//! What came of the lines of a text, compared with what is expected there.

use crate::step::Step;
use std::alloc::{AllocError, Global};
use std::fmt::{Debug, Display};
use tests_support::log::Log;

// A line that is written has at most two columns more, unless a note is longer: notes that find no room stand on further lines.
const COLUMNS: usize = 198;

// Where notes begin.
const INDENT: usize = 45;

/// What is done with what came of a line.
#[derive(Clone, Copy, PartialEq, Eq)]
pub enum Mode {
    /// It is compared with what is expected.
    Compare,
    /// It is written in place of what is expected.
    Write,
}

/// Compares lines with what came and reports where they differ, or writes them anew.
#[derive(Drop)]
pub struct Report<'a> {
    alloc: Global,
    name: &'a str,
    mode: Mode,
    scripts: usize,
    wrong: usize,
    last: String,
    text: String,
}

impl<'a> Report<'a> {
    /// The name is that of the file. If the mode is `Write`, the report is the whole text, with what came in place of what was expected.
    pub fn new(alloc: Global, name: &'a str, mode: Mode) -> Report<'a> {
        Report {
            alloc,
            name,
            mode,
            scripts: 0,
            wrong: 0,
            last: String::new(alloc),
            text: String::new(alloc),
        }
    }

    /// A script begins.
    pub(crate) fn begin(&mut self) {
        self.scripts = self.scripts.saturating_add(1);
    }

    /// Takes what came of the line.
    pub(crate) fn came(
        &mut self,
        log: &Log,
        step: &Step<'_>,
        answer: &str,
    ) -> Result<(), AllocError> {
        let noted = log.told(self.alloc)?;
        let told = notes_of(self.alloc, noted.as_str())?;
        if !noted.is_empty() {
            self.last = noted;
        }
        let notes = if step.notes == ".." {
            ".."
        } else {
            told.as_str()
        };
        if matches!(self.mode, Mode::Write) {
            return written(&mut self.text, step, answer, notes);
        }
        self.compared(step, answer, notes)
    }

    fn compared(&mut self, step: &Step<'_>, answer: &str, notes: &str) -> Result<(), AllocError> {
        if step.answer == answer && step.has_notes(self.alloc, notes)? {
            return Ok(());
        }
        self.wrong = self.wrong.saturating_add(1);
        let (name, number) = (self.name, step.number);
        write!(self.text, "{name}:{number}:\n  expected ")?;
        written(&mut self.text, step, step.answer, step.notes)?;
        write!(self.text, "  came     ")?;
        written(&mut self.text, step, answer, notes)
    }

    /// How many of the notes of the last line that had some have this text.
    pub(crate) fn count(&self, text: &str) -> Result<String, AllocError> {
        let parts = self.last.as_str().split(text).count();
        parts.saturating_sub(1).to_string(self.alloc)
    }

    /// The line is wrong for this reason.
    pub(crate) fn refuse(&mut self, step: &Step<'_>, reason: &str) -> Result<(), AllocError> {
        self.wrong = self.wrong.saturating_add(1);
        let (name, number, asked) = (self.name, step.number, step.asked);
        writeln!(self.text, "{name}:{number}: {reason}: '{asked}'")
    }

    /// The line can't be read.
    pub(crate) fn unread(&mut self, step: &Step<'_>) -> Result<(), AllocError> {
        self.refuse(step, "cannot read")
    }

    /// Takes a line that asks nothing.
    pub(crate) fn aside(&mut self, text: &str) -> Result<(), AllocError> {
        if matches!(self.mode, Mode::Write) {
            self.text.push_str(text)?;
            self.text.push('\n')?;
        }
        Ok(())
    }

    /// How many scripts there were.
    pub fn scripts(&self) -> usize {
        self.scripts
    }

    /// How many lines are wrong.
    pub fn wrong(&self) -> usize {
        self.wrong
    }

    /// The report.
    pub fn text(&self) -> &str {
        self.text.as_str()
    }
}

/// An error as a script has it: its text, or its variant if that holds a value. So two variants with the same text are told apart.
pub fn error_text<E: Debug + Display>(alloc: Global, error: &E) -> Result<String, AllocError> {
    let text = format!(in alloc; "{error}")?;
    let variant = format!(in alloc; "{error:?}")?;
    error_of(alloc, text.as_str(), variant.as_str())
}

fn error_of(alloc: Global, text: &str, variant: &str) -> Result<String, AllocError> {
    if !variant.contains("(") {
        return format!(in alloc; "error {text}");
    }
    if variant.contains(text) {
        return format!(in alloc; "error {variant}");
    }
    format!(in alloc; "error {variant}: {text}")
}

fn written(
    text: &mut String,
    step: &Step<'_>,
    answer: &str,
    notes: &str,
) -> Result<(), AllocError> {
    let asked = step.asked;
    let mut left = String::new(*text.allocator());
    if answer.is_empty() {
        left.push_str(asked)?;
    } else {
        write!(left, "{asked:<14} => {answer}")?;
    }
    let left = left.as_str();
    if notes.is_empty() {
        return writeln!(text, "{left}");
    }
    write!(text, "{left:<43} |")?;
    let mut columns = left.len().max(43).saturating_add(2);
    for note in notes.split(';') {
        let note = note.trim();
        if note.len() <= COLUMNS - INDENT {
            place(text, &mut columns, note, ';')?;
            continue;
        }
        for part in note.split(", ") {
            place(text, &mut columns, part, ',')?;
        }
        let _comma = text.pop();
        text.push(';')?;
    }
    let _semicolon = text.pop();
    text.push('\n')
}

// Adds a note, or a part of one, on a line of its own if it has no room on this one.
fn place(text: &mut String, columns: &mut usize, note: &str, end: char) -> Result<(), AllocError> {
    if columns.saturating_add(note.len()) > COLUMNS && *columns > INDENT {
        write!(text, "\n{:<43} |", "")?;
        *columns = INDENT;
    }
    *columns = columns.saturating_add(note.len()).saturating_add(2);
    write!(text, " {note}{end}")
}

// Notes as a script has them, separated by semicolons. Drops in a row are one note, and a note in a row is counted.
fn notes_of(alloc: Global, told: &str) -> Result<String, AllocError> {
    let mut text = String::new(alloc);
    let mut last = "";
    let mut count = 0usize;
    let mut is_dropping = false;
    for note in told.split(';') {
        if note == last {
            count = count.saturating_add(1);
            continue;
        }
        if !last.is_empty() {
            is_dropping = add(&mut text, last, count, is_dropping)?;
        }
        last = note;
        count = 1;
    }
    if is_dropping {
        text.push_str(" dropped")?;
    }
    Ok(text)
}

// Adds a note that came so many times, and tells whether it was a drop.
fn add(text: &mut String, note: &str, count: usize, is_dropping: bool) -> Result<bool, AllocError> {
    let dropped = note.strip_suffix(" dropped");
    if is_dropping {
        text.push_str(if dropped.is_some() {
            ", "
        } else {
            " dropped; "
        })?;
    } else if !text.is_empty() {
        text.push_str("; ")?;
    }
    text.push_str(dropped.unwrap_or(note))?;
    if count > 1 {
        write!(text, " x{count}")?;
    }
    Ok(dropped.is_some())
}
