//! The text that a run prints.

use crate::refusal::Refusal;
use crate::script::Word;
use crate::scripted::Turned;
use futures::task::Poll;
use std::alloc::{AllocError, Global};
use tower_base::drive::{Entry, Transcript};

/// Returns a line for each entry, in order. Returns an error if allocation fails, or if an entry reports
/// that it failed.
pub fn print<E: Refusal>(
    alloc: Global,
    transcript: &Transcript<Word<'_>, E, Turned>,
) -> Result<String, AllocError> {
    let mut text = String::new(alloc);
    for entry in &transcript.entries {
        print_entry(&mut text, entry)?;
    }
    Ok(text)
}

fn print_entry<E: Refusal>(
    text: &mut String,
    entry: &Entry<Word<'_>, E, Turned>,
) -> Result<(), AllocError> {
    match entry {
        Entry::Polled(Poll::Ready(Ok(()))) => writeln!(text, "poll ready"),
        Entry::Polled(Poll::Ready(Err(error))) | Entry::Answered(_, Poll::Ready(Err(error)))
            if error.is_memory() => { Err(AllocError) }
        Entry::Polled(Poll::Ready(Err(error))) => writeln!(text, "poll error {error}"),
        Entry::Polled(Poll::Pending) => writeln!(text, "poll pending"),
        Entry::Called(index) => writeln!(text, "call {index}"),
        Entry::Answered(index, Poll::Ready(Ok(word))) => writeln!(text, "fut {index} ok {word}"),
        Entry::Answered(index, Poll::Ready(Err(error))) => {
            writeln!(text, "fut {index} error {error}")
        }
        Entry::Answered(index, Poll::Pending) => writeln!(text, "fut {index} pending"),
        Entry::Dropped(index) => writeln!(text, "drop {index}"),
        Entry::Turned(turned) => print_turned(text, turned),
        Entry::Skipped => writeln!(text, "skipped"),
    }
}

fn print_turned(text: &mut String, turned: &Turned) -> Result<(), AllocError> {
    match turned {
        Turned::At(moment) => writeln!(text, "at {moment}"),
        Turned::Allowed(grants) => writeln!(text, "allow {grants}"),
        Turned::Answered(index) => writeln!(text, "answer {index}"),
        Turned::Skipped => writeln!(text, "skipped"),
    }
}
