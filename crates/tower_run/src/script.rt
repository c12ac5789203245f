//! The lines of a script.
ghost use Rattle.std.specs.Prelude.{◌≡◌, ◌≢◌, ℕ, ◌<◌, ◌^◌, List, ◌++◌, MatchOption, decimal};
ghost use Rattle.tower_run.specs.Script.{IsWord};

use crate::fault::Fault;
use std::alloc::Global;
use std::fmt::Display;
use std::{fmt, str};
use tower_base::drive::Event;

/// The most bytes that a script may have.
pub const MAX_BYTES: usize = 1_048_576;

/// The most lines that a script may have.
pub const MAX_LINES: usize = 10_000;

const MAX_WORD: usize = 64;

/// A request, a response or an error: 1 to 64 visible characters of ASCII.
#[derive(Clone, Copy, Debug)]
pub struct Word<'a> {
    text: &'a str,
}

impl Display for Word<'_> {
    fn fmt<W: fmt::Write>(&self, f: &mut fmt::Formatter<W>) -> fmt::Result {
        let text = self.text;
        write!(f, "{text}")
    }
}

/// A change that a script makes around the service.
#[derive(Drop)]
pub enum Directive<'a> {
    /// The clock shows this moment from now on.
    At(u64),
    /// The given number of grants is left.
    Allow(u64),
    /// The inner call of this number gets this answer.
    Answer(u64, Result<Word<'a>, Word<'a>>),
}

/// A line of a script.
pub type Command<'a> = Event<Word<'a>, Directive<'a>>;

/// Reads the commands of a whole script, in order. Returns `BadLine` for the first line that isn't a
/// command or is one too many, and `Memory` if allocation fails.
pub fn parse(alloc: Global, script: &[u8]) -> Result<Vec<Command<'_>>, Fault> {
    let mut commands = Vec::new(alloc);
    if script.is_empty() {
        return Ok(commands);
    }
    let body = script.strip_suffix(b"\n").unwrap_or(script);
    for line in body.split(|byte| *byte == b'\n') {
        let number = commands.len().saturating_add(1);
        if number > MAX_LINES {
            return Err(Fault::BadLine(number));
        }
        let Some(command) = read_command(line) else {
            return Err(Fault::BadLine(number));
        };
        commands.push(command).map_err(|_| Fault::Memory)?;
    }
    Ok(commands)
}

// Reads the command of a line.
fn read_command(line: &[u8]) -> Option<Command<'_>> {
    if line == b"poll".as_slice() {
        return Some(Event::Poll);
    }
    if let Some(rest) = after(line, b"at ") {
        return Some(Event::Turn(Directive::At(read_number(rest)?)));
    }
    if let Some(rest) = after(line, b"allow ") {
        return Some(Event::Turn(Directive::Allow(read_number(rest)?)));
    }
    if let Some(rest) = after(line, b"call ") {
        return Some(Event::Call(read_word(rest)?));
    }
    if let Some(rest) = after(line, b"answer ") {
        return Some(Event::Turn(read_answer(rest)?));
    }
    if let Some(rest) = after(line, b"fut ") {
        return Some(Event::Future(read_number(rest)? as usize));
    }
    let rest = after(line, b"drop ")?;
    Some(Event::Drop(read_number(rest)? as usize))
}

// Reads the number of an inner call, and its answer.
fn read_answer(text: &[u8]) -> Option<Directive<'_>> {
    let end = text.iter().position(|byte| *byte == b' ')?;
    let (index, rest) = text.split_at(end);
    let index = read_number(index)?;
    if let Some(rest) = after(rest, b" ok ") {
        return Some(Directive::Answer(index, Ok(read_word(rest)?)));
    }
    let rest = after(rest, b" err ")?;
    Some(Directive::Answer(index, Err(read_word(rest)?)))
}

// Returns what follows the prefix, if the text begins with it.
fn after<'a>(text: &'a [u8], prefix: &[u8]) -> Option<&'a [u8]>
    ensures { MatchOption result ((rest : List ℕ) → text.now ≢ prefix.now ++ rest)
        (λ rest. text.now ≡ prefix.now ++ rest.now) }
{
    text.strip_prefix(prefix)
}

// Reads a decimal number without leading zeros.
pub(crate) fn read_number(text: &[u8]) -> Option<u64>
    ensures { MatchOption result ((n : ℕ) → n < 2 ^ 64 → text.now ≢ decimal n)
        (λ n. text.now ≡ decimal n) }
{
    if text == b"0".as_slice() {
        return Some(0);
    }
    if text.is_empty() || text[0] < b'1' {
        return None;
    }
    let Ok(digits) = str::from_utf8(text) else {
        return None;
    };
    match digits.parse() {
        Ok(number) => Some(number),
        Err(_) => None,
    }
}

// Reads a word of the script.
fn read_word(text: &[u8]) -> Option<Word<'_>>
    ensures { MatchOption result (¬ IsWord text.now)
        (λ word. IsWord text.now × (word.text.now ≡ text.now)) }
{
    if text.is_empty() || text.len() > MAX_WORD {
        return None;
    }
    if !text.iter().all(|byte| (33..=126).contains(byte)) {
        return None;
    }
    match str::from_utf8(text) {
        Ok(text) => Some(Word { text }),
        Err(_) => None,
    }
}
