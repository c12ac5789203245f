//! What a line of a script asks.

use std::alloc::{AllocError, Global};
use tests_support::script::{Readiness, Reply};

/// What a line asks. Handles and futures are numbered from 0 on.
#[derive(Clone, Copy)]
pub enum Command<'a> {
    Poll(usize),
    Call(usize, u8),
    Clone(usize),
    DropHandle(usize),
    Future(usize),
    DropFuture(usize),
    End,
    /// How many notes of the last line have this text.
    Count(&'a str),
    /// A change around the service.
    Directive(Directive<'a>),
    /// Words of the program's own.
    Other(&'a str),
}

/// A change around a service.
#[derive(Clone, Copy)]
pub enum Directive<'a> {
    /// From now on parts that are pending wake nobody, and it is noted if a poll that is pending wakes its task.
    Quiet,
    /// From now on each poll of a part wakes its task, whatever it returns.
    Stirs,
    At(u64),
    Clones(Side, u8),
    Answer(Side, usize, Result<u8, u8>),
    Readiness(Side, &'a str),
    Replies(Side, &'a str),
}

/// Which of the two plans a change is of: that of the services, or of the others.
#[derive(Clone, Copy, Debug, PartialEq, Eq)]
pub enum Side {
    Services,
    Others,
}

// A handle: `a` is the first, `b` the second.
fn handle_of(word: &str) -> Option<usize> {
    match word.as_bytes() {
        [letter] if b'a' <= *letter && *letter <= b'z' => Some((*letter - b'a') as usize),
        _ => None,
    }
}

/// The letter of a handle.
pub(crate) fn letter_of(handle: usize) -> char {
    match handle {
        0 => 'a',
        1 => 'b',
        2 => 'c',
        3 => 'd',
        4 => 'e',
        5 => 'f',
        _ => '?',
    }
}

// The parts before and after the first space.
fn head_of(text: &str) -> (&str, &str) {
    text.split_once(' ').unwrap_or((text, ""))
}

// A request alone is for the handle `a`.
fn call_of(rest: &str) -> Option<Command<'_>> {
    match rest.split_once(' ') {
        Some((handle, request)) => Some(Command::Call(handle_of(handle)?, request.parse().ok()?)),
        None => Some(Command::Call(0, rest.parse().ok()?)),
    }
}

fn drop_of(rest: &str) -> Option<Command<'_>> {
    match handle_of(rest) {
        Some(handle) => Some(Command::DropHandle(handle)),
        None => Some(Command::DropFuture(rest.parse().ok()?)),
    }
}

fn named_or_first(rest: &str) -> Option<usize> {
    if rest.is_empty() {
        return Some(0);
    }
    handle_of(rest)
}

/// What this text asks, if it can be read. Words that aren't the language's are the program's, as `drop worker`.
pub(crate) fn command_of(text: &str) -> Option<Command<'_>> {
    let (word, rest) = head_of(text);
    match word {
        "poll" => Some(Command::Poll(named_or_first(rest)?)),
        "call" => call_of(rest),
        "clone" => Some(Command::Clone(named_or_first(rest)?)),
        "fut" => Some(Command::Future(rest.parse().ok()?)),
        "drop" => Some(drop_of(rest).unwrap_or(Command::Other(text))),
        "end" if rest.is_empty() => Some(Command::End),
        "count" => Some(Command::Count(rest)),
        "quiet" if rest.is_empty() => Some(Command::Directive(Directive::Quiet)),
        "stirs" if rest.is_empty() => Some(Command::Directive(Directive::Stirs)),
        "at" => Some(Command::Directive(Directive::At(rest.parse().ok()?))),
        "others" => Some(Command::Directive(change_of(Side::Others, rest)?)),
        "clones" | "answer" | "readiness" | "replies" => Some(Command::Directive(change_of(
            Side::Services,
            text,
        )?)),
        _ => Some(Command::Other(text)),
    }
}

/// The change of this text.
pub(crate) fn directive_of(text: &str) -> Option<Directive<'_>> {
    match command_of(text)? {
        Command::Directive(turn) => Some(turn),
        _ => None,
    }
}

fn change_of(side: Side, text: &str) -> Option<Directive<'_>> {
    let (word, rest) = head_of(text);
    match word {
        "clones" => Some(Directive::Clones(side, rest.parse().ok()?)),
        "answer" => answered(side, rest),
        "readiness" => Some(Directive::Readiness(side, rest)),
        "replies" => Some(Directive::Replies(side, rest)),
        _ => None,
    }
}

// `0 ok 7` or `0 err 7`.
fn answered(side: Side, text: &str) -> Option<Directive<'_>> {
    let (call, answer) = text.split_once(' ')?;
    let (word, value) = answer.split_once(' ')?;
    Some(Directive::Answer(side, call.parse().ok()?, answer_of(word, value)?))
}

// `ok 7` or `err 7`.
fn answer_of(word: &str, number: &str) -> Option<Result<u8, u8>> {
    match word {
        "ok" => Some(Ok(number.parse().ok()?)),
        "err" => Some(Err(number.parse().ok()?)),
        _ => None,
    }
}

// `ready`, `pending` or `error 7`.
fn readiness_of(text: &str) -> Option<Readiness> {
    match text {
        "ready" => Some(Readiness::Ready),
        "pending" => Some(Readiness::Pending),
        _ => Some(Readiness::Error(text.strip_prefix("error ")?.parse().ok()?)),
    }
}

/// Words as `ready, pending, error 7`. There is no list if a word isn't one.
pub fn readiness_list(alloc: Global, text: &str) -> Result<Option<Vec<Readiness>>, AllocError> {
    let mut list = Vec::new(alloc);
    for word in text.split(',') {
        match readiness_of(word.trim()) {
            Some(readiness) => list.push(readiness)?,
            None => return Ok(None),
        }
    }
    Ok(Some(list))
}

// `later`, `never`, `echo`, `fail`, `echo 1`, `fail 1`, `ok 7`, `err 7`, `ok 7 after 2`.
fn reply_of(words: &[&str]) -> Option<Reply> {
    match words {
        ["later"] => Some(Reply::Later),
        ["never"] => Some(Reply::Never),
        ["echo"] => Some(Reply::Echo(0)),
        ["fail"] => Some(Reply::Fail(0)),
        ["echo", polls] => Some(Reply::Echo(polls.parse().ok()?)),
        ["fail", polls] => Some(Reply::Fail(polls.parse().ok()?)),
        [word, number] => Some(Reply::Give(0, answer_of(word, number)?)),
        [word, number, "after", polls] => {
            Some(Reply::Give(polls.parse().ok()?, answer_of(word, number)?))
        }
        _ => None,
    }
}

/// Words as `never, echo 1, ok 7`. There is no list if a word isn't one.
pub fn replies_list(alloc: Global, text: &str) -> Result<Option<Vec<Reply>>, AllocError> {
    let mut list = Vec::new(alloc);
    for word in text.split(',') {
        let words: Vec<&str> = word.split_whitespace().collect(alloc)?;
        match reply_of(words.as_slice()) {
            Some(reply) => list.push(reply)?,
            None => return Ok(None),
        }
    }
    Ok(Some(list))
}
