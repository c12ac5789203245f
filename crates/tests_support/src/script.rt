//! What a service and its copies are to do, which a test may change between their polls.

use crate::log::{Log, Name};
use std::alloc::AllocError;
use std::cell::Cell;

/// What a poll of readiness answers.
#[derive(Clone, Copy, Debug, PartialEq, Eq)]
pub enum Readiness {
    Ready,
    /// Pending, and its task is woken, unless the log is quiet.
    Pending,
    Error(u8),
}

/// What a call's future answers. While it is pending its task is woken, but by `Later`, and unless the log is quiet.
#[derive(Clone, Copy, Debug, PartialEq, Eq)]
pub enum Reply {
    /// The request, after so many pending polls.
    Echo(u8),
    /// The request as an error, after so many pending polls.
    Fail(u8),
    /// This, after so many pending polls.
    Give(u8, Result<u8, u8>),
    /// Always pending.
    Never,
    /// What the call is answered later, by `Script::answer`. A maker's call has no such answer.
    Later,
}

/// The script of a service and its copies. It begins with a service that is always ready and answers each
/// request with itself at once, and that has copies.
#[derive(Drop)]
pub struct Script<'a> {
    pub log: &'a Log,
    readiness: Line<Readiness>,
    replies: Line<Reply>,
    clones: Cell<u8>,
    calls: Cell<usize>,
    answers: Cell<[Option<Result<u8, u8>>; 8]>,
}

impl<'a> Script<'a> {
    pub fn new(log: &'a Log) -> Script<'a> {
        Script {
            log,
            readiness: Line::new(&[]),
            replies: Line::new(&[]),
            clones: Cell::new(u8::MAX),
            calls: Cell::new(0),
            answers: Cell::new([None; 8]),
        }
    }

    /// What the next polls of readiness answer, eight at most. The last goes on for ever.
    pub fn readiness(&self, readiness: &[Readiness]) {
        self.readiness.set(readiness);
    }

    /// What the next calls answer, eight at most. The last goes on for ever.
    pub fn replies(&self, replies: &[Reply]) {
        self.replies.set(replies);
    }

    /// How many clones there are before they are refused for want of memory; 255 is always.
    pub fn clones(&self, clones: u8) {
        self.clones.set(clones);
    }

    /// Answers the call of this number from 0 on, below 8, if it was made and has no answer yet.
    pub fn answer(&self, call: usize, answer: Result<u8, u8>) -> bool {
        let mut answers = self.answers.get();
        if call >= 8 || call >= self.calls.get() || answers[call].is_some() {
            return false;
        }
        answers[call] = Some(answer);
        self.answers.set(answers);
        true
    }

    pub(crate) fn answer_to(&self, call: usize) -> Option<Result<u8, u8>> {
        let answers = self.answers.get();
        *answers.get(call)?
    }

    pub(crate) fn next_readiness(&self) -> Readiness {
        self.readiness.take_but_last().unwrap_or(Readiness::Ready)
    }

    pub(crate) fn next_reply(&self) -> Reply {
        self.replies.take_but_last().unwrap_or(Reply::Echo(0))
    }

    // Counts a call, from 0 on.
    pub(crate) fn next_call(&self) -> usize {
        let call = self.calls.get();
        self.calls.set(call.saturating_add(1));
        call
    }

    pub(crate) fn may_clone(&self) -> bool {
        let clones = self.clones.get();
        if 0 < clones && clones < u8::MAX {
            self.clones.set(clones - 1);
        }
        clones > 0
    }
}

/// The name of a clone, which is noted, or a refusal.
pub fn told_clone(script: &Script<'_>, name: Name) -> Result<Name, AllocError> {
    if !script.may_clone() {
        script.log.note(format_args!("{name} refused"));
        return Err(AllocError);
    }
    let copy = name.of_copy(script.log);
    script.log.note(format_args!("{name} cloned {copy}"));
    Ok(copy)
}

/// A list of at most eight items, of which one after another is taken.
#[derive(Drop)]
pub struct Line<T> {
    items: Cell<[Option<T>; 8]>,
    at: Cell<usize>,
}

impl<T: Copy> Line<T> {
    /// The first eight of the list.
    pub fn new(list: &[T]) -> Line<T> {
        let line = Line {
            items: Cell::new([None; 8]),
            at: Cell::new(0),
        };
        line.set(list);
        line
    }

    fn set(&self, list: &[T]) {
        let item = |place: usize| list.get(place).copied();
        self.items.set([
            item(0),
            item(1),
            item(2),
            item(3),
            item(4),
            item(5),
            item(6),
            item(7),
        ]);
        self.at.set(0);
    }

    fn look(&self, place: usize) -> Option<T> {
        let items = self.items.get();
        *items.get(place)?
    }

    /// Takes the next.
    pub fn take(&self) -> Option<T> {
        let item = self.look(self.at.get())?;
        self.at.set(self.at.get().saturating_add(1));
        Some(item)
    }

    // Takes the next, but leaves the last.
    fn take_but_last(&self) -> Option<T> {
        let at = self.at.get();
        let item = self.look(at)?;
        if self.look(at.saturating_add(1)).is_some() {
            self.at.set(at.saturating_add(1));
        }
        Some(item)
    }
}
