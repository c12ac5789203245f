//! A policy of retries that follows a script.
ghost use Rattle.std.specs.Prelude.{⊤};

use futures::future::{Ready, ready};
use scripted::party::Party;
use std::alloc::{AllocError, Global};
use std::cell::Cell;
use tests_support::future::After;
use tests_support::log::Name;
use tests_support::script::{Script, told_clone};
use tower_retry::retry::Policy;

/// What a policy says about one result.
#[derive(Clone, Copy, Debug, PartialEq, Eq)]
enum Word {
    /// The result is the answer.
    Done,
    /// The request is made again, after so many pending polls of the wait.
    Again(u8),
    /// This request is made in its place, after so many pending polls of the wait.
    Change(u8, u8),
    /// This is the answer in its place.
    Answer(Result<u8, u8>),
    /// The request is made again, now and each time after.
    Always,
}

// `done`, `always`, `again`, `again 1`, `change 9`, `change 9 1`, `answer ok 4`, `answer err 4`.
fn word_of(words: &[&str]) -> Option<Word> {
    match words {
        ["done"] => Some(Word::Done),
        ["always"] => Some(Word::Always),
        ["again"] => Some(Word::Again(0)),
        ["again", polls] => Some(Word::Again(polls.parse().ok()?)),
        ["change", request] => Some(Word::Change(request.parse().ok()?, 0)),
        ["change", request, polls] => {
            Some(Word::Change(request.parse().ok()?, polls.parse().ok()?))
        }
        ["answer", "ok", number] => Some(Word::Answer(Ok(number.parse().ok()?))),
        ["answer", "err", number] => Some(Word::Answer(Err(number.parse().ok()?))),
        _ => None,
    }
}

/// The words of a policy and its clones in order, four at most. After them it says that the result is the answer.
#[derive(Drop)]
pub struct Words {
    alloc: Global,
    words: Cell<[Word; 4]>,
    at: Cell<usize>,
}

impl Words {
    /// It says nothing else yet.
    pub fn new(alloc: Global) -> Words {
        Words {
            alloc,
            words: Cell::new([Word::Done; 4]),
            at: Cell::new(0),
        }
    }

    fn next(&self) -> Word {
        let words = self.words.get();
        let at = self.at.get();
        let word = words.get(at).copied().unwrap_or(Word::Done);
        if word != Word::Always {
            self.at.set(at.saturating_add(1));
        }
        word
    }

    // Whether the words could be read.
    fn say(&self, text: &str) -> Result<bool, AllocError> {
        let mut said = [Word::Done; 4];
        for (place, text) in text.split(',').enumerate() {
            let words: Vec<&str> = text.split_whitespace().collect(self.alloc)?;
            match (said.get_mut(place), word_of(words.as_slice())) {
                (Some(slot), Some(word)) => *slot = word,
                _ => return Ok(false),
            }
        }
        self.words.set(said);
        self.at.set(0);
        Ok(true)
    }
}

/// The side of a script that says what the policy is to say: `policy again, done`.
#[derive(Drop)]
pub struct Speaker<'s> {
    pub words: &'s Words,
}

impl<'s> Party for Speaker<'s> {
    fn act(&mut self, words: &str) -> Result<Option<String>, AllocError> {
        let Some(said) = words.strip_prefix("policy ") else {
            return Ok(None);
        };
        if !self.words.say(said)? {
            return Ok(None);
        }
        Ok(Some(String::new(self.words.alloc)))
    }

    fn end(&mut self) {}
}

/// Says one word after another, through all its clones. It notes what it is asked and each
/// copy of a request, its clones and its drop. Its clones follow the script's count.
pub struct Rule<'w, 'a> {
    script: &'a Script<'a>,
    words: &'w Words,
    name: Name,
    copies: bool,
}

impl<'w, 'a> Rule<'w, 'a> {
    /// It copies requests, or none of them.
    pub fn new(script: &'a Script<'a>, words: &'w Words, copies: bool) -> Rule<'w, 'a> {
        Rule {
            script,
            words,
            name: Name::new('r'),
            copies,
        }
    }
}

impl<'w, 'a> Policy<u8, u8, u8> for Rule<'w, 'a> {
    type Future = After<'a, ()>;

    ghost decided = { λ _ _ _ _ _ _ _. ⊤ };

    ghost cloned = { λ _ _ _ _. ⊤ };

    fn retry(&mut self, request: &mut u8, outcome: &mut Result<u8, u8>) -> Option<After<'a, ()>> {
        let log = self.script.log;
        log.note(format_args!("{} asked {outcome:?}", self.name));
        let wait = match self.words.next() {
            Word::Done => return None,
            Word::Always => 0,
            Word::Again(polls) => polls,
            Word::Change(other, polls) => {
                *request = other;
                polls
            }
            Word::Answer(answer) => {
                *outcome = answer;
                return None;
            }
        };
        Some(After::new(log, 'w', wait, ()))
    }

    fn clone_request(&mut self, request: &u8) -> Option<u8> {
        let log = self.script.log;
        if !self.copies {
            log.note(format_args!("{} left {request}", self.name));
            return None;
        }
        log.note(format_args!("{} copied {request}", self.name));
        Some(*request)
    }
}

impl<'w, 'a> Clone for Rule<'w, 'a> {
    fn clone(&self) -> Result<Rule<'w, 'a>, AllocError> {
        let name = told_clone(self.script, self.name)?;
        Ok(Rule {
            script: self.script,
            words: self.words,
            name,
            copies: self.copies,
        })
    }
}

impl<'w, 'a> Drop for Rule<'w, 'a> {
    fn drop(self) {
        self.script.log.note(format_args!("{} dropped", self.name));
        let Rule {
            script: _,
            words: _,
            name: _,
            copies: _,
        } = self;
    }
}

/// Retries each error at once, so many times, whatever errors there are. It notes nothing.
#[derive(Clone, Copy)]
pub struct Stubborn {
    pub left: u8,
}

impl<E: Drop> Policy<u8, u8, E> for Stubborn {
    type Future = Ready<()>;

    ghost decided = { λ _ _ _ _ _ _ _. ⊤ };

    ghost cloned = { λ _ _ _ _. ⊤ };

    fn retry(&mut self, _request: &mut u8, outcome: &mut Result<u8, E>) -> Option<Ready<()>> {
        if outcome.is_ok() || self.left == 0 {
            return None;
        }
        self.left -= 1;
        Some(ready(()))
    }

    fn clone_request(&mut self, request: &u8) -> Option<u8> {
        Some(*request)
    }
}
