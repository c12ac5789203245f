//! A discovery that finds what a script has it find.
ghost use Rattle.std.specs.Prelude.{⊤};

use crate::fleet::{Fleet, Weighed, Weight, letter_of};
use futures::task::{Context, Poll};
use std::alloc::{AllocError, Global};
use std::cell::{Cell, RefCell};
use std::marker::PhantomData;
use tests_support::log::Log;
use tower_limit::discover::{Change, Discover};

/// What a poll of the discovery finds.
#[derive(Clone, Copy)]
enum Find {
    /// An endpoint of this letter and load under this key.
    Insert(u16, char, u8),
    Remove(u16),
    Error(u8),
}

/// What is to be found, one after another.
#[derive(Drop)]
pub struct Findings {
    list: RefCell<Vec<Find>>,
    at: Cell<usize>,
    is_closed: Cell<bool>,
    /// A key under which an endpoint comes and goes for ever, and whether it is there.
    turns: Cell<Option<(u16, char)>>,
    is_there: Cell<bool>,
}

// `1 a 5` and `0..100 a 5`.
fn inserts_of(words: &str) -> Option<(u16, u16, char, u8)> {
    let (keys, rest) = words.split_once(' ')?;
    let (name, load) = rest.split_once(' ')?;
    let (letter, load) = (letter_of(name)?, load.parse().ok()?);
    match keys.split_once("..") {
        Some((first, end)) => Some((first.parse().ok()?, end.parse().ok()?, letter, load)),
        None => {
            let key: u16 = keys.parse().ok()?;
            Some((key, key.saturating_add(1), letter, load))
        }
    }
}

// `0 a`.
fn turns_of(words: &str) -> Option<(u16, char)> {
    let (key, name) = words.split_once(' ')?;
    Some((key.parse().ok()?, letter_of(name)?))
}

impl Findings {
    /// Nothing yet.
    pub fn new(alloc: Global) -> Findings {
        Findings {
            list: RefCell::new(Vec::new(alloc)),
            at: Cell::new(0),
            is_closed: Cell::new(false),
            turns: Cell::new(None),
            is_there: Cell::new(false),
        }
    }

    fn add(&self, find: Find) -> Result<(), AllocError> {
        match self.list.try_borrow_mut() {
            Ok(mut list) => list.push(find)?,
            Err(_) => {}
        }
        Ok(())
    }

    /// `insert 1 a 5`, `insert 0..100 a 5`, `remove 1`, `fail 7`, `close`, and `turns 0 a`: an endpoint that comes and goes for ever. Answers
    /// whether the words are such.
    pub fn change(&self, words: &str) -> Result<bool, AllocError> {
        if words == "close" {
            self.is_closed.set(true);
            return Ok(true);
        }
        let (word, rest) = words.split_once(' ').unwrap_or((words, ""));
        match word {
            "insert" => {
                let Some((first, end, letter, load)) = inserts_of(rest) else {
                    return Ok(false);
                };
                for key in first..end {
                    self.add(Find::Insert(key, letter, load))?;
                }
            }
            "remove" => match rest.parse() {
                Ok(key) => self.add(Find::Remove(key))?,
                Err(_) => return Ok(false),
            },
            "fail" => match rest.parse() {
                Ok(error) => self.add(Find::Error(error))?,
                Err(_) => return Ok(false),
            },
            "turns" => match turns_of(rest) {
                Some(turns) => self.turns.set(Some(turns)),
                None => return Ok(false),
            },
            _ => return Ok(false),
        }
        Ok(true)
    }

    // The next of what comes and goes.
    fn turn(&self, key: u16, letter: char) -> Find {
        let is_there = self.is_there.get();
        self.is_there.set(!is_there);
        if is_there {
            Find::Remove(key)
        } else {
            Find::Insert(key, letter, 0)
        }
    }

    fn next(&self) -> Option<Find> {
        if let Some((key, letter)) = self.turns.get() {
            return Some(self.turn(key, letter));
        }
        let at = self.at.get();
        let find = match self.list.try_borrow() {
            Ok(list) => list.get(at).copied(),
            Err(_) => None,
        };
        if find.is_some() {
            self.at.set(at.saturating_add(1));
        }
        find
    }
}

/// Finds one after another, and is pending between them. It notes what it finds and its drop.
pub struct Changes<'a, M> {
    fleet: &'a Fleet<'a>,
    findings: &'a Findings,
    of: PhantomData<M>,
}

impl<'a, M> Changes<'a, M> {
    pub fn new(fleet: &'a Fleet<'a>, findings: &'a Findings) -> Changes<'a, M> {
        Changes {
            fleet,
            findings,
            of: PhantomData,
        }
    }
}

// Notes what is found.
fn tell(log: &Log, find: Find) {
    match find {
        Find::Insert(key, letter, _) => log.note(format_args!("discovery inserted {key} {letter}")),
        Find::Remove(key) => log.note(format_args!("discovery removed {key}")),
        Find::Error(error) => log.note(format_args!("discovery error {error}")),
    }
}

impl<'a, M: Weight> Discover for Changes<'a, M> {
    type Key = u16;

    type Service = Weighed<'a, M>;

    type Error = u8;

    ghost discovered = { λ _ _ _. ⊤ };

    fn poll_discover(
        &mut self,
        cx: &mut Context<'_>,
    ) -> Poll<Option<Result<Change<u16, Weighed<'a, M>>, u8>>> {
        let log = self.fleet.log;
        let Some(find) = self.findings.next() else {
            if self.findings.is_closed.get() {
                log.note("discovery ended");
                return Poll::Ready(None);
            }
            log.note("discovery pending");
            return log.pending(cx);
        };
        tell(log, find);
        match find {
            Find::Insert(key, letter, load) => {
                let service = Weighed::new(self.fleet, letter, load);
                Poll::Ready(Some(Ok(Change::Insert(key, service))))
            }
            Find::Remove(key) => Poll::Ready(Some(Ok(Change::Remove(key)))),
            Find::Error(error) => Poll::Ready(Some(Err(error))),
        }
    }
}

impl<'a, M> Drop for Changes<'a, M> {
    fn drop(self) {
        self.fleet.log.note("discovery dropped");
        let Changes {
            fleet: _,
            findings: _,
            of: _,
        } = self;
    }
}
