//! The one list of what happened.
ghost use Rattle.std.specs.Prelude.{◌≡◌};
ghost use Rattle.futures.specs.Task.{IsArmed, Keeps};

use futures::future::{Future, Pending, pending};
use futures::task::{Context, Poll};
use std::alloc::{AllocError, Global};
use std::cell::{Cell, RefCell};
use std::fmt::{self, Display, Write};

// Room for the list, in bytes.
const ROOM: usize = 8192;

/// What happened to all parts of a test, in order, each as a few words before a semicolon. Parts that are pending wake their task, unless the
/// log is quiet. If it is stirred, each poll of a part wakes its task.
#[derive(Drop)]
pub struct Log {
    text: RefCell<String>,
    copies: Cell<u8>,
    is_quiet: Cell<bool>,
    is_stirred: Cell<bool>,
    idle: RefCell<Pending<()>>,
}

impl Log {
    /// Its room is made now.
    pub fn new(alloc: Global) -> Result<Log, AllocError> {
        Ok(Log {
            text: RefCell::new(String::with_capacity(alloc, ROOM)?),
            copies: Cell::new(0),
            is_quiet: Cell::new(false),
            is_stirred: Cell::new(false),
            idle: RefCell::new(pending()),
        })
    }

    /// From now on parts that are pending wait for what never comes, and wake nobody.
    pub fn hush(&self) {
        self.is_quiet.set(true);
    }

    /// Whether parts that are pending wake nobody.
    pub fn is_quiet(&self) -> bool {
        self.is_quiet.get()
    }

    /// From now on each poll of a part wakes its task, whatever it returns.
    pub fn stir(&self) {
        self.is_stirred.set(true);
    }

    /// A poll that is ready. Its task is woken if the log is stirred.
    pub fn ready(&self, cx: &mut Context<'_>)
        ensures { Keeps cx.old cx.new }
    {
        if self.is_stirred.get() {
            let _: Poll<()> = cx.yield_now();
        }
    }

    /// A poll that is pending. Its task is woken, unless the log is quiet.
    pub fn pending<T>(&self, cx: &mut Context<'_>) -> Poll<T>
        ensures pending { result ≡ Poll.Pending }
        ensures armed { IsArmed cx.new }
        ensures kept { Keeps cx.old cx.new }
    {
        if self.is_quiet() {
            return self.wait(cx);
        }
        cx.yield_now()
    }

    /// A poll that is pending. Nothing wakes its task, unless the log is stirred.
    pub fn wait<T>(&self, cx: &mut Context<'_>) -> Poll<T>
        ensures pending { result ≡ Poll.Pending }
        ensures armed { IsArmed cx.new }
        ensures kept { Keeps cx.old cx.new }
    {
        match self.idle.try_borrow_mut() {
            Ok(_) if self.is_stirred.get() => cx.yield_now(),
            Ok(mut idle) => {
                let _: Poll<()> = idle.poll(cx);
                Poll::Pending
            }
            Err(_) => cx.yield_now(),
        }
    }

    /// Adds an event: `log.note(format_args!("f asked {x}"))`.
    pub fn note<T: Display + Drop>(&self, event: T) {
        if let Ok(mut text) = self.text.try_borrow_mut() {
            let _ = write!(text, "{event};");
        }
    }

    /// What was noted since the last look.
    pub fn told(&self, alloc: Global) -> Result<String, AllocError> {
        let mut told = String::new(alloc);
        if let Ok(mut text) = self.text.try_borrow_mut() {
            told.push_str(text.as_str())?;
            text.clear();
        }
        Ok(told)
    }

    // The number of the next copy.
    pub(crate) fn next_copy(&self) -> u8 {
        let copy = self.copies.get().saturating_add(1);
        self.copies.set(copy);
        copy
    }
}

/// A part as the list has it: `a`, a copy of it that is the third of all parts' copies `a3`, the future that it gives for 6 `a(6)`.
#[derive(Clone, Copy, Debug, PartialEq, Eq)]
pub struct Name {
    letter: char,
    copy: u8,
    request: Option<u8>,
}

impl Name {
    pub fn new(letter: char) -> Name {
        Name {
            letter,
            copy: 0,
            request: None,
        }
    }

    // The name of a further copy.
    pub(crate) fn of_copy(self, log: &Log) -> Name {
        Name {
            copy: log.next_copy(),
            ..self
        }
    }

    // The name of the future of a request.
    pub(crate) fn of_future(self, request: u8) -> Name {
        Name {
            request: Some(request),
            ..self
        }
    }
}

impl Display for Name {
    fn fmt<W: fmt::Write>(&self, f: &mut fmt::Formatter<W>) -> fmt::Result {
        write!(f, "{}", self.letter)?;
        if self.copy > 0 {
            write!(f, "{}", self.copy)?;
        }
        match self.request {
            Some(request) => write!(f, "({request})"),
            None => Ok(()),
        }
    }
}
