//! A service that follows a script, and a maker of such services.
ghost use Rattle.std.specs.Prelude.{◌≡◌, ⊤, Ok, true, refl, IsSome};
ghost use Rattle.futures.specs.Poll.{OnPending};
ghost use Rattle.futures.specs.Task.{IsArmed, Keeps};
ghost use Rattle.futures.specs.declared.task.Poll.TheVariants.{Ready};

use crate::future::{After, Response, plan, planned};
use crate::log::Name;
use crate::script::{Readiness, Script, told_clone};
use futures::task::{Context, Poll};
use std::alloc::AllocError;
use std::fmt::{self, Display};
use tower_base::service::Service;

/// A service that does what its script says. It notes its polls, calls, clones and drop, and where a call
/// wasn't allowed.
pub struct Scripted<'a> {
    script: &'a Script<'a>,
    name: Name,
    is_ready: bool,
}

impl<'a> Scripted<'a> {
    pub fn new(script: &'a Script<'a>, letter: char) -> Scripted<'a> {
        Scripted {
            script,
            name: Name::new(letter),
            is_ready: false,
        }
    }
}

// Notes a poll of readiness and its answer.
fn told_readiness(script: &Script<'_>, name: Name, cx: &mut Context<'_>) -> Poll<Result<(), u8>>
    ensures armed { OnPending result (IsArmed cx.new) }
    ensures kept { Keeps cx.old cx.new }
{
    match script.next_readiness() {
        Readiness::Ready => {
            script.log.note(format_args!("{name} ready"));
            script.log.ready(cx);
            Poll::Ready(Ok(()))
        }
        Readiness::Pending => {
            script.log.note(format_args!("{name} pending"));
            script.log.pending(cx)
        }
        Readiness::Error(error) => {
            script.log.note(format_args!("{name} error {error}"));
            script.log.ready(cx);
            Poll::Ready(Err(error))
        }
    }
}

// Notes a call, and where it wasn't allowed.
fn told_call(script: &Script<'_>, name: Name, request: u8, is_ready: bool) {
    let unready = if is_ready { "" } else { " unready" };
    script
        .log
        .note(format_args!("{name} called {request}{unready}"));
}

impl<'a> Service<u8> for Scripted<'a> {
    type Response = u8;

    type Error = u8;

    type Future = Response<'a>;

    ghost ready = { λ s. s.is_ready ≡ true };

    ghost polled = { λ old answer new. (answer ≡ Ready (Ok tt)) → (new.is_ready ≡ true) };

    ghost called = { λ _ _ _ _. ⊤ };

    ghost readies = { λ old new p. p refl };

    fn poll_ready(&mut self, cx: &mut Context<'_>) -> Poll<Result<(), u8>> {
        let answer = told_readiness(self.script, self.name, cx);
        self.is_ready = matches!(answer, Poll::Ready(Ok(())));
        answer
    }

    fn call(&mut self, request: u8) -> Response<'a> {
        told_call(self.script, self.name, request, self.is_ready);
        self.is_ready = false;
        Response::new(self.script, self.name, request)
    }
}

impl<'a> Clone for Scripted<'a> {
    fn clone(&self) -> Result<Scripted<'a>, AllocError> {
        let name = told_clone(self.script, self.name)?;
        Ok(Scripted {
            script: self.script,
            name,
            is_ready: false,
        })
    }
}

impl Display for Scripted<'_> {
    fn fmt<W: fmt::Write>(&self, f: &mut fmt::Formatter<W>) -> fmt::Result {
        write!(f, "{}", self.name)
    }
}

impl<'a> Drop for Scripted<'a> {
    fn drop(self) {
        self.script.log.note(format_args!("{} dropped", self.name));
        let Scripted {
            script: _,
            name: _,
            is_ready: _,
        } = self;
    }
}

/// Where a maker connects to. It notes its clones and drop, which follow the script of the services.
pub struct Target<'a> {
    script: &'a Script<'a>,
    name: Name,
    number: u8,
}

impl<'a> Target<'a> {
    pub fn new(script: &'a Script<'a>, letter: char, number: u8) -> Target<'a> {
        Target {
            script,
            name: Name::new(letter),
            number,
        }
    }
}

impl<'a> Clone for Target<'a> {
    fn clone(&self) -> Result<Target<'a>, AllocError> {
        let name = told_clone(self.script, self.name)?;
        Ok(Target {
            script: self.script,
            name,
            number: self.number,
        })
    }
}

impl<'a> Drop for Target<'a> {
    fn drop(self) {
        self.script.log.note(format_args!("{} dropped", self.name));
        let Target {
            script: _,
            name: _,
            number: _,
        } = self;
    }
}

/// A service that makes scripted services, by a script of its own. Those that it makes follow the other script
/// and are named as copies of one. It notes what `Scripted` notes.
pub struct Maker<'a> {
    script: &'a Script<'a>,
    name: Name,
    made: &'a Script<'a>,
    letter: char,
    is_ready: bool,
}

impl<'a> Maker<'a> {
    /// Its services have the letter of the last argument.
    pub fn new(
        script: &'a Script<'a>,
        letter: char,
        made: &'a Script<'a>,
        made_letter: char,
    ) -> Maker<'a> {
        Maker {
            script,
            name: Name::new(letter),
            made,
            letter: made_letter,
            is_ready: false,
        }
    }

    fn make(&self) -> Scripted<'a> {
        Scripted {
            script: self.made,
            name: Name::new(self.letter).of_copy(self.made.log),
            is_ready: false,
        }
    }
}

impl<'a> Service<Target<'a>> for Maker<'a> {
    type Response = Scripted<'a>;

    type Error = u8;

    type Future = After<'a, Result<Scripted<'a>, u8>>;

    ghost ready = { λ s. s.is_ready ≡ true };

    ghost polled = { λ old answer new. (answer ≡ Ready (Ok tt)) → (new.is_ready ≡ true) };

    ghost called = { λ _ _ future _. IsSome future.answer };

    ghost readies = { λ old new p. p refl };

    fn poll_ready(&mut self, cx: &mut Context<'_>) -> Poll<Result<(), u8>> {
        let answer = told_readiness(self.script, self.name, cx);
        self.is_ready = matches!(answer, Poll::Ready(Ok(())));
        answer
    }

    fn call(&mut self, place: Target<'a>) -> After<'a, Result<Scripted<'a>, u8>> {
        told_call(self.script, self.name, place.number, self.is_ready);
        self.is_ready = false;
        let (when, answer) = plan(self.script, place.number);
        let answer = match answer {
            Ok(_) => Ok(self.make()),
            Err(error) => Err(error),
        };
        planned(self.script.log, self.name, place.number, when, answer)
    }
}

impl<'a> Drop for Maker<'a> {
    fn drop(self) {
        self.script.log.note(format_args!("{} dropped", self.name));
        let Maker {
            script: _,
            name: _,
            made: _,
            letter: _,
            is_ready: _,
        } = self;
    }
}
