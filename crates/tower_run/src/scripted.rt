//! The clock and the inner service that a script controls.
ghost use Rattle.std.specs.Prelude.{◌≡◌, ⊤, true, Ok, refl};
ghost use Rattle.futures.specs.declared.task.Poll.TheVariants.{Ready};
ghost use Rattle.tower_run.specs.Scripted.{Takes};
ghost use Rattle.tower_run.specs.declared.scripted.Grants.TheVariants.{Left};

use crate::script::{Directive, Word};
use futures::future::Future;
use futures::task::{Context, Poll};
use std::alloc::{AllocError, Global};
use std::cell::Cell;
use tower_base::service::{Clock, Service, Steps};

/// The answer to an inner call.
type Reply<'a> = Result<Word<'a>, Word<'a>>;

/// The state that the script and the scripted service share.
#[derive(Drop)]
pub struct State<'a> {
    moment: Cell<u64>,
    grants: Cell<Grants>,
    polls: Cell<u64>,
    calls: Cell<usize>,
    answers: Vec<Cell<Option<Reply<'a>>>>,
}

/// The number of grants that are left.
#[derive(Clone, Copy)]
enum Grants {
    /// Any number is left.
    Unlimited,
    /// This number is left.
    Left(u64),
}

impl Grants {
    // From now on this number of grants is left, however many were.
    fn allow(&mut self, grants: u64)
        ensures { self.new ≡ Left grants }
    {
        *self = Grants::Left(grants);
    }

    // Takes a grant, if there is one. Returns whether it did.
    fn take(&mut self) -> bool
        ensures { Takes self.old result self.new }
    {
        match *self {
            Grants::Unlimited => true,
            Grants::Left(0) => false,
            Grants::Left(grants) => {
                *self = Grants::Left(grants - 1);
                true
            }
        }
    }
}

/// The outcome of a `Directive`.
#[derive(Drop)]
pub enum Turned {
    /// The clock stands at this moment.
    At(u64),
    /// This number of grants is left.
    Allowed(u64),
    /// The inner call of this number has its answer.
    Answered(u64),
    /// The directive was skipped.
    Skipped,
}

impl<'a> State<'a> {
    /// Creates a state whose clock stands at 0, with no limit of grants and room for `calls` inner calls.
    /// Returns an error if allocation fails.
    pub fn new(alloc: Global, calls: usize) -> Result<State<'a>, AllocError> {
        let mut answers = Vec::with_capacity(alloc, calls)?;
        for _ in 0..calls {
            let unanswered: Cell<Option<Reply<'a>>> = Cell::new(None);
            answers.push(unanswered)?;
        }
        Ok(State {
            moment: Cell::new(0),
            grants: Cell::new(Grants::Unlimited),
            polls: Cell::new(0),
            calls: Cell::new(0),
            answers,
        })
    }

    /// Returns a handle to the clock.
    pub fn clock(&self) -> ScriptedClock<'_> {
        ScriptedClock {
            moment: &self.moment,
            last: self.moment.get(),
        }
    }

    /// Makes a change around the service, and returns its outcome.
    pub fn turn(&self, turn: Directive<'a>) -> Turned {
        match turn {
            Directive::At(moment) => {
                self.moment.set(moment);
                Turned::At(moment)
            }
            Directive::Allow(grants) => {
                let mut left = self.grants.get();
                left.allow(grants);
                self.grants.set(left);
                Turned::Allowed(grants)
            }
            Directive::Answer(index, answer) => {
                if self.answer(index as usize, answer) {
                    Turned::Answered(index)
                } else {
                    Turned::Skipped
                }
            }
        }
    }

    // Gives the inner call its answer, if the call was made and has none yet. Returns whether it did.
    fn answer(&self, index: usize, answer: Reply<'a>) -> bool {
        let Some(slot) = self.answers.get(index) else {
            return false;
        };
        let is_open = index < self.calls.get() && slot.get().is_none();
        if is_open {
            slot.set(Some(answer));
        }
        is_open
    }

    // Returns the answer to the inner call, if it has one.
    fn answer_to(&self, index: usize) -> Option<Reply<'a>> {
        self.answers.get(index)?.get()
    }

    // Takes a grant, if there is one. Returns whether it did.
    fn take_grant(&self) -> bool {
        let mut left = self.grants.get();
        let took = left.take();
        self.grants.set(left);
        took
    }

    /// Returns the number of polls of readiness that reached the scripted service.
    pub fn polls(&self) -> u64 {
        self.polls.get()
    }

    /// Returns the number of calls that reached the scripted service.
    pub fn calls(&self) -> usize {
        self.calls.get()
    }
}

/// A clock that shows the moment that the script set.
#[derive(Drop)]
pub struct ScriptedClock<'s> {
    moment: &'s Cell<u64>,
    last: u64,
}

impl Clock for ScriptedClock<'_> {
    ghost reading = { λ clock. clock.last };

    ghost read = { λ old new. ⊤ };

    ghost shared = { λ clock other. ⊤ };

    fn now(&mut self) -> u64 {
        self.last = self.moment.get();
        self.last
    }

    fn share(&self) -> Self {
        ScriptedClock {
            moment: self.moment,
            last: self.last,
        }
    }

    // The task is polled again at once.
    fn wake_at(&mut self, _deadline: u128, cx: &mut Context<'_>) {
        let _pending: Poll<()> = cx.yield_now();
    }
}

/// The inner service of a script.
#[derive(Drop)]
pub struct Scripted<'s, 'a> {
    state: &'s State<'a>,
    has_grant: bool,
}

impl<'s, 'a> Scripted<'s, 'a> {
    pub fn new(state: &'s State<'a>) -> Scripted<'s, 'a> {
        Scripted {
            state,
            has_grant: false,
        }
    }
}

impl<'s, 'a> Service<Word<'a>> for Scripted<'s, 'a> {
    type Response = Word<'a>;

    type Error = Word<'a>;

    type Future = Answer<'s, 'a>;

    ghost ready = { λ service. service.has_grant ≡ true };

    ghost polled = { λ old answer new. (answer ≡ Ready (Ok tt)) → (new.has_grant ≡ true) };

    ghost called = { λ _ _ _ _. ⊤ };

    ghost readies = { λ old new p. p refl };

    fn poll_ready(&mut self, cx: &mut Context<'_>) -> Poll<Result<(), Word<'a>>> {
        let polls = &self.state.polls;
        polls.set(polls.get().saturating_add(1));
        if !self.has_grant {
            self.has_grant = self.state.take_grant();
        }
        if self.has_grant {
            return Poll::Ready(Ok(()));
        }
        cx.yield_now()
    }

    fn call(&mut self, _request: Word<'a>) -> Answer<'s, 'a> {
        self.has_grant = false;
        let calls = &self.state.calls;
        let index = calls.get();
        calls.set(index.saturating_add(1));
        Answer {
            state: self.state,
            index,
        }
    }
}

/// The future of the answer that the script gives to one inner call.
#[derive(Drop)]
pub struct Answer<'s, 'a> {
    state: &'s State<'a>,
    index: usize,
}

impl<'a> Future for Answer<'_, 'a> {
    type Output = Result<Word<'a>, Word<'a>>;

    ghost needs = { λ _ _. ⊤ };

    fn poll(&mut self, cx: &mut Context<'_>) -> Poll<Self::Output> {
        self.step(cx)
    }
}

impl<'a> Steps for Answer<'_, 'a> {
    type Output = Result<Word<'a>, Word<'a>>;

    ghost needs = { λ _ _. ⊤ };

    ghost stepped = { λ _ _ _. ⊤ };

    fn step(&mut self, cx: &mut Context<'_>) -> Poll<Self::Output> {
        if let Some(answer) = self.state.answer_to(self.index) {
            return Poll::Ready(answer);
        }
        cx.yield_now()
    }
}
