//! The endpoints `a` to `d`, each with a plan of its own, and with a load.
ghost use Rattle.std.specs.Prelude.{⊤, None, false, refl};
ghost use Rattle.std.specs.Cmp.Rules.{comparing};
ghost use Rattle.std.proofs.Common.{rules};

use futures::task::{Context, Poll};
use scripted::command::{readiness_list, replies_list};
use std::alloc::{AllocError, Global};
use std::cmp::Ordering;
use tests_support::log::Log;
use tests_support::script::Script as Plan;
use tests_support::service::Scripted;
use tower_base::service::Service;
use tower_limit::load::Load;

/// The plans of the endpoints.
#[derive(Drop)]
pub struct Fleet<'a> {
    pub log: &'a Log,
    a: Plan<'a>,
    b: Plan<'a>,
    c: Plan<'a>,
    d: Plan<'a>,
}

impl<'a> Fleet<'a> {
    pub fn new(log: &'a Log) -> Fleet<'a> {
        Fleet {
            log,
            a: Plan::new(log),
            b: Plan::new(log),
            c: Plan::new(log),
            d: Plan::new(log),
        }
    }

    /// The plan of this letter; `d` for all from `d` on.
    pub fn plan(&self, letter: char) -> &Plan<'a> {
        match letter {
            'a' => &self.a,
            'b' => &self.b,
            'c' => &self.c,
            _ => &self.d,
        }
    }

    /// An endpoint of this letter.
    pub fn endpoint(&'a self, letter: char) -> Scripted<'a> {
        Scripted::new(self.plan(letter), letter)
    }

    /// `a readiness pending` and `a replies never` say what `a` answers from then on. Answers whether the words are such.
    pub fn change(&self, alloc: Global, words: &str) -> Result<bool, AllocError> {
        let Some((name, words)) = words.split_once(' ') else {
            return Ok(false);
        };
        let Some((word, list)) = words.split_once(' ') else {
            return Ok(false);
        };
        let Some(letter) = letter_of(name) else {
            return Ok(false);
        };
        match word {
            "readiness" => match readiness_list(alloc, list)? {
                Some(list) => self.plan(letter).readiness(list.as_slice()),
                None => return Ok(false),
            },
            "replies" => match replies_list(alloc, list)? {
                Some(list) => self.plan(letter).replies(list.as_slice()),
                None => return Ok(false),
            },
            _ => return Ok(false),
        }
        Ok(true)
    }
}

/// The letter of an endpoint.
pub fn letter_of(name: &str) -> Option<char> {
    match name {
        "a" => Some('a'),
        "b" => Some('b'),
        "c" => Some('c'),
        "d" => Some('d'),
        _ => None,
    }
}

/// A load that is made of a number.
pub trait Weight: Copy + PartialOrd + Drop {
    fn of(number: u8) -> Self;
}

impl Weight for u8 {
    fn of(number: u8) -> u8 {
        number
    }
}

/// A load that compares with none.
#[derive(Clone, Copy, Debug)]
pub struct Never;

impl PartialEq for Never {
    ghost eq = { λ _ _. false };

    ghost laws = { Prim.search (comparing, rules) };

    fn eq(&self, _other: &Never) -> bool {
        false
    }
}

impl PartialOrd for Never {
    ghost partial_cmp = { λ _ _. None };

    ghost laws = { Prim.search (comparing, rules) };

    fn partial_cmp(&self, _other: &Never) -> Option<Ordering> {
        None
    }
}

impl Weight for Never {
    fn of(_number: u8) -> Never {
        Never
    }
}

/// An endpoint with a load that never changes. It notes where it is told.
#[derive(Drop)]
pub struct Weighed<'a, M: Drop> {
    inner: Scripted<'a>,
    log: &'a Log,
    letter: char,
    load: M,
}

impl<'a, M: Weight> Weighed<'a, M> {
    pub fn new(fleet: &'a Fleet<'a>, letter: char, load: u8) -> Weighed<'a, M> {
        Weighed {
            inner: fleet.endpoint(letter),
            log: fleet.log,
            letter,
            load: M::of(load),
        }
    }
}

impl<'a, M: Weight> Load for Weighed<'a, M> {
    type Metric = M;

    ghost loaded = { λ _ _. ⊤ };

    fn load(&self) -> M {
        self.log.note(format_args!("{} weighed", self.letter));
        self.load
    }
}

impl<'a, M: Drop> Service<u8> for Weighed<'a, M> {
    type Response = u8;

    type Error = u8;

    type Future = <Scripted<'a> as Service<u8>>::Future;

    ghost ready = { λ w. ⟦<Scripted<'a> as Service<u8>>⟧.ready w.inner };

    ghost polled = { λ old answer new. ⟦<Scripted<'a> as Service<u8>>⟧.polled old.inner answer new.inner };

    ghost called = { λ old request future new. ⟦<Scripted<'a> as Service<u8>>⟧.called old.inner request future new.inner };

    ghost readies = { λ old new p. p refl };

    fn poll_ready(&mut self, cx: &mut Context<'_>) -> Poll<Result<(), u8>> {
        self.inner.poll_ready(cx)
    }

    fn call(&mut self, request: u8) -> Self::Future {
        self.inner.call(request)
    }
}
