// The tokens that tie receipts to the history.
ghost use Rattle.std.specs.Prelude.{Option};

use atomic_table::{Join, Split};
use crossbeam_utils::atomic::seq_cell::{Pass, RuledSeqCell};
use crossbeam_utils::rule::{Outcome, Protocol};
use std::collections::LinkedList;
use std::marker::{Brand, PhantomData};

// What a token knows. The keeper of the log knows all entries, and a pass knows what it claims. No value
// of this type is ever made.
pub struct View<S, R> {
    pub keeps: bool,
    pub all: LinkedList<(S, R)>,
    pub claims: LinkedList<(u64, S, R)>,
}

/// A type that names one entry, for one call.
pub trait Entry<S, R> {
    ghost entry: { Option (S × R) };
}

impl<S, R> Entry<S, R> for Brand {
    ghost use Rattle.std.specs.Prelude.{None};

    ghost entry = { None };
}

pub struct Journal;

impl<S, R> Protocol<[u64; 1], View<S, R>> for Journal {
    ghost use Rattle.std.specs.Prelude.{[]};
    ghost use Rattle.tower_latch.specs.Tokens.{knower, Agree};

    ghost holds = { Agree };

    ghost first = { knower [] };
}

pub struct Appends<E> {
    entry: PhantomData<E>,
}

impl<S, R, E: Entry<S, R>> Outcome<[u64; 1], View<S, R>> for Appends<E> {
    ghost use Rattle.tower_latch.specs.Tokens.{Appended};

    ghost then = { Appended E.entry };
}

pub struct Compares;

impl<S, R> Outcome<[u64; 1], View<S, R>> for Compares {
    ghost use Rattle.tower_latch.specs.Tokens.{Compared};

    ghost then = { Compared };
}

/// Moves the claims to the second token.
pub struct Claims;

impl<S, R> Split<View<S, R>> for Claims {
    ghost use Rattle.tower_latch.specs.Tokens.{kept_part, claims_part};

    ghost left = { kept_part };

    ghost right = { claims_part };
}

impl<S, R> Join<View<S, R>> for Claims {
    ghost use Rattle.std.specs.Prelude.{[]};
    ghost use Rattle.tower_latch.specs.Tokens.{shown, claimer};

    ghost both = { shown };

    ghost spent = { claimer [] };
}

/// Adds the claims of the second token to the first.
pub struct Gathers;

impl<S, R> Join<View<S, R>> for Gathers {
    ghost use Rattle.std.specs.Prelude.{[]};
    ghost use Rattle.tower_latch.specs.Tokens.{gathered, claimer};

    ghost both = { gathered };

    ghost spent = { claimer [] };
}

pub type Cell<S, R> = RuledSeqCell<[u64; 1], View<S, R>, Journal, 1>;

/// A token of the cell. It has no bytes.
pub type PassToken<S, R> = Pass<[u64; 1], View<S, R>>;
