//! The rounds that were made, counted by their permits.
ghost use Rattle.std.specs.Prelude.{◌≡◌, ℕ, ◌+◌, ◌<◌, ◌^◌};

use std::fmt;
use std::fmt::Display;
use std::marker::Model;
use tower_latch::Latch;
use tower_limit::limit::concurrency::{LineCore, Permit};

/// A number of rounds. Only a permit makes it greater: each round that is counted gives one back.
#[derive(Drop)]
pub struct Rounds(u64);

impl Model for Rounds {
    ghost Value = { ℕ };

    ghost view = { λ rounds. rounds.0 };
}

impl Rounds {
    /// Returns zero rounds.
    pub fn none() -> Rounds
        ensures { result ≡ 0 }
    {
        Rounds(0)
    }

    /// Counts one round more, and gives its permit back.
    pub fn count<L: Latch<LineCore>>(&mut self, permit: Permit<L>)
        requires { self.old + 1 < 2 ^ 64 }
        ensures { self.new ≡ self.old + 1 }
    {
        drop(permit);
        self.0 += 1;
    }

    /// Returns the rounds of both.
    pub fn and(self, others: Rounds) -> Rounds
        requires { self + others < 2 ^ 64 }
        ensures { result ≡ self + others }
    {
        Rounds(self.0 + others.0)
    }
}

impl Display for Rounds {
    fn fmt<W: fmt::Write>(&self, f: &mut fmt::Formatter<W>) -> fmt::Result {
        let made = self.0;
        write!(f, "{made}")
    }
}
