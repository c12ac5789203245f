//! An iterator over the ready endpoints.
ghost use Rattle.std.specs.Prelude.{◌≡◌, length};
ghost use Rattle.std.specs.Iterator.{at_most};
ghost use Rattle.std.specs.Map.Iter.{TakesFirst, deref_pair};

use indexmap::map::Iter;
use std::marker::Model;

/// An iterator over the ready endpoints of a cache, in the order of their indexes. It ends after the
/// last one.
#[derive(Drop)]
pub struct IterReady<'a, K, S> {
    entries: Iter<'a, K, S>,
}

impl<'a, K, S> Model for IterReady<'a, K, S> {
    ghost use Rattle.std.specs.Prelude.{List};

    ghost Value = { List (K × S) };

    ghost view = { λ i. i.entries };
}

impl<'a, K, S> IterReady<'a, K, S> {
    pub(crate) fn new(entries: Iter<'a, K, S>) -> IterReady<'a, K, S>
        ensures { result ≡ entries.entry }
    {
        IterReady { entries }
    }
}

impl<'a, K, S> Iterator for IterReady<'a, K, S> {
    type Item = (&'a K, &'a S);

    // A call of `next` takes the first pair and returns references to its key and value. At the end
    // it returns `None`.
    ghost next_gives = { TakesFirst deref_pair };

    // At most as many calls as there are pairs return one.
    ghost remaining = { λ s. at_most (length s) };

    fn next(&mut self) -> Option<(&'a K, &'a S)> {
        self.entries.next()
    }
}
