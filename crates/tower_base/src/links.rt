//! A linked list of values under keys. A value keeps its key even when it is taken out of the order.
ghost use Rattle.std.specs.Prelude.{◌≡◌, ◌+◌, ◌<◌, ◌≤◌, ◌^◌, true, ◌∷◌, ◌++◌, [], Some, None, OnOk, OnSome, IfNone, IsOk, length, ℕ, Option};
ghost use Rattle.slab.specs.Slab.{get, slab_len, ContainsKey, HasRoomFor, Updates};
ghost use Rattle.tower_base.specs.Order.{has, without, first_or, is_linked};
ghost use Rattle.tower_base.specs.Cells.{place_of, value_of};
ghost use Rattle.tower_base.specs.Ends.{left_slab, left_ends, pushed_slab, pushed_ends};

mod cells;

use cells::{Cells, Entry, LinkState};
use std::alloc::{AllocError, Global};
use std::marker::Model;

// The ends of the order, and its length.
#[derive(Drop)]
struct Ends {
    first: Option<usize>,
    last: Option<usize>,
    len: usize,
}

/// Values under keys of their own. Some of the values are linked in one order.
#[derive(Drop)]
pub struct Links<T> {
    cells: Cells<T>,
    ends: Ends,
}

impl<T> Model for Links<T> {
    ghost use Rattle.std.specs.Prelude.{ℕ};
    ghost use Rattle.tower_base.specs.Links.{LinksView, links_code};

    ghost Value = { LinksView T };

    ghost coded = { links_code T.code };

    ghost use Rattle.tower_base.specs.Cells.{values_of};
    ghost use Rattle.tower_base.specs.Ends.{order_of, IsSound};

    ghost view = { λ l. record {
      order = order_of l.cells.slab l.ends;
      entries = values_of l.cells.slab;
      touches = l.cells.touches.count;
    } };

    ghost invariant = { λ l. IsSound l.cells.slab l.ends };
}

// Makes `key` the last in the order: the entry that was last links to it.
fn arrive<T>(cells: &mut Cells<T>, ends: &mut Ends, key: usize)
    requires { ends.old.len + 1 < 2 ^ 64 }
    ensures slab { cells.new.slab ≡ pushed_slab cells.old.slab key ends.old }
    ensures ends { ends.new ≡ pushed_ends key ends.old }
    ensures touches { cells.new.touches.count ≤ cells.old.touches.count + 1 }
{
    match ends.last {
        Some(last) => cells.set_next(last, Some(key)),
        None => ends.first = Some(key),
    }
    ends.last = Some(key);
    ends.len += 1;
}

// Closes the gap that an entry at `place` left: the entries on both sides link to each other. Returns
// whether `place` was in the order.
fn leave<T>(cells: &mut Cells<T>, ends: &mut Ends, place: Option<LinkState>) -> bool
    requires { is_linked place ≡ true → 0 < ends.old.len }
    ensures linked { result ≡ is_linked place }
    ensures slab { cells.new.slab ≡ left_slab cells.old.slab place }
    ensures ends { ends.new ≡ left_ends place ends.old }
    ensures touches { cells.new.touches.count ≤ cells.old.touches.count + 2 }
    ensures first { (next : Option ℕ) → place ≡ Some (LinkState.Linked None next)
        → cells.new.touches.count ≤ cells.old.touches.count + 1 }
{
    let Some(LinkState::Linked(previous, next)) = place else {
        return false;
    };
    match previous {
        Some(key) => cells.set_next(key, next),
        None => ends.first = next,
    }
    match next {
        Some(key) => cells.set_previous(key, previous),
        None => ends.last = previous,
    }
    ends.len -= 1;
    true
}

impl<T> Links<T> {
    ghost use Rattle.std.specs.Borrow.{sem};
    ghost use Rattle.std.specs.Prelude.{option_copied};
    ghost use Rattle.tower_base.specs.LinksLends.{ends_looked};

    /// Creates an empty list. It allocates nothing until the first `reserve`.
    pub fn new(alloc: Global) -> Links<T>
        ensures order { result.order ≡ [] }
        ensures entries { result.entries.slots ≡ [] }
        ensures capacity { result.entries.capacity ≡ 0 }
        ensures touches { result.touches ≡ 0 }
    {
        Links {
            cells: Cells::new(alloc),
            ends: Ends {
                first: None,
                last: None,
                len: 0,
            },
        }
    }

    /// Makes room for `additional` more values. Returns an error if allocation fails.
    pub fn reserve(&mut self, additional: usize) -> Result<(), AllocError>
        // It fails only if there was no room.
        ensures room { OnOk result (HasRoomFor self.new.entries additional) }
        ensures succeeds { HasRoomFor self.old.entries additional → IsOk result }
        // Nothing but the capacity changes, and that never falls.
        ensures order { self.new.order ≡ self.old.order }
        ensures capacity { self.old.entries.capacity ≤ self.new.entries.capacity }
        ensures rest_kept { self.new.entries
            ≡ record self.old.entries { capacity = self.new.entries.capacity } }
        ensures touches { self.new.touches ≡ self.old.touches }
    {
        self.cells.reserve(additional)
    }

    /// Returns how many values fit without allocation. Each key is below this number. Reaches no entry.
    pub fn capacity(&self) -> usize
        ensures value { result ≡ self.now.entries.capacity }
        ensures slots { length self.now.entries.slots ≤ result }
    {
        self.cells.capacity()
    }

    /// Appends a value to the order, and returns its key.
    pub fn push_back(&mut self, value: T) -> usize
        requires { HasRoomFor self.old.entries 1 }
        ensures was_vacant { get self.old.entries result ≡ None }
        ensures order { self.new.order ≡ self.old.order ++ result ∷ [] }
        ensures entries { Updates self.old.entries self.new.entries result (Some value) }
        ensures len { slab_len self.new.entries ≡ slab_len self.old.entries + 1 }
        ensures capacity { self.new.entries.capacity ≡ self.old.entries.capacity }
        ensures touches { self.new.touches ≤ self.old.touches + 2 }
    {
        let key = self
            .cells
            .insert(value, LinkState::Linked(self.ends.last, None));
        prove!(self.ends.len < self.cells.capacity());
        arrive(&mut self.cells, &mut self.ends, key);
        key
    }

    /// Returns the key of the first value in the order. Reaches no entry.
    pub fn front(&self) -> Option<usize>
        ensures { result ≡ first_or self.now.order None }
    {
        self.ends.first
    }

    /// Returns how many values are in the order. Reaches no entry.
    pub fn len(&self) -> usize
        ensures { result ≡ length self.now.order }
    {
        self.ends.len
    }

    /// Returns the value under the key, whether it is in the order or not.
    pub fn get(&mut self, key: usize) -> Option<&T>
        ensures* rests { sem 𝓛 (ends_looked T.row self.entry) }
        ensures value { option_copied result ≡ get self.old.entries key }
    {
        self.cells.get(key)
    }

    /// Returns whether the value under the key is in the order.
    pub fn is_linked(&mut self, key: usize) -> bool
        ensures linked { result ≡ has self.old.order key }
        ensures order { self.new.order ≡ self.old.order }
        ensures entries { self.new.entries ≡ self.old.entries }
        ensures touches { self.new.touches ≤ self.old.touches + 1 }
    {
        let place = self.cells.place(key);
        stands_linked(place)
    }

    /// Returns the value under the key, whether it is in the order or not, as `get` does. Reaches one
    /// entry, and counts no touch.
    pub fn peek(&self, key: usize) -> Option<&T>
        ensures { option_copied result ≡ get self.now.entries key }
    {
        self.cells.peek(key)
    }

    /// Returns whether the value under the key is in the order, as `is_linked` does. Reaches one entry,
    /// and counts no touch.
    pub fn peek_linked(&self, key: usize) -> bool
        ensures { result ≡ has self.now.order key }
    {
        stands_linked(self.cells.peek_place(key))
    }

    /// Replaces the value under the key, and returns the old one.
    pub fn replace(&mut self, key: usize, value: T) -> T
        requires { ContainsKey self.old.entries key }
        ensures value { get self.old.entries key ≡ Some result }
        ensures order { self.new.order ≡ self.old.order }
        ensures entries { Updates self.old.entries self.new.entries key (Some value) }
        ensures len { slab_len self.new.entries ≡ slab_len self.old.entries }
        ensures capacity { self.new.entries.capacity ≡ self.old.entries.capacity }
        ensures touches { self.new.touches ≤ self.old.touches + 1 }
    {
        self.cells.replace(key, value)
    }

    /// Takes a value out of the order, but keeps it under its key. Returns whether it was in the order.
    pub fn unlink(&mut self, key: usize) -> bool
        ensures linked { result ≡ has self.old.order key }
        ensures order { self.new.order ≡ without self.old.order key }
        ensures entries { self.new.entries ≡ self.old.entries }
        ensures touches { self.new.touches ≤ self.old.touches + 3 }
        ensures first { first_or self.old.order None ≡ Some key
            → self.new.touches ≤ self.old.touches + 2 }
    {
        let place = self.cells.put(key, LinkState::Outside);
        leave(&mut self.cells, &mut self.ends, place)
    }

    /// Removes a value and frees its key, whether the value is in the order or not. Returns the value.
    pub fn remove(&mut self, key: usize) -> Option<T>
        ensures value { result ≡ get self.old.entries key }
        ensures order { self.new.order ≡ without self.old.order key }
        ensures entries { Updates self.old.entries self.new.entries key None }
        ensures len { OnSome result (slab_len self.new.entries + 1 ≡ slab_len self.old.entries) }
        ensures absent { IfNone result (self.new.entries ≡ self.old.entries) }
        ensures capacity { self.new.entries.capacity ≡ self.old.entries.capacity }
        ensures touches { self.new.touches ≤ self.old.touches + 3 }
        ensures first { first_or self.old.order None ≡ Some key
            → self.new.touches ≤ self.old.touches + 2 }
    {
        let (place, value) = parts(self.cells.remove(key));
        leave(&mut self.cells, &mut self.ends, place);
        value
    }
}

fn stands_linked(place: Option<LinkState>) -> bool
    ensures { result ≡ is_linked place }
{
    matches!(place, Some(LinkState::Linked(_, _)))
}

fn parts<T>(entry: Option<Entry<T>>) -> (Option<LinkState>, Option<T>)
    ensures place { result.0 ≡ place_of entry }
    ensures value { result.1 ≡ value_of entry }
{
    match entry {
        Some(Entry { value, place }) => (Some(place), Some(value)),
        None => (None, None),
    }
}
