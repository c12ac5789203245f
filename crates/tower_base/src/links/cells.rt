//! The slab, and the only calls that reach its entries. Each such call reaches at most one entry, and
//! counts one touch, except `peek` and `peek_place`, which count none.
ghost use Rattle.std.specs.Prelude.{◌≡◌, ◌+◌, ◌≤◌, ◌<◌, [], Some, None, OnOk, IsOk, OnSome, IfNone, length};
ghost use Rattle.slab.specs.Slab.{get, slab_len, ContainsKey, HasRoomFor, Updates, with_value};
ghost use Rattle.tower_base.specs.Cells.{place_at, entry, with_place};
ghost use Rattle.tower_base.specs.Order.{with_next, with_previous};

use crate::counter::GhostCounter;
use slab::Slab;
use std::alloc::{AllocError, Global};
use std::mem;

/// The place of an entry: between two others in the order, or outside the order.
#[derive(Clone, Copy, Debug)]
pub enum LinkState {
    Linked(Option<usize>, Option<usize>),
    Outside,
}

/// A value and its place.
#[derive(Drop)]
pub struct Entry<T> {
    pub value: T,
    pub place: LinkState,
}

/// The entries. They are reached only through these calls.
#[derive(Drop)]
pub struct Cells<T> {
    slab: Slab<Entry<T>>,
    touches: GhostCounter,
}

impl<T> Cells<T> {
    ghost use Rattle.std.specs.Borrow.{sem};
    ghost use Rattle.std.specs.Prelude.{option_copied};
    ghost use Rattle.tower_base.specs.Cells.{value_at};
    ghost use Rattle.tower_base.specs.CellsLends.{ends_touched};
    ghost use Rattle.tower_base.specs.declared.links.cells.Entry.{Entry};

    pub fn new(alloc: Global) -> Cells<T>
        ensures slots { result.slab.slots ≡ [] }
        ensures first_key { result.slab.vacant_key ≡ 0 }
        ensures capacity { result.slab.capacity ≡ 0 }
        ensures touches { result.touches.count ≡ 0 }
    {
        Cells {
            slab: Slab::new(alloc),
            touches: GhostCounter::new(),
        }
    }

    /// Makes room for `additional` more entries. Reaches no entry.
    pub fn reserve(&mut self, additional: usize) -> Result<(), AllocError>
        ensures room { OnOk result (HasRoomFor self.new.slab additional) }
        ensures succeeds { HasRoomFor self.old.slab additional → IsOk result }
        ensures had_room { HasRoomFor self.old.slab additional → self.new.slab ≡ self.old.slab }
        ensures capacity { self.old.slab.capacity ≤ self.new.slab.capacity }
        ensures rest_kept { self.new.slab
            ≡ record self.old.slab { capacity = self.new.slab.capacity } }
        ensures touches { self.new.touches.count ≡ self.old.touches.count }
    {
        self.slab.reserve(additional)
    }

    /// Returns how many values fit without allocation. Reaches no entry.
    pub fn capacity(&self) -> usize
        ensures value { result ≡ self.now.slab.capacity }
        ensures slots { length self.now.slab.slots ≤ result }
    {
        self.slab.capacity()
    }

    pub fn insert(&mut self, value: T, place: LinkState) -> usize
        requires { HasRoomFor self.old.slab 1 }
        ensures key { result ≡ self.old.slab.vacant_key }
        ensures was_vacant { get self.old.slab result ≡ None }
        ensures updates { Updates self.old.slab self.new.slab result (Some (entry value place)) }
        ensures len { slab_len self.new.slab ≡ slab_len self.old.slab + 1 }
        ensures key_in_range { result < self.new.slab.capacity }
        ensures capacity { self.new.slab.capacity ≡ self.old.slab.capacity }
        ensures touches { self.new.touches.count ≡ self.old.touches.count + 1 }
    {
        self.touches.tick();
        self.slab.insert_reserved(Entry { value, place })
    }

    /// Returns the place of the entry, if there is one.
    pub fn place(&mut self, key: usize) -> Option<LinkState>
        ensures place { result ≡ place_at self.old.slab key }
        ensures same { self.new.slab ≡ self.old.slab }
        ensures touches { self.new.touches.count ≡ self.old.touches.count + 1 }
    {
        self.touches.tick();
        match self.slab.get(key) {
            Some(entry) => Some(entry.place),
            None => None,
        }
    }

    /// Returns the value under the key, if there is one.
    pub fn get(&mut self, key: usize) -> Option<&T>
        ensures* rests { sem 𝓛 (ends_touched T.row self.entry) }
        ensures value { option_copied result ≡ value_at self.old.slab key }
    {
        self.touches.tick();
        match self.slab.get(key) {
            Some(entry) => Some(&entry.value),
            None => None,
        }
    }

    /// Returns the place of the entry, if there is one. Counts no touch.
    pub fn peek_place(&self, key: usize) -> Option<LinkState>
        ensures { result ≡ place_at self.now.slab key }
    {
        match self.slab.get(key) {
            Some(entry) => Some(entry.place),
            None => None,
        }
    }

    /// Returns the value under the key, if there is one. Counts no touch.
    pub fn peek(&self, key: usize) -> Option<&T>
        ensures { option_copied result ≡ value_at self.now.slab key }
    {
        match self.slab.get(key) {
            Some(entry) => Some(&entry.value),
            None => None,
        }
    }

    /// Replaces the value under the key, and returns the old one.
    pub fn replace(&mut self, key: usize, value: T) -> T
        requires { ContainsKey self.old.slab key }
        ensures value { (old : Entry T) → get self.old.slab key ≡ Some old → result ≡ old.value }
        ensures slab { (old : Entry T) → get self.old.slab key ≡ Some old
            → self.new.slab ≡ with_value self.old.slab key (entry value old.place) }
        ensures touches { self.new.touches.count ≡ self.old.touches.count + 1 }
    {
        self.touches.tick();
        match self.slab.get_mut(key) {
            Some(entry) => mem::replace(&mut entry.value, value),
            None => unreachable!(),
        }
    }

    /// Moves the entry to another place, and returns its old place.
    pub fn put(&mut self, key: usize, place: LinkState) -> Option<LinkState>
        ensures place { result ≡ place_at self.old.slab key }
        ensures slab { self.new.slab ≡ with_place self.old.slab key (λ _. place) }
        ensures touches { self.new.touches.count ≡ self.old.touches.count + 1 }
    {
        self.touches.tick();
        match self.slab.get_mut(key) {
            Some(entry) => Some(mem::replace(&mut entry.place, place)),
            None => None,
        }
    }

    /// Sets the key after the entry, if the entry is linked.
    pub fn set_next(&mut self, key: usize, next: Option<usize>)
        ensures slab { self.new.slab ≡ with_place self.old.slab key (with_next next) }
        ensures touches { self.new.touches.count ≡ self.old.touches.count + 1 }
    {
        self.touches.tick();
        if let Some(entry) = self.slab.get_mut(key) {
            entry.place = match entry.place {
                LinkState::Linked(previous, _) => LinkState::Linked(previous, next),
                LinkState::Outside => LinkState::Outside,
            };
        }
    }

    /// Sets the key before the entry, if the entry is linked.
    pub fn set_previous(&mut self, key: usize, previous: Option<usize>)
        ensures slab { self.new.slab ≡ with_place self.old.slab key (with_previous previous) }
        ensures touches { self.new.touches.count ≡ self.old.touches.count + 1 }
    {
        self.touches.tick();
        if let Some(entry) = self.slab.get_mut(key) {
            entry.place = match entry.place {
                LinkState::Linked(_, next) => LinkState::Linked(previous, next),
                LinkState::Outside => LinkState::Outside,
            };
        }
    }

    pub fn remove(&mut self, key: usize) -> Option<Entry<T>>
        ensures value { result ≡ get self.old.slab key }
        ensures updates { Updates self.old.slab self.new.slab key None }
        ensures len { OnSome result (slab_len self.new.slab + 1 ≡ slab_len self.old.slab) }
        ensures absent { IfNone result (self.new.slab ≡ self.old.slab) }
        ensures capacity { self.new.slab.capacity ≡ self.old.slab.capacity }
        ensures touches { self.new.touches.count ≡ self.old.touches.count + 1 }
    {
        self.touches.tick();
        self.slab.try_remove(key)
    }
}
