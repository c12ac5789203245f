//! The wakers of waiting tasks, as the lock keeps them.
ghost use Rattle.std.specs.Prelude.{◌≡◌, ◌⊎◌, ◌<◌, ℕ, List, Option, [], None, true, IsTrue, OnOk, length};
ghost use Rattle.futures.specs.Task.{Hears, IsArmed, Keeps};
ghost use Rattle.tower_latch.specs.Guarded.{HandsOn, IsAlone, IsKept, IsSame, Takes, at, crowded, group};
ghost use Rattle.tower_latch.specs.Wakes.{IsNamed, IsSpared};
ghost use Rattle.tower_latch.specs.Woken.{taken_out};
ghost use Rattle.tower_latch.specs.declared.guarded.crowd.Waiter.{Waiter};

use crate::guarded::crowd::{Crowd, Group};
use crate::guarded::token::Token;
use crate::{Core, Wakes};
use futures::task::{Context, Poll, Source};
use std::alloc::{AllocError, Global};
use std::marker::Model;
use std::mem;

/// The kept wakers: for each key a crowd.
#[derive(Drop)]
pub struct Waiters {
    alloc: Global,
    // The number of keys at which somebody waits.
    kept: usize,
    crowds: Vec<Crowd>,
}

impl Model for Waiters {
    ghost Value = { List (List Waiter) };

    // The view leaves out `alloc` and `kept`: the invariant tells how many are kept.
    ghost view = { λ w. w.crowds.items };

    ghost invariant = { λ w. w.kept ≡ crowded w.crowds.items };
}

/// The waiters that a step takes from the lock. This type has no `Drop`: it must end in `wake`, which
/// requires a token as evidence that the lock is free.
pub struct Woken {
    taken: Taken,
}

// Nobody; those of one key; or those of several keys, and all others if there was no memory for a list of
// them.
#[derive(Drop)]
enum Taken {
    Nobody,
    One(Group),
    Several(Vec<Group>, Vec<Crowd>),
}

impl Model for Woken {
    ghost Value = { Option (List (List Waiter)) };

    ghost view = { λ w. taken_out w.taken };
}

impl Woken {
    /// Takes nobody yet.
    #[inline(always)]
    pub fn nobody() -> Woken
        ensures { result ≡ None }
    {
        Woken {
            taken: Taken::Nobody,
        }
    }

    /// Wakes each waiter.
    #[inline(always)]
    pub fn wake(self, _free: &Token) {
        let Woken { taken } = self;
        match taken {
            Taken::Nobody => {}
            Taken::One(group) => drop(group),
            taken => wake(taken),
        }
    }
}

// Wakes each waiter, since a waiter is woken when it is dropped.
#[cold]
#[inline(never)]
fn wake(taken: Taken) {
    drop(taken);
}

impl Waiters {
    /// Keeps nobody.
    pub fn new(alloc: Global) -> Waiters
        ensures { IsAlone result }
    {
        Waiters {
            alloc,
            kept: 0,
            crowds: Vec::new(alloc),
        }
    }

    /// Returns whether no waker is kept.
    #[inline(always)]
    pub fn is_empty(&self) -> bool
        ensures { IsTrue result → IsAlone self.now }
    {
        self.kept == 0
    }

    /// Takes the wakers of those who are named, by the core that a step left.
    #[inline(always)]
    pub fn take<C: Core>(&mut self, wakes: Wakes, core: &C, woken: &mut Woken)
        requires { woken.old ≡ None }
        ensures { Takes (C.stalls core.now) self.old wakes woken.new self.new }
    {
        match wakes {
            Wakes::Wait(_) | Wakes::Nobody => {}
            Wakes::One(key) => self.take_one(key, woken),
            Wakes::Unstalled | Wakes::All => self.take_several(wakes, core, woken),
        }
    }

    #[inline(always)]
    fn take_one(&mut self, key: usize, woken: &mut Woken)
        requires { woken.old ≡ None }
        ensures taken { at self.new key ≡ [] }
        ensures handed { HandsOn self.old self.new woken.new }
        ensures others { (other : ℕ) → (at self.new other ≡ at self.old other) ⊎ (key ≡ other) }
    {
        let Taken::Nobody = woken.taken else {
            unreachable!();
        };
        if let Some(group) = self.take_crowd(key) {
            woken.taken = Taken::One(group);
        }
    }

    // Takes all who are named, except those who are passed over, since they stall. A list of one waiter
    // keeps its capacity. If there is no memory for those who are taken, takes all.
    #[inline(never)]
    fn take_several<C: Core>(&mut self, wakes: Wakes, core: &C, woken: &mut Woken)
        requires { (key : ℕ) → IsNamed wakes key }
        ensures { Takes (C.stalls core.now) self.old wakes woken.new self.new }
    {
        let mut groups = Vec::new(self.alloc);
        let mut key = 0;
        'looking: while key < self.crowds.len() {
            if !self.is_passed_over(key, wakes, core) {
                let Ok(()) = groups.reserve(1) else {
                    woken.taken = Taken::Several(groups, self.take_rest());
                    return;
                };
                if let Some(group) = self.take_crowd(key) {
                    groups.push_reserved(group);
                }
            }
            key += 1;
        }
        woken.taken = Taken::Several(groups, Vec::new(self.alloc));
    }

    // Returns whether nobody waits at the key, or whoever does is passed over.
    fn is_passed_over<C: Core>(&self, key: usize, wakes: Wakes, core: &C) -> bool
        requires { key < length self.now }
        ensures { result ≡ true → (at self.now key ≡ []) ⊎ IsSpared (C.stalls core.now) wakes key }
    {
        if self.crowds[key].is_empty() {
            return true;
        }
        match wakes {
            Wakes::Unstalled => core.is_stalled(key),
            _ => false,
        }
    }

    // Takes all who are kept.
    #[cold]
    #[inline(never)]
    fn take_rest(&mut self) -> Vec<Crowd>
        ensures left { self.new ≡ [] }
        ensures handed { result.items ≡ self.old }
    {
        self.kept = 0;
        mem::replace(&mut self.crowds, Vec::new(self.alloc))
    }

    // Takes out those who wait at the key.
    #[inline(always)]
    fn take_crowd(&mut self, key: usize) -> Option<Group>
        ensures taken { at self.new key ≡ [] }
        ensures handed { group result ≡ at self.old key }
        ensures others { (other : ℕ) → (at self.new other ≡ at self.old other) ⊎ (key ≡ other) }
        ensures len { length self.new ≡ length self.old }
    {
        if self.crowds.len() <= key || self.crowds[key].is_empty() {
            return None;
        }
        self.kept -= 1;
        self.crowds[key].take(self.alloc)
    }

    /// Keeps one waker of the task of this share at the key. If allocation fails, wakes the task.
    #[inline(never)]
    #[tactic(auto, using(crate::proofs::Crowds::crowded_fits))]
    pub fn keep(&mut self, key: usize, share: u64, source: &Source, cx: &mut Context<'_>)
        ensures armed { IsArmed cx.new }
        ensures heard { Hears cx.new source.now.id }
        ensures keeps { Keeps cx.old cx.new }
        ensures kept { IsKept share cx.old cx.new (at self.new key) }
        ensures others { (other : ℕ) → (at self.new other ≡ at self.old other) ⊎ (key ≡ other) }
    {
        let Ok(()) = grow(&mut self.crowds, key, self.alloc) else {
            let _pending: Poll<()> = cx.yield_now();
            return;
        };
        let is_first = self.crowds[key].keep(share, source, cx);
        self.kept += usize::from(is_first);
    }
}

// Makes a crowd for the key.
#[tactic(auto, using(crate::proofs::Crowds::same_push))]
fn grow(crowds: &mut Vec<Crowd>, key: usize, alloc: Global) -> Result<(), AllocError>
    ensures grown { OnOk result (key < length crowds.new.items) }
    ensures same { IsSame crowds.old.items crowds.new.items }
{
    while crowds.len() <= key {
        crowds.push(Crowd::new(alloc))?;
    }
    Ok(())
}
