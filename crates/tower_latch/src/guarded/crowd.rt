//! The wakers of the tasks that wait at one key.
ghost use Rattle.std.specs.Prelude.{◌≡◌, ◌↔◌, ◌+◌, List, [], IsSomeAnd, IsTrue, IfOk, OnErr, if◌then◌else◌, slice_get};
ghost use Rattle.futures.specs.Task.{Hears, IsArmed, Keeps};
ghost use Rattle.tower_latch.specs.Group.{members_of};
ghost use Rattle.tower_latch.specs.Guarded.{IsKept, group, some};
ghost use Rattle.tower_latch.specs.declared.guarded.crowd.Waiter.{Waiter};

use futures::task::{Context, Poll, Source, Waker};
use std::alloc::{AllocError, Global};
use std::marker::Model;
use std::mem;

/// The wakers that are kept at one key, one for each task at each share.
#[derive(Drop)]
pub struct Crowd {
    list: Vec<Waiter>,
}

impl Model for Crowd {
    ghost Value = { List Waiter };

    ghost view = { λ c. c.list.items };
}

/// The waiters of a crowd, taken out of it.
#[derive(Drop)]
pub struct Group {
    members: Members,
}

// The only one, or several with the crowd's list.
#[derive(Drop)]
enum Members {
    One(Waiter),
    Several(Vec<Waiter>),
}

impl Model for Group {
    ghost Value = { List Waiter };

    ghost view = { λ g. members_of g.members };
}

// A task's number is unique only among the tasks of its executor, so the share distinguishes threads.
#[derive(Drop)]
pub struct Waiter {
    share: u64,
    task: usize,
    waker: Option<Waker>,
}

impl Crowd {
    /// Keeps nobody.
    pub fn new(alloc: Global) -> Crowd
        ensures { result ≡ [] }
    {
        Crowd {
            list: Vec::new(alloc),
        }
    }

    /// Returns whether no waker is kept.
    #[inline(always)]
    pub fn is_empty(&self) -> bool
        ensures { IsTrue result ↔ (self.now ≡ []) }
    {
        self.list.is_empty()
    }

    /// Takes all waiters out. If there is only one, the crowd keeps its capacity.
    #[inline(always)]
    pub fn take(&mut self, alloc: Global) -> Option<Group>
        ensures left { self.new ≡ [] }
        ensures handed { group result ≡ self.old }
    {
        if 1 < self.list.len() {
            let list = mem::replace(&mut self.list, Vec::new(alloc));
            return Some(Group {
                members: Members::Several(list),
            });
        }
        let waiter = self.list.pop()?;
        Some(Group {
            members: Members::One(waiter),
        })
    }

    /// Keeps one waker of the task at this share. If allocation fails, wakes the task. Returns whether
    /// the crowd was empty, and no longer is.
    pub fn keep(&mut self, share: u64, source: &Source, cx: &mut Context<'_>) -> bool
        ensures armed { IsArmed cx.new }
        ensures heard { Hears cx.new source.now.id }
        ensures keeps { Keeps cx.old cx.new }
        ensures kept { IsKept share cx.old cx.new self.new }
        ensures first { some self.new ≡ some self.old + (if result then 1 else 0) }
    {
        let was_empty = self.list.is_empty();
        let Ok(place) = self.place(share, cx.task()) else {
            let _pending: Poll<()> = cx.yield_now();
            return false;
        };
        let _pending: Poll<()> = cx.register(source, &mut self.list[place].waker);
        was_empty
    }

    // Returns the index of the task at this share. If it has none, adds a waiter for it.
    fn place(&mut self, share: u64, task: usize) -> Result<usize, AllocError>
        ensures place { IfOk result (λ place. IsSomeAnd (slice_get self.new place)
            (λ w. (w.share ≡ share) × (w.task ≡ task))) }
        ensures refused { OnErr result (self.new ≡ self.old) }
    {
        let is_its_own = |waiter: &Waiter| waiter.share == share && waiter.task == task;
        if let Some(place) = self.list.iter().position(is_its_own) {
            return Ok(place);
        }
        self.list.push(Waiter {
            share,
            task,
            waker: None,
        })?;
        Ok(self.list.len() - 1)
    }
}
