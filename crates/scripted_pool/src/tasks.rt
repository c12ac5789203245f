//! The tasks of a service, beside its handle.

use crate::slot::Hitches;
use futures::task::{Poll, Solo};
use scripted::party::Party;
use scripted::script::Script;
use std::alloc::{AllocError, Global};
use std::cell::{Cell, RefCell};
use tests_support::log::Log;
use tests_support::run::stepped;
use tower_base::service::{Executor, Steps};
use tower_latch::held::Pollable;

/// Tasks that were handed over, the newest last, and how many more there may be.
#[derive(Drop)]
pub struct Tasks<T: Steps> {
    waiting: RefCell<Vec<Pollable<T>>>,
    room: Cell<u8>,
}

impl<T: Steps> Tasks<T> {
    pub fn new(alloc: Global) -> Tasks<T> {
        Tasks {
            waiting: RefCell::new(Vec::new(alloc)),
            room: Cell::new(u8::MAX),
        }
    }

    fn put(&self, task: Pollable<T>) {
        if let Ok(mut waiting) = self.waiting.try_borrow_mut() {
            let _ = waiting.push(task);
        }
    }

    fn clear(&self) {
        if let Ok(mut waiting) = self.waiting.try_borrow_mut() {
            waiting.clear();
        }
    }

    // The newest task.
    fn take(&self) -> Option<Pollable<T>> {
        match self.waiting.try_borrow_mut() {
            Ok(mut waiting) => waiting.pop(),
            Err(_) => None,
        }
    }
}

/// Keeps each task for the script, or polls it at once, and drops it then. It notes each.
pub struct Spawner<'t, T: Steps> {
    pub log: &'t Log,
    pub tasks: &'t Tasks<T>,
    pub at_once: Option<&'t Solo>,
}

impl<'t, T: Steps> Drop for Spawner<'t, T> {
    fn drop(self) {
        let Spawner {
            log: _,
            tasks: _,
            at_once: _,
        } = self;
    }
}

impl<'t, T: Steps> Clone for Spawner<'t, T> {
    fn clone(&self) -> Result<Spawner<'t, T>, AllocError> {
        Ok(Spawner {
            log: self.log,
            tasks: self.tasks,
            at_once: self.at_once,
        })
    }
}

impl<'t, T: Steps<Output = ()> + Drop> Executor<T> for Spawner<'t, T> {
    ghost can_spawn = { λ _ task. T.can_poll task };

    fn spawn(&self, mut task: T) -> Result<(), T> {
        if let Some(solo) = self.at_once {
            self.log.note("spawned");
            let _ = stepped(solo, &mut task);
            return Ok(());
        }
        let room = self.tasks.room.get();
        let Ok(mut waiting) = self.tasks.waiting.try_borrow_mut() else {
            return Err(task);
        };
        if room == 0 || waiting.reserve(1).is_err() {
            self.log.note("not spawned");
            return Err(task);
        }
        self.tasks.room.set(room - 1);
        self.log.note("spawned");
        waiting.push_reserved(Pollable::new(task));
        Ok(())
    }
}

/// `task` polls the newest task, which is kept aside once it ended, `drop task` drops the newest one that didn't, `drop ended` those that
/// did; `room N` says how many tasks are taken before others are given back, `shares N` how many shares of the latch there are, and `aborts` that
/// the slot is aborted just before the next service is put there or looked for.
#[derive(Drop)]
pub struct Working<'s, 'a, T: Steps> {
    script: &'s Script<'a>,
    tasks: &'s Tasks<T>,
    hitches: &'s Hitches,
    ended: Vec<T>,
}

impl<'s, 'a, T: Steps> Working<'s, 'a, T> {
    pub fn new(
        script: &'s Script<'a>,
        tasks: &'s Tasks<T>,
        hitches: &'s Hitches,
    ) -> Working<'s, 'a, T> {
        Working {
            script,
            tasks,
            hitches,
            ended: Vec::new(script.alloc()),
        }
    }
}

impl<'s, 'a, T: Steps<Output = ()> + Drop> Working<'s, 'a, T> {
    fn poll(&mut self) -> Result<&'static str, AllocError> {
        let Some(task) = self.tasks.take() else {
            return Ok("skipped");
        };
        let mut task = task.into_inner();
        match stepped(self.script.solo(), &mut task) {
            Poll::Pending => {
                self.tasks.put(Pollable::new(task));
                Ok("pending")
            }
            Poll::Ready(()) => {
                self.ended.push(task)?;
                Ok("ended")
            }
        }
    }
}

// A number after the word.
fn number_of(words: &str, word: &str) -> Option<u8> {
    words.strip_prefix(word)?.parse().ok()
}

impl<'s, 'a, T: Steps<Output = ()> + Drop> Party for Working<'s, 'a, T> {
    fn act(&mut self, words: &str) -> Result<Option<String>, AllocError> {
        let mut answer = "";
        match words {
            "task" => answer = self.poll()?,
            "drop task" => drop(self.tasks.take()),
            "drop ended" => self.ended.clear(),
            "aborts" => self.hitches.aborts.set(true),
            _ => {
                if let Some(room) = number_of(words, "room ") {
                    self.tasks.room.set(room);
                } else if let Some(shares) = number_of(words, "shares ") {
                    self.hitches.shares.set(shares);
                } else {
                    return Ok(None);
                }
            }
        }
        Ok(Some(answer.to_string(self.script.alloc())?))
    }

    fn end(&mut self) {
        self.ended.clear();
        self.tasks.clear();
    }
}
