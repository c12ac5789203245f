//! Executors that do nothing of themselves.

use std::alloc::AllocError;
use std::cell::{Cell, RefCell};
use tower_base::service::{Executor, Steps};
use tower_latch::held::Pollable;

/// Where an executor keeps its task for the test. A clone is free.
#[derive(Drop)]
pub struct TaskSlot<T: Steps> {
    is_reluctant: Cell<bool>,
    task: RefCell<Option<Pollable<T>>>,
}

impl<T: Steps> TaskSlot<T> {
    /// It is free.
    pub fn new() -> TaskSlot<T> {
        TaskSlot {
            is_reluctant: Cell::new(false),
            task: RefCell::new(None),
        }
    }

    /// It gives the first task back, and keeps the next one.
    pub fn reluctant() -> TaskSlot<T> {
        TaskSlot {
            is_reluctant: Cell::new(true),
            task: RefCell::new(None),
        }
    }

    /// The task that it has, which it has no more.
    pub fn take(&self) -> Option<Pollable<T>> {
        match self.task.try_borrow_mut() {
            Ok(mut task) => task.take(),
            Err(_) => None,
        }
    }
}

impl<T: Steps> Clone for TaskSlot<T> {
    fn clone(&self) -> Result<TaskSlot<T>, AllocError> {
        Ok(TaskSlot::new())
    }
}

/// Keeps one task, and gives any further one back.
impl<T: Steps> Executor<T> for TaskSlot<T> {
    ghost can_spawn = { λ _ task. T.can_poll task };

    fn spawn(&self, task: T) -> Result<(), T> {
        if self.is_reluctant.replace(false) {
            return Err(task);
        }
        let Ok(mut slot) = self.task.try_borrow_mut() else {
            return Err(task);
        };
        if slot.is_some() {
            return Err(task);
        }
        *slot = Some(Pollable::new(task));
        Ok(())
    }
}

/// A slot that is lent, since an executor is handed over by value.
pub struct SlotRef<'t, T: Steps> {
    slot: &'t TaskSlot<T>,
}

impl<'t, T: Steps> SlotRef<'t, T> {
    pub fn new(slot: &'t TaskSlot<T>) -> SlotRef<'t, T> {
        SlotRef { slot }
    }
}

impl<'t, T: Steps> Drop for SlotRef<'t, T> {
    fn drop(self) {
        let SlotRef { slot: _ } = self;
    }
}

impl<'t, T: Steps> Executor<T> for SlotRef<'t, T> {
    ghost can_spawn = { λ _ task. T.can_poll task };

    fn spawn(&self, task: T) -> Result<(), T> {
        self.slot.spawn(task)
    }
}
