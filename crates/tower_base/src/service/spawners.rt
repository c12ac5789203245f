//! `Executor` for the kit's executors.
ghost use Rattle.std.specs.Prelude.{◌≡◌, IfErr};

use crate::service::Executor;
use futures::executor::{LocalSpawner, TaskSet};
use futures::future::Future;

/// An accepted task runs on the thread that runs the pool. A task is returned if the pool was dropped,
/// or if allocation fails.
impl<F: Future<Output = ()>> Executor<F> for LocalSpawner<F> {
    ghost can_spawn = { λ _ task. F.can_poll task };

    ghost spawned = { λ _ task answer. IfErr answer (λ back. back ≡ task) };

    fn spawn(&self, task: F) -> Result<(), F> {
        match LocalSpawner::spawn(self, task) {
            Ok(()) => Ok(()),
            Err(error) => Err(error.0),
        }
    }
}

/// An accepted task runs on the threads that work at the set. A task is returned if the set was shut
/// down, or if allocation fails.
impl<'a, F: Future<Output = ()>> Executor<F> for &'a TaskSet<F> {
    ghost can_spawn = { λ _ task. F.can_poll task };

    ghost spawned = { λ _ task answer. IfErr answer (λ back. back ≡ task) };

    fn spawn(&self, task: F) -> Result<(), F> {
        match TaskSet::spawn(*self, task) {
            Ok(()) => Ok(()),
            Err(error) => Err(error.0),
        }
    }
}
