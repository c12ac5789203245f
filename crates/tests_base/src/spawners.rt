//! The kit's spawners as executors: a task that isn't accepted comes back.

use futures::executor::{LocalPool, TaskSet};
use futures::future::ready;
use futures::task::Doorbell;
use std::test::Fail;
use tests_support::checks::Checks;
use tower_base::service::Executor;

#[test]
fn spawner_of_a_dropped_pool_gives_its_task_back(rt: HostRuntime) -> Result<(), Fail> {
    let checks = Checks::new(rt.alloc());
    let pool = LocalPool::with_doorbell(&rt, Doorbell::spinning())?;
    let spawner = pool.spawner()?;
    checks.holds(Executor::spawn(&spawner, ready(())).is_ok());
    drop(pool);
    checks.holds(Executor::spawn(&spawner, ready(())).is_err());
    checks.verdict()
}

#[test]
fn set_that_was_shut_down_gives_its_task_back(rt: HostRuntime) -> Result<(), Fail> {
    let checks = Checks::new(rt.alloc());
    let set = TaskSet::new(&rt, Doorbell::spinning(), 1)?;
    checks.holds(Executor::spawn(&&set, ready(())).is_ok());
    set.shut_down();
    checks.holds(Executor::spawn(&&set, ready(())).is_err());
    checks.verdict()
}
