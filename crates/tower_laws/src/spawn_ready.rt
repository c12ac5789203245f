//! Whom a step of a `SpawnReady`'s slot wakes.
ghost use Rattle.tower_laws.specs.Wakes.{OwnerIsNamed, TaskIsNamed};

/// States whom a step of a slot wakes, if it names whoever no longer stalls, as each step of a `SlotCore`
/// does: the owner, which waits while the task runs, if the step ends this by the service, its error or
/// the task's end; and the task, if the step is the first abort.
pub fn wakes<S, E>()
    ensures owner { OwnerIsNamed S E }
    ensures task { TaskIsNamed S E }
{}
