//! What holds for all slots.
ghost use Rattle.tower_pool.specs.SlotLaws.{ComesFromATask};

/// Proves, for every list of steps and replies of a slot, that a service that comes back was put there by a
/// task, and that the slot gave no service since.
pub fn law<S, E>()
    ensures { ComesFromATask S E }
{}
