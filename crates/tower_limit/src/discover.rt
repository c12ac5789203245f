//! Services that come and go: the Rust's `tower::discover`.
ghost use Rattle.std.specs.Prelude.{⊤, ℕ, Option, Result};
ghost use Rattle.futures.specs.Task.{Hears, IsArmed, Keeps};
ghost use Rattle.tower_base.specs.Quiet.{Quiet};
ghost use Rattle.futures.specs.Poll.{OnPending};
ghost use Rattle.futures.specs.declared.task.Poll.{Poll};
ghost use Rattle.tower_limit.specs.declared.discover.Change.{Change};

mod list;

use futures::task::{Context, Poll};
pub use list::ServiceList;

/// One change of a set of services by key: the Rust's `tower::discover::Change`.
#[derive(Clone, Debug, Drop)]
pub enum Change<K, V> {
    /// Inserts the service under this key, in place of an older one.
    Insert(K, V),
    /// Removes the service under this key.
    Remove(K),
}

/// Reports which services there are, by one change after another: the Rust's
/// `tower::discover::Discover`, which every fallible stream of changes implements there.
pub trait Discover: Drop {
    type Key: Drop;

    type Service: Drop;

    type Error: Drop;

    // Constructors establish it, and every poll keeps it.
    ghost sound: { Self → Type 0 } = { λ _. ⊤ };

    // A poll may return this and leave the second value.
    ghost discovered: { Self → Poll (Option (Result (Change Self.Key Self.Service) Self.Error))
        → Self → Type 0 };

    // Holds for each source that a pending poll waits for. If this is left out, it isn't known where it
    // waits.
    ghost needs: { Self → ℕ → Type 0 } = { λ _ _. ⊥ };

    // A poll that led from the first value to the second may have asked for another poll. If this is left
    // out, it isn't known when.
    ghost stirs: { Self → Self → Type 0 } = { λ _ _. ⊤ };

    /// Returns the next change, an error, or the end (`None`). An error isn't the end. After the end it
    /// needn't be polled again.
    fn poll_discover(
        &mut self,
        cx: &mut Context<'_>,
    ) -> Poll<Option<Result<Change<Self::Key, Self::Service>, Self::Error>>>
        requires { sound self.old }
        ensures discovered { discovered self.old result self.new }
        ensures sound { sound self.new }
        ensures armed { OnPending result (IsArmed cx.new) }
        ensures heard { OnPending result ((s : ℕ) → needs self.new s → Hears cx.new s) }
        // It asks for another poll only for a cause that it names.
        ensures quiet { Quiet (stirs self.old self.new) cx.old cx.new }
        ensures kept { Keeps cx.old cx.new };
}
