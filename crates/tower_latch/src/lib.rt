//! Cores, which are shared state as a machine without locks, and the lock around a core.
#![tactic(auto)]

ghost use Rattle.std.specs.Prelude.{◌≡◌, ◌≢◌, ◌⊎◌, ◌≤◌, ◌+◌, ℕ, Bool, true, ⊤, IfOk, Result};
ghost use Rattle.std.specs.declared.alloc.AllocError.{AllocError};
ghost use Rattle.tower_latch.specs.Latch.{Came};
ghost use Rattle.tower_latch.specs.Wakes.{IsNamed, NamesAll};
ghost use Rattle.tower_latch.specs.CoreTable.{places};
ghost use Rattle.tower_latch.specs.declared.guarded.token.Token.{Token as TokenValue};
ghost use Rattle.tower_base.specs.Quiet.{Quiet};
ghost use Rattle.futures.specs.Task.{Hears, IsArmed, Keeps};

mod guarded;
pub mod held;
mod logged;
pub mod settled;
pub mod wait_queue;

use futures::task::Context;
pub use guarded::{Guarded, Token};
pub use logged::{History, Log, LogTable, Logged, Missing, Pass, Receipt};
use std::alloc::AllocError;

/// Who waits, and who may go on, after a step.
#[derive(Clone, Copy, Debug, PartialEq, Eq)]
pub enum Wakes {
    /// The caller waits at this key. Nobody may go on.
    Wait(usize),
    /// Nobody may go on.
    Nobody,
    /// Whoever waits at this key may go on.
    One(usize),
    /// Whoever no longer stalls may go on. A latch asks the core of each key at which somebody waits.
    Unstalled,
    /// All may go on.
    All,
}

impl Wakes {
    /// Names those whom either names: if one is `Nobody`, what the other is; if either is `All`, all; and
    /// otherwise those of all who no longer stall.
    pub fn and(self, other: Wakes) -> Wakes
        ensures named { (key : ℕ) → IsNamed self key ⊎ IsNamed other key → IsNamed result key }
        ensures waits { (key : ℕ) → result ≡ Wakes.Wait key → ((self ≡ Wakes.Wait key)
            × (other ≡ Wakes.Nobody)) ⊎ ((other ≡ Wakes.Wait key) × (self ≡ Wakes.Nobody)) }
        ensures one { (key : ℕ) → result ≡ Wakes.One key → ((self ≡ Wakes.One key)
            × (other ≡ Wakes.Nobody)) ⊎ ((other ≡ Wakes.One key) × (self ≡ Wakes.Nobody)) }
        ensures all { (self ≡ Wakes.All) ⊎ (other ≡ Wakes.All) → result ≡ Wakes.All }
        ensures only_all { result ≡ Wakes.All → (self ≡ Wakes.All) ⊎ (other ≡ Wakes.All) }
        ensures several { result ≡ Wakes.Unstalled → (self ≡ Wakes.Unstalled)
            ⊎ (other ≡ Wakes.Unstalled) ⊎ ((self ≢ Wakes.Nobody) × (other ≢ Wakes.Nobody)) }
    {
        match (self, other) {
            (Wakes::Nobody, named) | (named, Wakes::Nobody) => named,
            (Wakes::All, _) | (_, Wakes::All) => Wakes::All,
            _ => Wakes::Unstalled,
        }
    }
}

/// A machine without locks. One event is one `step`.
///
/// A core may have places, which its steps hand out and take back. Contracts see how many there are, and
/// the core's terms, which no step changes.
pub trait Core: Drop {
    type Step: Drop;

    type Reply: Drop;

    /// What the core is made with and no step changes, as its number of places.
    type Terms: Drop;

    // A run may begin with this core.
    ghost opens: { Self → Type 0 };

    // The step may be made: what it puts into the core has the properties that the core's users need.
    ghost admits: { Self.Step → Type 0 } = { λ _. ⊤ };

    // From the old core, a step may return this reply and leave the new one.
    ghost steps: { Self → Self.Step → Self.Reply → Self → Type 0 };

    // Whether the reply requires its caller to come again.
    ghost is_wait: { Self.Reply → Bool };

    // The key at which a caller waits who made this step and had this reply.
    ghost key_of: { Self.Step → Self.Reply → ℕ } = { λ _ _. 0 };

    // The step asks again at this key.
    ghost asks: { Self.Step → ℕ → Type 0 } = { λ _ _. ⊥ };

    // Whoever waits at this key would still be told to wait.
    ghost stalls: { Self → ℕ → Type 0 } = { λ _ _. ⊤ };

    // The terms of the core.
    ghost terms: { Self → Self.Terms };

    // The number of places, by the terms.
    ghost size: { Self.Terms → ℕ } = { λ _. 0 };

    // The number of places that are held.
    ghost out: { Self → ℕ } = { λ _. 0 };

    // The number of places that go back by this step with this reply.
    ghost paid: { Self.Step → Self.Reply → ℕ } = { λ _ _. 0 };

    // The number of places that are handed out with this reply.
    ghost gained: { Self.Reply → ℕ } = { λ _. 0 };

    /// Returns the terms.
    fn terms(&self) -> Self::Terms
        ensures { result ≡ terms self.now };

    /// Makes one step. Returns its reply, and names those who may go on after it. It may name too many.
    fn step(&mut self, step: Self::Step) -> (Self::Reply, Wakes)
        requires { admits step }
        ensures steps { steps self.old step result.0 self.new }
        ensures waits { is_wait result.0 ≡ true → result.1 ≡ Wakes.Wait (key_of step result.0) }
        ensures names { NamesAll stalls self.old self.new result.1 }
        ensures told { (key : ℕ) → asks step key → stalls self.old key → is_wait result.0 ≡ true };

    /// Returns whether whoever waits at this key would still be told to wait. After a step that names
    /// `Wakes::Unstalled`, a latch calls it once for each key at which somebody waits, and wakes those of
    /// whom it returns `false`. It may return `false` of a key that stalls; unless it is written, it does
    /// so for all.
    fn is_stalled(&self, key: usize) -> bool
        ensures { result ≡ true → stalls self.now key }
    {
        let _key = key;
        false
    }

    // At the beginning of a run, no place is held.
    ghost starts: { (core : Self) → opens core → out core ≡ 0 };

    // Each step keeps the terms, and counts the places that go back and those that are handed out.
    ghost counts: { (old : Self) (step : Self.Step) (reply : Self.Reply) (new : Self)
        → steps old step reply new
        → (terms new ≡ terms old) × (out new + paid step reply ≡ out old + gained reply)
        × (out new ≤ size (terms new)) };
}

/// A share of one core. Only a latch gives replies of the core.
pub trait Latch<C: Core>: Sized + Drop {
    // In some run of a core with the latch's terms the step had this reply, maybe at another latch.
    ghost gave: { Self → C.Step → C.Reply → Type 0 };

    // It is the latch that was created with the core, not a share of another.
    ghost is_first: { Self → Type 0 } = { λ _. ⊤ };

    // A call of `share` may return this.
    ghost shares: { Self → Result Self AllocError → Type 0 } = { λ _ _. ⊤ };

    // The terms of its core.
    ghost terms: { Self → C.Terms };

    // Holds for each source at which a task waits whose reply told it to. If this is left out, it isn't
    // known where it waits.
    ghost source: { Self → ℕ → Type 0 } = { λ _ _. ⊥ };

    // A call of `wait` may ask for another poll. If this is left out, it isn't known when.
    ghost stirs: { Self → Type 0 } = { λ _. ⊤ };

    // The token belongs to the core of this latch.
    ghost its: { Self → TokenValue → Type 0 };

    /// Makes one step of the core, which neither takes places back nor hands any out, and returns its
    /// reply.
    fn step(&self, step: C::Step) -> C::Reply
        requires admitted { C.admits step }
        requires unpaid { (reply : C.Reply) → C.paid step reply ≡ 0 }
        requires ungained { (old : C) (reply : C.Reply) (new : C) → C.steps old step reply new
            → C.gained reply ≡ 0 }
        ensures { gave self.now step result };

    /// Makes one step of the core, and returns its reply and a token of the places that the reply hands
    /// out. If the reply waits, the task is polled again after a step that names its key.
    fn wait(&self, step: C::Step, cx: &mut Context<'_>) -> (C::Reply, Token)
        requires admitted { C.admits step }
        requires unpaid { (reply : C.Reply) → C.paid step reply ≡ 0 }
        // The reply is the core's, and the token has the places that it hands out.
        ensures gave { gave self.now step result.0 }
        ensures its { its self.now result.1 }
        ensures places { places result.1 ≡ C.gained result.0 }
        // If the reply waits, the task is registered at each source of the latch, or asked for another poll.
        ensures armed { C.is_wait result.0 ≡ true → IsArmed cx.new }
        ensures heard { C.is_wait result.0 ≡ true → (s : ℕ) → source self.now s → Hears cx.new s }
        // It asks for another poll only for a cause that it names.
        ensures quiet { Quiet (stirs self.now) cx.old cx.new }
        ensures kept { Keeps cx.old cx.new };

    /// Makes one step of the core, which hands no places out, for the holder of `token`, and returns its
    /// reply and another token: it has the places of `token`, less those that the step gives back. The
    /// core's count of places that are held has those of `token`.
    fn give(&self, step: C::Step, token: Token) -> (C::Reply, Token)
        requires admitted { C.admits step }
        // The step gives back no more places than the token has, and hands none out.
        requires paid { (reply : C.Reply) → C.paid step reply ≤ places token }
        requires ungained { (old : C) (reply : C.Reply) (new : C) → C.steps old step reply new
            → C.gained reply ≡ 0 }
        requires its { its self.now token }
        // The reply is the core's, and the new token has the places that are left.
        ensures gave { gave self.now step result.0 }
        ensures its { its self.now result.1 }
        ensures places { places result.1 + C.paid step result.0 ≡ places token + C.gained result.0 }
        ensures held { (old : C) × (new : C) × C.steps old step result.0 new
            × (places token ≤ C.out old) };

    /// Returns a token of no places.
    fn empty(&self) -> Token
        ensures its { its self.now result }
        ensures places { places result ≡ 0 };

    /// Merges two tokens into one, which has the places of both. They are never more than the core has.
    fn merge(&self, token: Token, other: Token) -> Token
        requires its { its self.now token }
        requires others { its self.now other }
        ensures its { its self.now result }
        ensures places { places result ≡ places token + places other }
        ensures bound { places result ≤ C.size (terms self.now) };

    /// Returns another share of the same core. Each reply that the share gives counts as one of this
    /// latch. Returns an error if allocation fails.
    fn share(&self) -> Result<Self, AllocError>
        ensures shares { shares self.now result }
        ensures same { IfOk result
            (λ other. (step : _) (reply : _) → gave other step reply → gave self.now step reply) }
        ensures tokens { IfOk result (λ other. (terms other ≡ terms self.now)
            × ((token : TokenValue) → its other token → its self.now token)
            × ((token : TokenValue) → its self.now token → its other token)) };

    // Each reply belongs to a run of a core with these terms from an opening value.
    ghost honest: { (latch : Self) (s : C.Step) (r : C.Reply) → gave latch s r
        → Came C.opens C.steps C.terms (terms latch) s r };
}
