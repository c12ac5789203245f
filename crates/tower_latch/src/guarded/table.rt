//! The slot of a core under its lock, and what each operation on it shows.

use crate::Core;
use crate::guarded::Kept;
use atomic_table::{Join, Play, Seat as TableSeat, Table, TableRule};
use std::alloc::Global;
use std::marker::{Brand, PhantomData};

// What a seat knows: how many places it has, whether it has the core, and how many were held when it took
// the core. No value of this type is ever made.
pub struct View {
    pub out: u64,
    pub has: bool,
    pub held: u64,
}

pub struct Counts;

impl<C: Core> TableRule<Kept<C>, View, C::Terms> for Counts {
    ghost use Rattle.std.specs.Prelude.{◌≡◌};
    ghost use Rattle.tower_latch.specs.CoreTable.{Agree, initial};

    ghost holds = { λ terms. Agree (λ k. C.terms k.core ≡ terms) (λ k. C.out k.core) };

    ghost first = { λ _. initial };
}

/// A type that says which terms they are, for one call.
pub trait Known<T> {
    ghost are: { T → Type 0 };
}

impl<T> Known<T> for Brand {
    ghost use Rattle.std.specs.Prelude.{⊤};

    ghost are = { λ _. ⊤ };
}

// Takes the core, if it is there. Its terms are known.
pub struct Takes<K> {
    known: PhantomData<K>,
}

impl<C: Core, K: Known<C::Terms>> Play<Kept<C>, View> for Takes<K> {
    ghost use Rattle.tower_latch.specs.CoreTable.{Taken};

    ghost then = { Taken (λ k. K.are (C.terms k.core)) (λ k. C.out k.core) };
}

// Puts the core back.
pub struct Frees;

impl<C: Core> Play<Kept<C>, View> for Frees {
    ghost use Rattle.tower_latch.specs.CoreTable.{Freed};

    ghost then = { Freed (λ k. C.out k.core) };
}

// Moves the places of the second seat to the first.
pub struct Gathers;

impl Join<View> for Gathers {
    ghost use Rattle.tower_latch.specs.CoreTable.{with_those, initial};

    ghost both = { with_those };

    ghost spent = { initial };
}

pub type CoreTable<C> = Table<Kept<C>, View, <C as Core>::Terms, Counts, Global>;

/// A seat at the slot of a core. It has no bytes.
pub type Seat<C> = TableSeat<Kept<C>, View>;
