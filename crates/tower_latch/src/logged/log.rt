// The type parameter that names a log, and the table of its tokens.
ghost use Rattle.std.specs.Prelude.{◌≡◌, [], Option};
ghost use Rattle.crossbeam_utils.specs.Seq.{cell_view};
ghost use Rattle.atomic_table.specs.Seated.{TableId};
ghost use Rattle.tower_latch.specs.Tokens.{knower};

use crate::logged::rule::{Cell, PassToken};
use std::alloc::{AllocError, Global};
use std::marker::{Brand, Model};
use std::sync::ledger::Ledger;

/// A type that names one log: its ledger, the core that it opens with, and its table.
pub trait Log<C>: Ledger {
    ghost use Rattle.std.specs.Prelude.{Option};
    ghost use Rattle.atomic_table.specs.Seated.{TableId};

    ghost opening: { Option C };

    ghost table: { TableId };
}

impl<C> Log<C> for Brand {
    ghost use Rattle.std.specs.Prelude.{None};
    ghost use Rattle.tower_latch.specs.Tokens.{no_table};

    ghost opening = { None };

    ghost table = { no_table };
}

/// The table of one log. Contracts see its name.
#[derive(Drop)]
pub struct LogTable<S, R> {
    cell: Cell<S, R>,
    // Knows the history, which is still empty.
    keeper: PassToken<S, R>,
}

impl<S, R> Model for LogTable<S, R> {
    ghost Value = { TableId };

    // The view leaves out `keeper`: the invariant tells what it knows.
    ghost view = { λ t. t.cell.table.shared.table_id };

    ghost invariant = { λ t. (t.keeper.table_id ≡ t.cell.table.shared.table_id)
        × (cell_view t.keeper ≡ knower []) };
}

impl<S, R> LogTable<S, R> {
    /// Creates the table of a log that isn't open yet. Returns an error if allocation fails.
    pub fn new(alloc: Global) -> Result<LogTable<S, R>, AllocError> {
        let (cell, keeper) = Cell::<S, R>::ruled(alloc, [0])?;
        Ok(LogTable { cell, keeper })
    }

    pub(crate) fn into_parts(self) -> (Cell<S, R>, PassToken<S, R>)
        ensures cell { result.0.table.shared.table_id ≡ self }
        ensures keeper { (result.1.table_id ≡ self) × (cell_view result.1 ≡ knower []) }
    {
        let LogTable { cell, keeper } = self;
        (cell, keeper)
    }
}
