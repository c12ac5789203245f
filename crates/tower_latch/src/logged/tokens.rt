// Operations on tokens. The keeper adds entries, and gathers the claims of passes to compare them.
ghost use Rattle.std.specs.Prelude.{◌≡◌, [], ◌∷◌, ◌++◌, length, true, Some};
ghost use Rattle.crossbeam_utils.specs.Seq.{cell_view, IsSamePass};
ghost use Rattle.tower_latch.specs.History.{Stand};
ghost use Rattle.tower_latch.specs.Tokens.{knower, claimer, gathered, Accounts};

use crate::logged::rule::{Appends, Cell, Claims, Compares, Entry, Gathers, PassToken};
use std::marker::Brand;
use std::sync::Wait;

fn append_entry<S: Copy, R: Copy, E: Entry<S, R>, W: Wait>(
    rt: &W,
    cell: &Cell<S, R>,
    keeper: &mut PassToken<S, R>,
    step: S,
    reply: R,
)
    requires cell { keeper.old.table_id ≡ cell.now.table.shared.table_id }
    requires keeps { (cell_view keeper.old).keeps ≡ true }
    requires entry { E.entry ≡ Some (step, reply) }
    ensures same { IsSamePass keeper.old keeper.new }
    ensures stand { Stand (cell_view keeper.old).all (cell_view keeper.old).claims }
    ensures added { cell_view keeper.new ≡ record {
      keeps = (cell_view keeper.old).keeps;
      all = (cell_view keeper.old).all ++ (step, reply) ∷ [];
      claims = (cell_view
          keeper.old).claims ++ (length (cell_view keeper.old).all, step, reply) ∷ [];
    } }
{
    cell.load_as::<Appends<E>, W>(rt, keeper);
}

/// Adds an entry to the keeper, which claims it after the claims that it was shown. All of those stand
/// in the history.
pub fn append<S: Copy, R: Copy, W: Wait>(
    rt: &W,
    cell: &Cell<S, R>,
    keeper: &mut PassToken<S, R>,
    step: S,
    reply: R,
)
    requires cell { keeper.old.table_id ≡ cell.now.table.shared.table_id }
    requires keeps { (cell_view keeper.old).keeps ≡ true }
    ensures same { IsSamePass keeper.old keeper.new }
    ensures stand { Stand (cell_view keeper.old).all (cell_view keeper.old).claims }
    ensures added { cell_view keeper.new ≡ record {
      keeps = (cell_view keeper.old).keeps;
      all = (cell_view keeper.old).all ++ (step, reply) ∷ [];
      claims = (cell_view
          keeper.old).claims ++ (length (cell_view keeper.old).all, step, reply) ∷ [];
    } }
{
    append_entry::<S, R, Brand, W>(rt, cell, keeper, step, reply);
}

/// Adds an entry to the keeper. The token claims the entry after its other claims, which all stand in
/// the history.
pub fn stamp<S: Copy, R: Copy, W: Wait>(
    rt: &W,
    cell: &Cell<S, R>,
    keeper: &mut PassToken<S, R>,
    token: &mut PassToken<S, R>,
    step: S,
    reply: R,
)
    requires cell { (keeper.old.table_id ≡ cell.now.table.shared.table_id)
        × (token.old.table_id ≡ cell.now.table.shared.table_id) }
    requires keeper { cell_view keeper.old ≡ knower (cell_view keeper.old).all }
    ensures same { (keeper.new.table_id ≡ keeper.old.table_id)
        × (token.new.table_id ≡ token.old.table_id) }
    ensures stand { Stand (cell_view keeper.old).all (cell_view token.old).claims }
    ensures keeper { cell_view keeper.new
        ≡ knower ((cell_view keeper.old).all ++ (step, reply) ∷ []) }
    ensures token { cell_view token.new ≡ claimer
        ((cell_view token.old).claims ++ (length (cell_view keeper.old).all, step, reply) ∷ []) }
{
    let claims = cell.split_pass::<Claims>(token);
    cell.join_pass::<Claims>(keeper, claims);
    append(rt, cell, keeper, step, reply);
    *token = cell.split_pass::<Claims>(keeper);
}

/// Adds a token's claims to those of the keeper.
pub fn gather<S: Copy, R: Copy>(
    cell: &Cell<S, R>,
    keeper: &mut PassToken<S, R>,
    mut token: PassToken<S, R>,
)
    requires cell { (keeper.old.table_id ≡ cell.now.table.shared.table_id)
        × (token.table_id ≡ cell.now.table.shared.table_id) }
    ensures same { keeper.new.table_id ≡ keeper.old.table_id }
    ensures keeper { cell_view keeper.new ≡ gathered (cell_view keeper.old) (cell_view token) }
{
    let claims = cell.split_pass::<Claims>(&mut token);
    cell.join_pass::<Gathers>(keeper, claims);
}

/// Compares the claims that the keeper gathered with the history.
pub fn compare<S: Copy, R: Copy, W: Wait>(rt: &W, cell: &Cell<S, R>, keeper: &mut PassToken<S, R>)
    requires cell { keeper.old.table_id ≡ cell.now.table.shared.table_id }
    requires keeps { (cell_view keeper.old).keeps ≡ true }
    ensures stand { Stand (cell_view keeper.old).all (cell_view keeper.old).claims }
    ensures accounts { Accounts (cell_view keeper.old).all (cell_view keeper.old).claims }
{
    cell.load_as::<Compares, W>(rt, keeper);
}
