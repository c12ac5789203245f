//! Tokens, which show that their holder has places of a core.
ghost use Rattle.std.specs.Prelude.{◌≡◌, [], ◌∷◌, false, true};
ghost use Rattle.tower_latch.specs.BadgeViews.{is_away};

use crate::Core;
use crate::guarded::table::{Seat, View};
use atomic_table::Badge;

/// A token, which shows that its holder has a number of the places of a core under a lock. It has no
/// bytes, and doesn't name the core.
///
/// It can't be dropped, so no place is lost: a token ends in `end`, once it has no place, or in a step
/// that takes its places back.
pub struct Token {
    pub(super) badge: Badge<View>,
    ghost away: { is_away badge.views ≡ true },
}

impl Token {
    // Turns the token back into a seat.
    pub(super) fn into_seat<C: Core>(self) -> Seat<C>
        ensures its { result.table_id ≡ self.badge.table_id }
        ensures views { self.badge.views ≡ result.me.0 ∷ [] }
        ensures away { (result.me.1 ≡ []) × (result.me.0.has ≡ false) }
    {
        let Token { badge } = self;
        badge.into_seat()
    }
}
