//! `Core`, `Latch` and `Guarded`: a custom core behind a lock.

ghost use Rattle.std.specs.Prelude.{◌≡◌, ◌≤◌, false};
ghost use Rattle.uses.specs.Seats.{Sold};

use std::alloc::AllocGlobal;
use std::sync::Wait;
use std::thread::Threads;
use std::{io, thread};
use tower::latch::{Core, Guarded, Latch, Wakes};

/// The seats that are left, of three: those numbered below `left`.
#[derive(Drop)]
struct Seats {
    left: u32,
    ghost few: { left ≤ 3 },
}

impl Core for Seats {
    type Step = ();

    type Reply = Option<u32>;

    type Terms = ();

    ghost use Rattle.tower_latch.specs.LatchLemmas.{none_held, no_terms};

    ghost opens = { λ seats. seats.left ≡ 3 };

    ghost steps = { λ old _ reply new. Sold old.left reply new.left };

    ghost is_wait = { λ _. false };

    ghost terms = { λ _. tt };

    ghost starts = { none_held _ };

    ghost counts = { no_terms _ };

    fn step(&mut self, _step: ()) -> (Option<u32>, Wakes) {
        if self.left == 0 {
            return (None, Wakes::Nobody);
        }
        self.left -= 1;
        (Some(self.left), Wakes::Nobody)
    }

    fn terms(&self) {}
}

/// The prices of the seats.
const PRICES: [u32; 3] = [50, 30, 20];

// Sells a seat, and returns its price. All that is known of the seat is that it was sold somewhere in a run
// of the hall. So it is one of three, and the index is in bounds.
fn sell<L: Latch<Seats>>(hall: &L) -> u32 {
    match hall.step(()) {
        Some(seat) => PRICES[seat as usize],
        None => 0,
    }
}

/// Sells two seats of one hall, each in a thread of its own.
pub fn sell_two_seats<R>(rt: R) -> io::Result<()>
where
    R: Threads + Wait + AllocGlobal + Print + Copy + Send + Sync,
{
    let hall = Guarded::new(rt, rt.alloc(), Seats { left: 3 })?;
    let other = hall.share()?;
    let (first, second) = thread::join(&rt, || sell(&hall), || sell(&other));
    println!(rt; "latch: {}", first.saturating_add(second))
}
