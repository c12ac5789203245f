//! What wakes the thread of the timers.
ghost use Rattle.std.specs.Prelude.{◌≡◌, false};
ghost use Rattle.tower_time.specs.Clocks.{thread_nap};

use crate::ticks::nanos_until;
use crate::timers::doze::{Dozed, Rung, doze, notify};
use crate::timers::state::Ended;
use std::sync::{Condvar, Wait};

/// The longest sleep of the thread, in nanoseconds: an hour.
const LONGEST: u64 = 3_600_000_000_000;

/// The shortest sleep of the thread, in nanoseconds: timers that are due within it fire in one turn.
const SHORTEST: u64 = 500_000;

/// Says whether the thread has to look at its timers before its next turn. It can't be dropped: if the
/// thread has to, `Bell::ring_if_due` alone takes it.
pub struct Notice {
    is_due: bool,
}

impl Notice {
    pub fn new(is_due: bool) -> Notice
        ensures { result.is_due ≡ is_due }
    {
        Notice { is_due }
    }

    /// Ends a notice of which the thread needs to know nothing.
    pub fn end(self)
        requires { self.is_due ≡ false }
    {
        let Notice { is_due: _ } = self;
    }
}

/// How often the bell had rung before a turn began. It can't be dropped: the sleep after the turn takes it,
/// or the end of the thread. So no ring between the beginning of a turn and the sleep after it is lost.
pub struct Rings {
    count: u64,
}

impl Rings {
    /// The thread ends.
    pub fn end(self, _ended: &Ended) {
        let Rings { count: _ } = self;
    }

    /// The turn has ended that began with these rings.
    pub fn next_turn(self, tick: u64) -> Turned
        ensures { (result.tick ≡ tick) × (result.rings.count ≡ self.count) }
    {
        Turned { rings: self, tick }
    }
}

/// A turn of the thread, with the tick of the next one. It can't be dropped: `Bell::sleep` alone takes it.
pub struct Turned {
    rings: Rings,
    tick: u64,
}

/// Where the thread sleeps.
#[derive(Drop)]
pub struct Bell {
    condvar: Condvar,
}

impl Bell {
    pub fn new() -> Bell {
        Bell {
            condvar: Condvar::new(),
        }
    }

    /// Wakes the thread if it has to look earlier.
    pub fn ring_if_due(&self, notice: Notice) {
        if notice.is_due {
            let _rung = self.ring(notice);
        } else {
            notice.end();
        }
    }

    fn ring(&self, notice: Notice) -> Rung {
        let Notice { is_due: _ } = notice;
        notify(&self.condvar)
    }

    /// Returns how often the bell rang, wrapping.
    pub fn rings(&self) -> Rings {
        Rings {
            count: self.condvar.notifications(),
        }
    }

    /// Sleeps from the moment, in nanoseconds, to the tick of the next turn, and not at all if the bell
    /// rang since the turn began.
    pub fn sleep<W: Wait>(&self, rt: &W, turned: Turned, moment: u64) -> Dozed
        ensures rings { result.rings ≡ turned.rings.count }
        ensures nanos { result.nanos ≡ thread_nap turned.tick moment }
    {
        let Turned { rings, tick } = turned;
        let left = nanos_until(tick, moment, LONGEST);
        let Rings { count } = rings;
        doze(&self.condvar, rt, count, left.max(SHORTEST))
    }
}
