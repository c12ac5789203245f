//! How many requests are with the routes.
ghost use Rattle.std.specs.Prelude.{◌≡◌};

use std::alloc::AllocError;
use std::cell::Cell;
use std::rc::Rc;

/// Counts the requests that are with the routes now, and the most that were there at once.
#[derive(Drop)]
pub struct Visits {
    now: Cell<u64>,
    most: Cell<u64>,
}

impl Visits {
    pub fn new() -> Visits {
        Visits {
            now: Cell::new(0),
            most: Cell::new(0),
        }
    }

    /// Prints how many requests are with the routes now, and the most that were there at once.
    pub fn report<R: Print>(&self, rt: &R) -> anyhow::Result<()> {
        println!(rt;
            "at most {} inside at once, {} at the end",
            self.most.get(),
            self.now.get()
        )?;
        Ok(())
    }
}

/// A request that is with the routes until this is dropped.
pub struct Visit {
    visits: Rc<Visits>,
}

impl Visit {
    pub fn begin(visits: &Rc<Visits>) -> Result<Visit, AllocError> {
        let visits = visits.clone()?;
        let now = visits.now.get().saturating_add(1);
        visits.now.set(now);
        visits.most.set(visits.most.get().max(now));
        Ok(Visit { visits })
    }
}

impl Drop for Visit {
    fn drop(self) {
        let Visit { visits } = self;
        visits.now.set(visits.now.get().saturating_sub(1));
    }
}
