//! A count that only contracts see. It has no bytes, and its calls do nothing at run time.
ghost use Rattle.std.specs.Prelude.{◌≡◌, ℕ, ◌+◌};
ghost use Rattle.std.specs.Borrow.{ftrue};

use std::marker::{Model, PhantomData};
use std::mem::size_of;

/// A number that only contracts see, such as how many entries a structure has reached. Only `tick` changes it.
#[derive(Drop)]
pub struct GhostCounter {
    marker: PhantomData<u8>,
    pub ghost count: { ℕ },
}

impl Model for GhostCounter {
    ghost also_owns = { λ _. ftrue };
}

// It owns nothing, so it may go to another thread.
unsafe impl Send for GhostCounter {}

unsafe impl Sync for GhostCounter {}

const _: () = prove!(size_of::<GhostCounter>() == 0);

impl GhostCounter {
    /// Creates a counter at 0.
    pub fn new() -> GhostCounter
        ensures { result.count ≡ 0 }
    {
        GhostCounter {
            marker: PhantomData,
        }
    }

    /// Adds one to the count.
    #[inline(always)]
    pub fn tick(&mut self)
        ensures { self.new.count ≡ self.old.count + 1 }
    {}
}
