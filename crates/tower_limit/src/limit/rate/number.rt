//! A rate: how many calls, and in which time. The Rust has it in a file `rate`, which isn't allowed
//! beside `Rate` here.
ghost use Rattle.std.specs.Prelude.{◌≡◌, ◌≢◌, ◌↔◌, IsTrue};

/// A rate of `num` calls in `per` nanoseconds: the Rust's `tower::limit::rate::Rate`.
#[derive(Clone, Copy, Debug, PartialEq, Eq)]
pub struct Rate {
    pub num: u64,
    pub per: u64,
    ghost counts: { num ≢ 0 },
    ghost lasts: { per ≢ 0 },
}

impl Rate {
    /// Creates a rate. Requires two positive numbers, which `fits` tests.
    pub fn new(num: u64, per: u64) -> Rate
        requires num { num ≢ 0 }
        requires per { per ≢ 0 }
        ensures num { result.num ≡ num }
        ensures per { result.per ≡ per }
    {
        Rate { num, per }
    }

    /// Returns whether both numbers are positive.
    pub fn fits(num: u64, per: u64) -> bool
        ensures { IsTrue result ↔ (num ≢ 0) × (per ≢ 0) }
    {
        num != 0 && per != 0
    }
}
