//! A load measured in pending requests.
ghost use Rattle.std.specs.Prelude.{◌≡◌, ℕ};

use std::marker::Model;

/// The number of pending requests: the Rust's `tower::load::pending_requests::Count`.
#[derive(Clone, Copy, Debug, PartialEq, Eq, PartialOrd, Ord)]
pub struct Count(usize);

impl Model for Count {
    ghost Value = { ℕ };

    ghost view = { λ c. c.0 };

    ghost inverse = { λ n. record { 0 = n } };
}

impl Count {
    #[inline(always)]
    pub(crate) fn new(number: usize) -> Count
        ensures { result ≡ number }
    {
        Count(number)
    }
}

impl Default for Count {
    ghost is_default = { λ c. c ≡ 0 };

    fn default() -> Count {
        Count(0)
    }
}
