//! The predicate that accepts squares with short sides.

use std::fmt::{self, Display};
use tower::filter::Predicate;

/// The error for a square whose side isn't below 8.
#[derive(Clone, Copy, Debug)]
pub struct TooLong(u64);

impl Display for TooLong {
    fn fmt<W: fmt::Write>(&self, f: &mut fmt::Formatter<W>) -> fmt::Result {
        write!(f, "{} is too long", self.0)
    }
}

#[derive(Clone, Copy)]
pub struct Short;

impl Predicate<u64> for Short {
    type Request = u64;

    type Error = TooLong;

    fn check(&mut self, side: u64) -> Result<u64, TooLong> {
        if side < 8 {
            Ok(side)
        } else {
            Err(TooLong(side))
        }
    }
}
