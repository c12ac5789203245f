//! The pace that the arguments give.
ghost use Rattle.std.specs.Prelude.{◌<◌};

use std::str;

/// A pace of at most `lines` lines in any `period` nanoseconds.
#[derive(Clone, Copy)]
pub struct Pace {
    pub lines: u64,
    pub period: u64,
    ghost some: { 0 < lines },
    ghost lasts: { 0 < period },
}

const NANOS_PER_MILLI: u64 = 1_000_000;

impl Pace {
    /// Reads the arguments `N` and `P`, both positive, `P` in milliseconds. Returns `None` if they are
    /// anything else.
    pub fn of(words: &[String]) -> Option<Pace> {
        let [lines, millis] = words else {
            return None;
        };
        let lines = read_number(lines.as_bytes())?;
        let period = read_number(millis.as_bytes())?.checked_mul(NANOS_PER_MILLI)?;
        if lines == 0 || period == 0 {
            return None;
        }
        Some(Pace { lines, period })
    }
}

// Reads a decimal number without leading zeros.
fn read_number(text: &[u8]) -> Option<u64> {
    match text {
        [b'0'] => Some(0),
        [b'1'..=b'9', ..] => str::from_utf8(text).ok()?.parse().ok(),
        _ => None,
    }
}
