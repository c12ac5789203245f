//! Random words.
ghost use Rattle.std.specs.Prelude.{◌≡◌, ◌<◌, ◌≤◌, ◌+◌, ◌-◌, ◌%◌, ⊤, ℕ};
ghost use Rattle.tower_base.specs.Draw.{Drawn, IsPair};
ghost use Rattle.tower_base.specs.Rng.{New, HasherRngView, Word};

mod laws;

pub use laws::law;
use std::alloc::AllocError;
use std::hash::{BuildHasher, BuildHasherDefault, FoldHasher};
use std::marker::Model;
use std::ops::Range;

/// A source of random words. It is the Rust's `tower::util::rng::Rng`.
pub trait Rng: Drop {
    // A draw may return this word and leave the second value. If this is left out, any word may come.
    ghost drew: { Self → ℕ → Self → Type 0 } = { λ _ _ _. ⊤ };

    /// Returns the next word. All its bits are random.
    fn next_u64(&mut self) -> u64
        ensures { drew self.old result self.new };

    /// Returns a number in the range, made from one word by taking the remainder of a division.
    fn next_range(&mut self, range: Range<u64>) -> u64
        requires { range.start < range.end }
        ensures { (word : ℕ) × drew self.old word self.new
            × (result ≡ word % (range.end - range.start) + range.start) }
    {
        let word = self.next_u64();
        word % (range.end - range.start) + range.start
    }
}

/// A generator that hashes a counter, which begins at 0 and goes up by one with each word. It is the
/// Rust's `tower::util::rng::HasherRng`. A clone continues from the same counter.
#[derive(Drop)]
pub struct HasherRng<H = BuildHasherDefault<FoldHasher>> {
    hasher: H,
    counter: u64,
}

impl<H> Model for HasherRng<H> {
    ghost Value = { HasherRngView H };

    ghost view = { λ r. record { hasher = r.hasher; counter = r.counter } };
}

impl HasherRng {
    /// Creates a generator with the default hasher of a `HashMap`. All such generators return the same words.
    pub fn new() -> Self
        ensures { New result }
    {
        HasherRng::with_hasher(BuildHasherDefault::new())
    }
}

impl Default for HasherRng {
    ghost is_default = { New };

    fn default() -> Self {
        HasherRng::new()
    }
}

impl<H> HasherRng<H> {
    /// Creates a generator whose words are hashes of the counter, each by a hasher that `hasher` builds.
    pub fn with_hasher(hasher: H) -> HasherRng<H>
        ensures { result ≡ record { hasher = hasher; counter = 0 } }
    {
        HasherRng { hasher, counter: 0 }
    }
}

impl<H: Clone> Clone for HasherRng<H> {
    ghost is_clone = { λ old new. H.is_clone old.hasher new.hasher × (new.counter ≡ old.counter) };

    fn clone(&self) -> Result<Self, AllocError> {
        Ok(HasherRng {
            hasher: self.hasher.clone()?,
            counter: self.counter,
        })
    }
}

impl<H: BuildHasher + Drop> Rng for HasherRng<H> {
    ghost drew = { λ old word new. Word H.BuildHasher H.Hasher.Hasher old word new };

    fn next_u64(&mut self) -> u64 {
        let word = self.hasher.hash_one(self.counter);
        self.counter = self.counter.wrapping_add(1);
        word
    }
}

/// Returns two distinct indexes below `length`, which is at least 2, from two words. It is the Rust's
/// `tower::util::rng::sample_floyd2`, which is private there.
///
/// The first word is reduced below `length - 1` and the second below `length`. If both give the same
/// number, the first index is the last one below `length` instead.
pub fn sample_floyd2<R: Rng>(rng: &mut R, length: u64) -> [u64; 2]
    requires { 2 ≤ length }
    ensures drawn { Drawn R.drew rng.old length result rng.new }
    ensures apart { IsPair length result }
{
    let a = rng.next_range(0..length - 1);
    let b = rng.next_range(0..length);
    if a == b {
        return [length - 1, b];
    }
    [a, b]
}
