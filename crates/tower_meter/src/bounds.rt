//! The bounds of buckets of times.
ghost use Rattle.std.specs.Prelude.{◌≡◌, ◌<◌, IfOk, IfErr, true, false};
ghost use Rattle.tower_meter.specs.Buckets.{Grows, below, defaults};

/// How many bounds there are.
pub const BOUNDS: usize = 16;

// From 0.1 ms to 10 s.
const DEFAULTS: [u64; 16] = [
    100_000,
    250_000,
    500_000,
    1_000_000,
    2_500_000,
    5_000_000,
    10_000_000,
    25_000_000,
    50_000_000,
    100_000_000,
    250_000_000,
    500_000_000,
    1_000_000_000,
    2_500_000_000,
    5_000_000_000,
    10_000_000_000,
];

/// The error of `Bounds::new`: a bound isn't greater than the one before it.
#[derive(Clone, Copy, Debug, PartialEq, Eq, thiserror::Error)]
#[error("the bounds of the buckets don't grow")]
pub struct NotGrowing;

// Whether each bound is below the next one.
fn grows(nanos: &[u64; 16]) -> bool
    ensures grows { result ≡ true → Grows nanos.now }
    ensures falls { result ≡ false → Grows nanos.now → ⊥ }
{
    for i in 1..16 {
        if nanos[i - 1] >= nanos[i] {
            return false;
        }
    }
    true
}

/// The bounds of the buckets in which a meter counts times.
///
/// A time is in the bucket of the first bound that isn't below it, or in the last bucket, which has no
/// bound, if each bound is below it.
#[derive(Clone, Copy, Debug, PartialEq, Eq)]
pub struct Bounds {
    /// The bounds, in nanoseconds.
    pub nanos: [u64; 16],
    ghost growing: { Grows nanos },
}

impl Bounds {
    /// Creates bounds, in nanoseconds. Returns `NotGrowing` if one isn't greater than the one before it.
    pub fn new(nanos: [u64; 16]) -> Result<Bounds, NotGrowing>
        ensures ok { IfOk result (λ bounds. bounds.nanos ≡ nanos) }
        ensures err { IfErr result (λ _. ¬ (Grows nanos)) }
    {
        if grows(&nanos) {
            Ok(Bounds { nanos })
        } else {
            Err(NotGrowing)
        }
    }

    /// Returns the bounds of a meter that was given none: 0.1, 0.25, 0.5 ms, and so on to 10 s.
    pub fn standard() -> Bounds
        ensures { result.nanos ≡ defaults }
    {
        Bounds { nanos: DEFAULTS }
    }

    // The place of a time's bucket.
    #[inline(always)]
    pub(crate) fn bucket(&self, nanos: u64) -> usize
        ensures bucket { result ≡ below self.now.nanos nanos }
        ensures inside { result < 17 }
    {
        self.nanos.iter().filter(|bound| **bound < nanos).count()
    }
}

impl Default for Bounds {
    fn default() -> Bounds
        ensures { result.nanos ≡ defaults }
    {
        Bounds::standard()
    }
}
