//! The law of `ExponentialBackoff`.
ghost use Rattle.tower_laws.specs.Backoff.{MakersFit, WaitsDouble};

use tower_base::service::Clock;
use tower_base::util::rng::Rng;

/// For the waits of a new backoff, one after another: without jitter no wait is below the one before,
/// and they double from the least up to the greatest, or up to 2^32 - 1 times the least. With jitter each is
/// at least the wait without jitter, never past the greatest, and, if the generator draws words of 64 bits,
/// at most the wait without jitter plus its share. Of the makers that `new` returns the least wait isn't above the greatest.
pub fn law<R: Rng, C: Clock>()
    ensures waits { WaitsDouble R.Rng C.Clock }
    ensures makers { MakersFit R C }
{}
