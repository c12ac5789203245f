//! What holds of every rate limit.
ghost use Rattle.tower_limit.specs.RateLaws.{Bounded};

/// States the law of rate limits: if moments never go back, and calls are made only when they may be,
/// any half-open interval of length `per` has at most `num` calls.
pub fn law()
    ensures bounded { Bounded }
{}
