//! The policy of a `Delay`.
ghost use Rattle.std.specs.Prelude.{⊤, ℕ};

/// A policy, which decides how long a request waits: the Rust's `tower::hedge::delay::Policy`. (The Rust's
/// method takes `&self`; here a clock may be read.)
pub trait Policy<Request>: Drop {
    // Holds after construction and is preserved by every call.
    ghost sound: { Self → Type 0 } = { λ _. ⊤ };

    // `delay` may return this delay for the request and leave the second value. If left out, any delay
    // may be returned.
    ghost delayed: { Self → Request → ℕ → Self → Type 0 } = { λ _ _ _ _. ⊤ };

    /// Returns the delay of the request, in nanoseconds.
    fn delay(&mut self, request: &Request) -> u64
        requires { sound self.old }
        ensures delayed { delayed self.old request.now result self.new }
        ensures sound { sound self.new };
}
