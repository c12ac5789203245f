//! The recording of latencies.
ghost use Rattle.std.specs.Prelude.{⊤, ℕ};

/// Records how long responses take: the Rust's `tower::hedge::latency::Record`.
pub trait Record: Drop {
    // Constructors establish it, and every call keeps it.
    ghost sound: { Self → Type 0 } = { λ _. ⊤ };

    // Recording this many nanoseconds may leave the second value. By default it isn't known what is
    // kept.
    ghost recorded: { Self → ℕ → Self → Type 0 } = { λ _ _ _. ⊤ };

    /// Records the latency of a response, in nanoseconds.
    fn record(&mut self, latency: u64)
        requires { sound self.old }
        ensures recorded { recorded self.old latency self.new }
        ensures sound { sound self.new };
}
