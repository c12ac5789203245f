//! The policy of a `Select`.
ghost use Rattle.std.specs.Prelude.{⊤, Option};

/// A policy, which decides which requests are called twice: the Rust's `tower::hedge::select::Policy`.
/// (The Rust's method takes `&self`; here a clock may be read.)
pub trait Policy<Request>: Drop {
    // Holds after construction and is preserved by every call.
    ghost sound: { Self → Type 0 } = { λ _. ⊤ };

    // `clone_request` may return this copy of the request, or none, and leave the second value. If left
    // out, it isn't known what the copy is.
    ghost cloned: { Self → Request → Option Request → Self → Type 0 } = { λ _ _ _ _. ⊤ };

    /// Returns a copy of the request for the second service; or `None`, and only the first is called.
    fn clone_request(&mut self, request: &Request) -> Option<Request>
        requires { sound self.old }
        ensures cloned { cloned self.old request.now result self.new }
        ensures sound { sound self.new };
}
