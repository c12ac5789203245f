//! The policy of a `Hedge`.
ghost use Rattle.std.specs.Prelude.{⊤, Bool, Option};

/// A policy, which decides which requests may be made twice: the Rust's `tower::hedge::Policy`.
pub trait Policy<Request>: Drop {
    // Holds after construction.
    ghost sound: { Self → Type 0 } = { λ _. ⊤ };

    // `clone_request` may return this copy of the request, or none. If left out, it isn't known what the
    // copy is.
    ghost cloned: { Self → Request → Option Request → Type 0 } = { λ _ _ _. ⊤ };

    // `can_retry` may return this for the request. If left out, either may be returned.
    ghost allowed: { Self → Request → Bool → Type 0 } = { λ _ _ _. ⊤ };

    /// Returns a copy of the request; or `None`, and there is no second request.
    fn clone_request(&self, request: &Request) -> Option<Request>
        requires { sound self.now }
        ensures cloned { cloned self.now request.now result };

    /// Returns `true` if the second request may be made, once its delay is over. Otherwise it waits
    /// forever.
    fn can_retry(&self, request: &Request) -> bool
        requires { sound self.now }
        ensures allowed { allowed self.now request.now result };
}
