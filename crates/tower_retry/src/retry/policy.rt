//! The policy of a `Retry`.
ghost use Rattle.std.specs.Prelude.{⊤, IfSome, Option, Result};

use tower_base::service::Steps;

/// A policy, which decides which requests are made again, and when: the Rust's `tower::retry::Policy`.
pub trait Policy<Request, Response, Error>: Drop {
    /// The wait before a retry.
    type Future: Steps<Output = ()>;

    // Holds after construction and is preserved by every call.
    ghost sound: { Self → Type 0 } = { λ _. ⊤ };

    // For a request and its result, `retry` may return this wait, or none, and leave the second policy,
    // request and result. If left out, it isn't known which requests are made again, nor what becomes of
    // a result.
    ghost decided: { Self → Request → Result Response Error → Option Self.Future → Self → Request
        → Result Response Error → Type 0 } = { λ _ _ _ _ _ _ _. ⊤ };

    // `clone_request` may return this copy of the request, or none, and leave the second value. If left
    // out, it isn't known what the copy is.
    ghost cloned: { Self → Request → Option Request → Self → Type 0 } = { λ _ _ _ _. ⊤ };

    /// Decides about a result, and may change the request and the result.
    ///
    /// Returns a wait, after which the changed request is made again; or `None`, and the changed result
    /// is the answer.
    fn retry(
        &mut self,
        request: &mut Request,
        outcome: &mut Result<Response, Error>,
    ) -> Option<Self::Future>
        requires { sound self.old }
        ensures decided { decided self.old request.old outcome.old result self.new request.new
            outcome.new }
        ensures can_poll { IfSome result Self.Future.can_poll }
        ensures sound { sound self.new };

    /// Returns a copy of the request to be made again; or `None`, and the result of the request is the
    /// answer.
    fn clone_request(&mut self, request: &Request) -> Option<Request>
        requires { sound self.old }
        ensures cloned { cloned self.old request.now result self.new }
        ensures sound { sound self.new };
}
