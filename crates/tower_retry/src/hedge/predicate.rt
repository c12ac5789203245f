//! The filter before a second request.
ghost use Rattle.std.specs.Prelude.{◌≡◌};
ghost use Rattle.tower_retry.specs.Hedge.{Checked};

use crate::hedge::check::{CheckFuture, CheckState};
use crate::hedge::policy::Policy;
use futures::future;
use std::alloc::AllocError;
use std::convert::Infallible;
use std::marker::Model;
use tower_ware::filter::AsyncPredicate;

/// A predicate that accepts a request if its policy allows it to be made again, and otherwise makes it
/// wait forever: the Rust's `tower::hedge::PolicyPredicate`.
#[derive(Drop)]
pub struct PolicyPredicate<P> {
    policy: P,
}

impl<P> Model for PolicyPredicate<P> {
    ghost Value = { P };

    ghost view = { λ p. p.policy };
}

impl<P> PolicyPredicate<P> {
    pub(crate) fn new(policy: P) -> PolicyPredicate<P>
        ensures { result ≡ policy }
    {
        PolicyPredicate { policy }
    }
}

impl<Request: Drop, P: Policy<Request>> AsyncPredicate<Request> for PolicyPredicate<P> {
    type Request = Request;

    type Error = Infallible;

    type Future = CheckFuture<Request>;

    ghost sound = { P.sound };

    ghost checked = { Checked P.Policy };

    fn check(&mut self, request: Request) -> CheckFuture<Request> {
        if self.policy.can_retry(&request) {
            return CheckFuture::new(CheckState::Passed(request));
        }
        CheckFuture::new(CheckState::Waiting(future::pending()))
    }
}

impl<P: Clone> Clone for PolicyPredicate<P> {
    ghost is_clone = { P.is_clone };

    ghost is_infallible = { P.is_infallible };

    fn clone(&self) -> Result<PolicyPredicate<P>, AllocError> {
        Ok(PolicyPredicate::new(self.policy.clone()?))
    }
}
