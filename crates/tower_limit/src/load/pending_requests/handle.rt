//! The handles that are counted as pending requests.
ghost use Rattle.std.specs.Prelude.{IfSome};
ghost use Rattle.tower_limit.specs.PendingRequests.{HandleView, Taken};

use crate::load::pending_requests::count_core::{CountCore, CountReply, CountStep};
use std::marker::Model;
use tower_latch::Latch;

/// A holder, which counts as a pending request until it is dropped: the Rust's
/// `tower::load::pending_requests::Handle`.
///
/// It isn't counted if allocation fails for it, or if 2^64 - 1 holders are counted already.
pub struct Handle<L: Latch<CountCore>> {
    share: Option<L>,
}

impl<L: Latch<CountCore>> Model for Handle<L> {
    ghost Value = { HandleView L };

    ghost view = { λ h. record { share = h.share } };
}

impl<L: Latch<CountCore>> Handle<L> {
    // The share is created before the step.
    pub(crate) fn take(latch: &L) -> Handle<L>
        ensures { Taken L.Latch latch.now result }
    {
        let Ok(share) = latch.share() else {
            return Handle { share: None };
        };
        match latch.step(CountStep::Take) {
            CountReply::Counted => Handle { share: Some(share) },
            _ => Handle { share: None },
        }
    }
}

/// Dropping a counted handle ends its count by one step at its latch.
impl<L: Latch<CountCore>> Drop for Handle<L> {
    fn drop(self)
        ensures { IfSome self.share (λ share. (reply : _) × L.gave share CountStep.Give reply) }
    {
        if let Some(share) = &self.share {
            share.step(CountStep::Give);
        }
        let Handle { share: _ } = self;
    }
}
