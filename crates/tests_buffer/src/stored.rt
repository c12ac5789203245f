//! Mail whose stored error has no clone: whoever is to be told it gets `Memory`, and nothing changes.

use std::alloc::AllocError;
use std::fmt::Write;
use std::test::Fail;
use tests_support::checks::Checks;
use tower_buffer::buffer::{MailCore, MailStep};
use tower_latch::Core;

// An error whose clones are refused.
#[derive(Debug, Drop)]
struct Stuck;

impl Clone for Stuck {
    ghost use Rattle.std.specs.Prelude.{◌≡◌};

    ghost is_clone = { λ old new. new ≡ old };

    fn clone(&self) -> Result<Stuck, AllocError> {
        Err(AllocError)
    }
}

type Step = MailStep<u8, u8, Stuck>;

#[test]
fn place_stays_reserved_without_a_clone_of_the_error(rt: HostRuntime) -> Result<(), Fail> {
    let checks = Checks::new(rt.alloc());
    let mut mail: MailCore<u8, u8, Stuck> = MailCore::new(rt.alloc(), 2);
    let mut replies = String::new(rt.alloc());
    for step in [
        Step::Reserve,
        Step::Reserve,
        Step::Send(1),
        Step::Take,
        Step::Fail(0, Stuck),
        Step::Reserve,
        Step::Outcome(0),
        Step::WorkerGone,
        Step::Send(2),
        Step::Send(3),
        Step::Unreserve,
        Step::Unreserve,
        Step::Outcome(0),
    ] {
        let reply = mail.step(step).0;
        write!(replies, "{reply:?};")?;
    }
    checks.same(
        &replies.as_str(),
        &"Place;Place;Sent(0);Message(0, 1);Done;Memory;Memory;Done;Memory;Memory;Done;Unknown;Memory;",
    );
    checks.verdict()
}
