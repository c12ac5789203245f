//! `tower::limit::concurrency::LineCore` by hand.

use std::test::Fail;
use tests_support::checks::Checks;
use tower_latch::Core;
use tower_limit::limit::concurrency::{LineCore, LineReply, LineStep};

#[test]
fn line_of_one_permit(rt: HostRuntime) -> Result<(), Fail> {
    let mut line = LineCore::new(rt.alloc(), 1);
    for (step, reply) in [
        (LineStep::Release, LineReply::Unknown),
        (LineStep::Join, LineReply::Granted),
        (LineStep::Join, LineReply::Waiting(0)),
        (LineStep::Look(0), LineReply::Waiting(0)),
        (LineStep::Release, LineReply::Left),
        (LineStep::Free, LineReply::Count(0)),
        (LineStep::Look(0), LineReply::Granted),
        (LineStep::Release, LineReply::Left),
        (LineStep::Free, LineReply::Count(1)),
        (LineStep::Look(0), LineReply::Unknown),
        (LineStep::Cancel(0), LineReply::Unknown),
    ] {
        assert_eq!(rt; line.step(step).0, reply, "at {step:?}");
    }
    Ok(())
}

// A line that answers `Memory` from some key on would be noticed here. Who waited longest leaves last.
#[test]
fn ten_thousand_wait_and_leave(rt: HostRuntime) -> Result<(), Fail> {
    let checks = Checks::new(rt.alloc());
    let mut line = LineCore::new(rt.alloc(), 0);
    for key in 0..10_000u64 {
        checks.same(&line.step(LineStep::Join).0, &LineReply::Waiting(key));
    }
    for later in 0..10_000u64 {
        let last = LineStep::Cancel(9_999 - later);
        checks.same(&line.step(last).0, &LineReply::Left);
    }
    checks.same(&line.step(LineStep::Free).0, &LineReply::Count(0));
    checks.same(&line.step(LineStep::Look(0)).0, &LineReply::Unknown);
    checks.verdict()
}
