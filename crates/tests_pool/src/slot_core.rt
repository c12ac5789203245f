//! `tower::spawn_ready::SlotCore` by hand: services and errors are numbers.

use std::test::Fail;
use tests_support::checks::Checks;
use tower_latch::Core;
use tower_pool::spawn_ready::{SlotCore, SlotReply, SlotStep};

type Slot = SlotCore<u8, u8>;

type Step = SlotStep<u8, u8>;

type Reply = SlotReply<u8, u8>;

// What each step answers, one after another, from a slot without a task.
fn answers(steps: &[(Step, Reply)]) -> bool {
    let mut slot = Slot::new();
    for (step, reply) in steps {
        if slot.step(*step).0 != *reply {
            return false;
        }
    }
    true
}

#[test]
fn slot_follows_its_table(rt: HostRuntime) -> Result<(), Fail> {
    let checks = Checks::new(rt.alloc());
    // A service comes and goes, twice.
    checks.holds(answers(&[
        (Step::Look, Reply::Unknown),
        (Step::Put(1), Reply::Unknown),
        (Step::PutError(1), Reply::Unknown),
        (Step::TaskGone, Reply::Done),
        (Step::Aborted, Reply::Truth(false)),
        (Step::Start, Reply::Done),
        (Step::Start, Reply::Unknown),
        (Step::Look, Reply::Waiting),
        (Step::Aborted, Reply::Truth(false)),
        (Step::Put(1), Reply::Done),
        (Step::TaskGone, Reply::Done),
        (Step::Put(2), Reply::Unknown),
        (Step::PutError(2), Reply::Unknown),
        (Step::Start, Reply::Unknown),
        (Step::Aborted, Reply::Truth(false)),
        (Step::Look, Reply::Service(1)),
        (Step::Look, Reply::Unknown),
        (Step::Start, Reply::Done),
        (Step::Put(3), Reply::Done),
        (Step::Look, Reply::Service(3)),
    ]));
    // An error is told once.
    checks.holds(answers(&[
        (Step::Start, Reply::Done),
        (Step::PutError(7), Reply::Done),
        (Step::Put(1), Reply::Unknown),
        (Step::TaskGone, Reply::Done),
        (Step::Start, Reply::Unknown),
        (Step::Look, Reply::Error(7)),
        (Step::Look, Reply::Lost),
        (Step::Look, Reply::Lost),
        (Step::Start, Reply::Unknown),
    ]));
    // A task goes.
    checks.holds(answers(&[
        (Step::Start, Reply::Done),
        (Step::TaskGone, Reply::Done),
        (Step::Put(1), Reply::Unknown),
        (Step::Look, Reply::Lost),
        (Step::TaskGone, Reply::Done),
        (Step::Abort, Reply::Done),
        (Step::Look, Reply::Unknown),
    ]));
    checks.verdict()
}

#[test]
fn aborted_slot_stays_so(rt: HostRuntime) -> Result<(), Fail> {
    let checks = Checks::new(rt.alloc());
    for before in [
        &[][..],
        &[Step::Start],
        &[Step::Start, Step::Put(1)],
        &[Step::Start, Step::PutError(1)],
        &[Step::Start, Step::TaskGone],
    ] {
        let mut slot = Slot::new();
        for step in before {
            checks.holds(slot.step(*step).0 == Reply::Done);
        }
        for (step, reply) in [
            (Step::Abort, Reply::Done),
            (Step::Aborted, Reply::Truth(true)),
            (Step::Put(5), Reply::Back(5)),
            (Step::PutError(6), Reply::Done),
            (Step::TaskGone, Reply::Done),
            (Step::Start, Reply::Unknown),
            (Step::Look, Reply::Unknown),
            (Step::Abort, Reply::Done),
            (Step::Aborted, Reply::Truth(true)),
            (Step::Put(5), Reply::Back(5)),
        ] {
            checks.holds(slot.step(step).0 == reply);
        }
    }
    checks.verdict()
}
