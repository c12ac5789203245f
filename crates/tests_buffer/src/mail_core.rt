//! `tower::buffer::MailCore` by hand: requests, futures and errors are numbers.
ghost use Rattle.std.specs.Prelude.{◌<◌};

use std::alloc::{AllocError, Global};
use std::fmt::Write;
use std::test::Fail;
use tests_support::checks::Checks;
use tower_buffer::buffer::{MailCore, MailReply, MailStep};
use tower_latch::Core;

const BOOM: u8 = 66;

type Mail = MailCore<u8, u8, u8>;

type Step = MailStep<u8, u8, u8>;

type Reply = MailReply<u8, u8, u8>;

// A step as its `Debug` writes it, with at most two numbers.
fn step_of(text: &str) -> Option<Step> {
    let (name, numbers) = match text.split_once('(') {
        Some((name, numbers)) => (name, numbers.strip_suffix(')')?),
        None => (text, ""),
    };
    let (first, second) = match numbers.split_once(", ") {
        Some((first, second)) => (first, second),
        None => (numbers, ""),
    };
    match name {
        "Join" => Some(Step::Join),
        "Part" => Some(Step::Part),
        "Reserve" => Some(Step::Reserve),
        "Look" => Some(Step::Look(first.parse().ok()?)),
        "Cancel" => Some(Step::Cancel(first.parse().ok()?)),
        "Unreserve" => Some(Step::Unreserve),
        "Send" => Some(Step::Send(first.parse().ok()?)),
        "Take" => Some(Step::Take),
        "Live" => Some(Step::Live(first.parse().ok()?)),
        "Answer" => Some(Step::Answer(first.parse().ok()?, second.parse().ok()?)),
        "Fail" => Some(Step::Fail(first.parse().ok()?, second.parse().ok()?)),
        "FailStored" => Some(Step::FailStored(first.parse().ok()?)),
        "Outcome" => Some(Step::Outcome(first.parse().ok()?)),
        "Forget" => Some(Step::Forget(first.parse().ok()?)),
        "WorkerGone" => Some(Step::WorkerGone),
        _ => None,
    }
}

// What mail with so many places replies to each step of a script: `Reserve => Place;Send(7) => Sent(0)`.
fn replies(alloc: Global, bound: usize, script: &str) -> Result<String, AllocError>
    requires { 0 < bound }
{
    let mut mail = Mail::new(alloc, bound);
    let mut replies = String::new(alloc);
    for line in script.split(';') {
        let step = match line.split_once(" => ") {
            Some((step, _)) => step,
            None => line,
        };
        if !replies.is_empty() {
            replies.push_str(";")?;
        }
        replies.push_str(step)?;
        match step_of(step) {
            Some(step) => {
                let reply = mail.step(step).0;
                let _ = write!(replies, " => {reply:?}");
            }
            None => replies.push_str(" isn't a step")?,
        }
    }
    Ok(replies)
}

// Each step of the script has the reply beside it.
fn plays(rt: HostRuntime, bound: usize, script: &str) -> Result<(), Fail>
    requires { 0 < bound }
{
    let checks = Checks::new(rt.alloc());
    let replies = replies(rt.alloc(), bound, script)?;
    checks.same(&replies.as_str(), &script);
    checks.verdict()
}

// The younger one still waits, until the older one leaves.
#[test]
fn place_is_reserved_used_and_waited_for(rt: HostRuntime) -> Result<(), Fail> {
    plays(
        rt,
        1,
        "Unreserve => Unknown;Send(9) => Unknown;Reserve => Place;Reserve => Waiting(0);\
         Reserve => Waiting(1);Look(0) => Waiting(0);Send(7) => Sent(0);Look(0) => Waiting(0);\
         Take => Message(0, 7);Look(1) => Waiting(1);Cancel(0) => Done;Look(0) => Unknown;\
         Cancel(0) => Unknown;Look(1) => Place;Look(1) => Unknown;Unreserve => Done;Reserve => Place",
    )
}

// Who comes before the oldest has looked waits too.
// The last key that was freed is given again.
// A wait that is given up hands its place on.
#[test]
fn granted_place_is_its_waiters(rt: HostRuntime) -> Result<(), Fail> {
    plays(
        rt,
        1,
        "Reserve => Place;Reserve => Waiting(0);Reserve => Waiting(1);Unreserve => Done;\
         Reserve => Waiting(2);Look(1) => Waiting(1);Cancel(1) => Done;Look(0) => Place;\
         Reserve => Waiting(0);Unreserve => Done;Look(0) => Waiting(0);Look(2) => Place;\
         Reserve => Waiting(2);Unreserve => Done;Cancel(0) => Done;Look(2) => Place",
    )
}

#[test]
fn failure_of_a_forgotten_message_is_stored(rt: HostRuntime) -> Result<(), Fail> {
    plays(
        rt,
        1,
        "Reserve => Place;Send(7) => Sent(0);Take => Message(0, 7);Forget(0) => Done;Fail(0, 66) => Done;\
         Reserve => Failed(66);Look(5) => Failed(66);Cancel(5) => Done;Take => End",
    )
}

// One that is taken and forgotten gives its future back, and then is known no more.
#[test]
fn answers_come_in_any_order_and_once(rt: HostRuntime) -> Result<(), Fail> {
    plays(
        rt,
        3,
        "Reserve => Place;Send(10) => Sent(0);Reserve => Place;Send(11) => Sent(1);Reserve => Place;\
         Send(12) => Sent(2);Answer(0, 50) => Unknown;Live(0) => Unknown;Take => Message(0, 10);\
         Take => Message(1, 11);Outcome(1) => Waiting(1);Live(1) => Truth(true);Answer(1, 51) => Done;\
         Answer(1, 52) => Unknown;Live(1) => Unknown;Outcome(1) => Future(51);Outcome(1) => Unknown;\
         Forget(1) => Unknown;Forget(0) => Done;Outcome(0) => Unknown;Answer(0, 53) => Back(53);\
         Answer(0, 54) => Unknown;Take => Message(2, 12);Forget(2) => Done;Live(2) => Truth(false);\
         Live(2) => Unknown;Take => Empty",
    )
}

// A reserved place may still be used, so the mail isn't over.
#[test]
fn forgotten_messages_keep_their_places_until_a_take(rt: HostRuntime) -> Result<(), Fail> {
    plays(
        rt,
        2,
        "Reserve => Place;Send(1) => Sent(0);Reserve => Place;Send(2) => Sent(1);Reserve => Waiting(0);\
         Forget(0) => Done;Look(0) => Waiting(0);Forget(1) => Done;Take => Cleared;Look(0) => Place;\
         Take => Empty;Part => Done;Part => Unknown;Take => Empty;Unreserve => Done;Take => End;\
         Join => Done;Take => Empty",
    )
}

// A place that was reserved is used still, under the id that is free again.
#[test]
fn first_error_reaches_all_that_come_later(rt: HostRuntime) -> Result<(), Fail> {
    plays(
        rt,
        3,
        "Reserve => Place;Send(1) => Sent(0);Reserve => Place;Send(2) => Sent(1);Reserve => Place;\
         Reserve => Waiting(0);Take => Message(0, 1);FailStored(0) => Unknown;Fail(1, 66) => Unknown;\
         Fail(0, 66) => Done;Look(0) => Failed(66);Outcome(0) => Failed(66);Outcome(0) => Unknown;\
         Send(3) => Sent(0);Take => Message(1, 2);FailStored(1) => Done;Forget(1) => Done;\
         Outcome(1) => Unknown;Take => Message(0, 3);Fail(0, 67) => Done;Outcome(0) => Failed(66);\
         Take => End",
    )
}

// It outlives the failure and the worker.
#[test]
fn send_into_a_reserved_place_answers_the_failure(rt: HostRuntime) -> Result<(), Fail> {
    plays(
        rt,
        2,
        "Reserve => Place;Send(1) => Sent(0);Reserve => Place;Take => Message(0, 1);Fail(0, 66) => Done;\
         WorkerGone => Done;Send(2) => Failed(66);Send(2) => Unknown",
    )
}

#[test]
fn messages_are_lost_with_the_worker(rt: HostRuntime) -> Result<(), Fail> {
    plays(
        rt,
        5,
        "Reserve => Place;Send(1) => Sent(0);Reserve => Place;Send(2) => Sent(1);Reserve => Place;\
         Send(3) => Sent(2);Reserve => Place;Send(4) => Sent(3);Reserve => Place;Take => Message(0, 1);\
         Answer(0, 80) => Done;Take => Message(1, 2);Forget(3) => Done;WorkerGone => Done;\
         Outcome(0) => Future(80);Outcome(1) => Lost;Outcome(2) => Lost;Outcome(2) => Unknown;\
         Outcome(3) => Unknown;Reserve => Closed;Send(9) => Closed;Send(9) => Unknown",
    )
}

// Mail that answers `Memory` from some key on would be noticed here. Who waited longest leaves last.
#[test]
fn ten_thousand_wait_and_leave(rt: HostRuntime) -> Result<(), Fail> {
    let checks = Checks::new(rt.alloc());
    let mut mail = Mail::new(rt.alloc(), 1);
    checks.same(&mail.step(Step::Reserve).0, &Reply::Place);
    for key in 0..10_000u64 {
        checks.same(&mail.step(Step::Reserve).0, &Reply::Waiting(key));
    }
    for later in 0..10_000u64 {
        checks.same(&mail.step(Step::Cancel(9_999 - later)).0, &Reply::Done);
    }
    checks.same(&mail.step(Step::Look(0)).0, &Reply::Unknown);
    checks.same(&mail.step(Step::Unreserve).0, &Reply::Done);
    checks.same(&mail.step(Step::Reserve).0, &Reply::Place);
    checks.verdict()
}

// Each is found by its id, however many are stored, and one `Take` clears them all.
#[test]
fn ten_thousand_are_sent_and_forgotten(rt: HostRuntime) -> Result<(), Fail> {
    let checks = Checks::new(rt.alloc());
    let mut mail = Mail::new(rt.alloc(), 10_000);
    for id in 0..10_000u64 {
        checks.same(&mail.step(Step::Reserve).0, &Reply::Place);
        checks.same(&mail.step(Step::Send(7)).0, &Reply::Sent(id));
    }
    for later in 0..10_000u64 {
        checks.same(&mail.step(Step::Forget(9_999 - later)).0, &Reply::Done);
    }
    checks.same(&mail.step(Step::Take).0, &Reply::Cleared);
    checks.same(&mail.step(Step::Take).0, &Reply::Empty);
    checks.same(&mail.step(Step::Reserve).0, &Reply::Place);
    checks.verdict()
}
