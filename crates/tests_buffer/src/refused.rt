//! Refused memory: mail whose slab of waiters can't grow.
ghost use Rattle.std.specs.Prelude.{◌<◌};

use std::alloc::Global;
use std::test::Fail;
use tower_buffer::buffer::{MailCore, MailReply, MailStep};
use tower_latch::Core;

type Step = MailStep<u8, u8, u8>;

// Whether a reply is that of the nth one who asks for a place, where there is one place.
fn is_nth(reply: &MailReply<u8, u8, u8>, nth: u64) -> bool {
    match reply {
        MailReply::Place => nth == 0,
        MailReply::Waiting(key) => key.checked_add(1) == Some(nth),
        _ => false,
    }
}

// Nine ask for mail's one place. A refused one neither has it nor waits, and all others are as before.
fn nine_ask(mut mail: MailCore<u8, u8, u8>, again: bool) -> Result<(), Fail> {
    for nth in 0..9u64 {
        let mut reply = mail.step(Step::Reserve).0;
        if again && matches!(reply, MailReply::Memory) {
            if nth == 0 && !matches!(mail.step(Step::Unreserve).0, MailReply::Unknown) {
                return Err("a refused one has a place".into());
            }
            for key in 0..nth {
                let is_known = matches!(mail.step(Step::Look(key)).0, MailReply::Waiting(_));
                if is_known != (key + 1 < nth) {
                    return Err("who waits isn't as before".into());
                }
            }
            reply = mail.step(Step::Reserve).0;
        }
        if !is_nth(&reply, nth) {
            return Err("neither a place nor waiting".into());
        }
    }
    Ok(())
}

fn mail(alloc: Global, bound: usize) -> MailCore<u8, u8, u8>
    requires { 0 < bound }
{
    MailCore::new(alloc, bound)
}

#[test]
fn refused_place_leaves_the_mail(rt: HostRuntime) -> Result<(), Fail> {
    nine_ask(mail(rt.alloc(), 1), true)
}

#[test]
fn ample_places(rt: HostRuntime) -> Result<(), Fail> {
    nine_ask(mail(rt.alloc(), 1), false)
}
