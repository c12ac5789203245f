//! The mail of a buffer behind a logged latch, from threads.
ghost use Rattle.std.specs.Prelude.{◌≡◌, Some};
ghost use Rattle.tower_buffer.specs.Mailbox.{Opens};

use crate::fixtures::{LOOKS, rest};
use crate::plain_mail::{PlainMail, Reply, Step};
use crate::run::{Run, Served, ended, last_apart, one_pass_is_missing, two_passes_run};
use std::alloc::{AllocError, Global};
use std::marker::Brand;
use std::process::Abort;
use std::sync::Wait;
use std::sync::ledger::Blank;
use std::test::Fail;
use std::thread;
use std::thread::Threads;
use std::time::Clock;
use tower_buffer::buffer::{MailCore, MailReply, MailStep};
use tower_latch::{Log, LogTable, Logged, Pass};

type Mail = MailCore<u64, u64, u64>;

const SENDERS: u64 = 4;

const SENDS: u64 = 250;

// What is sent by the sender of number n begins at n times this, and a future is its request and this.
const STRIDE: u64 = 1000;

// What is sent by all senders.
const ALL: u64 = SENDERS * SENDS;

// Two ask for one place, of which the second answers the message of the first. The first key and the first id are 0.
const SEVEN_STEPS: [Served<Step, Reply>; 7] = [
    (0, MailStep::Reserve, MailReply::Place),
    (1, MailStep::Reserve, MailReply::Waiting(0)),
    (0, MailStep::Send(7), MailReply::Sent(0)),
    (1, MailStep::Take, MailReply::Message(0, 7)),
    (1, MailStep::Look(0), MailReply::Place),
    (1, MailStep::Answer(0, 14), MailReply::Done),
    (0, MailStep::Outcome(0), MailReply::Future(14)),
];

// By the plain mail so many places are free, and no message is left.
fn left_free(alloc: Global, bound: usize, run: &Run<Step, Reply>, free: usize) -> Result<(), Fail> {
    let mail = PlainMail::replay(alloc, bound, run.history.entries())?;
    if mail.free() != free || !mail.is_empty() {
        return Err("a place is held, or a message is left".into());
    }
    Ok(())
}

#[test]
fn seven_steps_of_two_passes(rt: HostRuntime) -> Result<(), Fail> {
    let alloc = rt.alloc();
    let table = LogTable::new(alloc)?;
    let mail = MailCore::new(alloc, 1);
    let blank = Blank::new(2);
    let run = two_passes_run::<Mail, Brand, _>(rt, alloc, blank, table, mail, &SEVEN_STEPS[..])?;
    left_free(alloc, 1, &run, 0)
}

#[test]
fn a_pass_is_missing(rt: HostRuntime) -> Result<(), Fail> {
    let alloc = rt.alloc();
    let table = LogTable::new(alloc)?;
    let mail = MailCore::new(alloc, 1);
    let blank = Blank::new(2);
    one_pass_is_missing::<Mail, Brand, _>(rt, alloc, blank, table, mail, &SEVEN_STEPS[..])
}

// Waits for a place. The last reply.
fn reserve<K: Log<Mail>, R: Clock + Wait + Drop>(
    rt: &R,
    log: &Logged<Mail, K, R>,
    pass: &mut Pass<Mail, K>,
) -> Result<Reply, AllocError> {
    let mut reply = log.step(pass, MailStep::Reserve)?.reply;
    for _ in 0..LOOKS {
        let MailReply::Waiting(key) = reply else {
            break;
        };
        rest(rt);
        reply = log.step(pass, MailStep::Look(key))?.reply;
    }
    Ok(reply)
}

// Waits for the outcome of this message.
fn outcome<K: Log<Mail>, R: Clock + Wait + Drop>(
    rt: &R,
    log: &Logged<Mail, K, R>,
    pass: &mut Pass<Mail, K>,
    id: u64,
) -> Result<(), AllocError> {
    for _ in 0..LOOKS {
        match log.step(pass, MailStep::Outcome(id))?.reply {
            MailReply::Waiting(_) => rest(rt),
            _ => break,
        }
    }
    Ok(())
}

// Sends all its numbers, and then asks for the outcomes in the same order.
fn send_all<K: Log<Mail>, R: Clock + Wait + Drop>(
    rt: &R,
    log: &Logged<Mail, K, R>,
    alloc: Global,
    mut pass: Pass<Mail, K>,
    first: u64,
) -> Result<Pass<Mail, K>, AllocError> {
    let mut ids = Vec::new(alloc);
    for number in first..first.saturating_add(SENDS) {
        let MailReply::Place = reserve(rt, log, &mut pass)? else {
            return Ok(pass);
        };
        if let MailReply::Sent(id) = log.step(&mut pass, MailStep::Send(number))?.reply {
            ids.push(id)?;
        }
    }
    for id in &ids {
        outcome(rt, log, &mut pass, *id)?;
    }
    Ok(pass)
}

// Takes and answers all that is sent, or gives up after so many looks.
fn answer_all<K: Log<Mail>, R: Clock + Wait + Drop>(
    rt: &R,
    log: &Logged<Mail, K, R>,
    mut pass: Pass<Mail, K>,
) -> Result<Pass<Mail, K>, AllocError> {
    let mut taken = 0u64;
    for _ in 0..LOOKS {
        if taken == ALL {
            break;
        }
        match log.step(&mut pass, MailStep::Take)?.reply {
            MailReply::Message(id, request) => {
                log.step(
                    &mut pass,
                    MailStep::Answer(id, request.saturating_add(STRIDE)),
                )?;
                taken = taken.saturating_add(1);
            }
            _ => rest(rt),
        }
    }
    Ok(pass)
}

// The sender of number 0 is the one that takes.
fn part<K: Log<Mail>, R: Clock + Wait + Drop>(
    rt: &R,
    log: &Logged<Mail, K, R>,
    alloc: Global,
    number: u64,
    pass: Pass<Mail, K>,
) -> Result<Pass<Mail, K>, AllocError> {
    if number == 0 {
        return answer_all(rt, log, pass);
    }
    send_all(rt, log, alloc, pass, number.saturating_mul(STRIDE))
}

// The numbers that were taken of each sender come in its own order, all of them.
fn each_in_order(entries: &[(Step, Reply)]) -> Result<(), Fail> {
    for sender in 1..SENDERS + 1 {
        let first = sender.saturating_mul(STRIDE);
        let mut next = first;
        for (_, reply) in entries {
            let MailReply::Message(_, request) = *reply else {
                continue;
            };
            if request / STRIDE == sender {
                if request != next {
                    return Err("a number is taken out of order".into());
                }
                next = next.saturating_add(1);
            }
        }
        if next != first.saturating_add(SENDS) {
            return Err("a number isn't taken".into());
        }
    }
    Ok(())
}

// The futures that a sender was told are those of all its numbers, in its own order.
fn each_answered(receipts: &[(usize, Step, Reply)], first: u64) -> Result<(), Fail> {
    let mut next = first.saturating_add(STRIDE);
    for (_, _, reply) in receipts {
        let MailReply::Future(future) = *reply else {
            continue;
        };
        if future != next {
            return Err("another number is answered".into());
        }
        next = next.saturating_add(1);
    }
    if next != first.saturating_add(STRIDE).saturating_add(SENDS) {
        return Err("a number isn't answered".into());
    }
    Ok(())
}

fn each_sender(told: &[Vec<(usize, Step, Reply)>]) -> Result<(), Fail> {
    for sender in 1..SENDERS + 1 {
        let receipts = told.get(sender as usize).ok_or("a sender")?;
        each_answered(receipts, sender.saturating_mul(STRIDE))?;
    }
    Ok(())
}

fn four_senders<K: Log<Mail> + Send + Sync, R: Threads + Clock + Wait + Abort + Copy + Send + Sync>(
    rt: R,
    alloc: Global,
    blank: Blank,
    table: LogTable<Step, Reply>,
    mail: Mail,
) -> Result<Run<Step, Reply>, Fail>
    requires name { blank.name ≡ K.name }
    requires parts { (blank.parts ≡ K.parts) × (blank.parts ≡ 6) }
    requires opening { K.opening ≡ Some mail }
    requires opens { Opens mail }
    requires table { table ≡ K.table }
{
    let (log, passes) = Logged::<Mail, K, R>::open(rt, alloc, blank, table, mail, 6)?;
    let (last, passes) = last_apart(alloc, passes)?;
    let shared = &log;
    let answers = thread::map_vec(
        &rt,
        passes,
        &|(number, pass)| part(&rt, shared, alloc, number, pass),
    )?;
    ended(alloc, log, answers, last, None)
}

#[test]
fn four_senders_and_one_that_answers(rt: HostRuntime) -> Result<(), Fail> {
    let alloc = rt.alloc();
    let table = LogTable::new(alloc)?;
    let run = four_senders::<Brand, _>(rt, alloc, Blank::new(6), table, MailCore::new(alloc, 2))?;
    each_in_order(run.history.entries())?;
    each_sender(&run.told)?;
    left_free(alloc, 2, &run, 2)
}
