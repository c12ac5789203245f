//! The slot of a spawned task behind a logged latch, from threads.
ghost use Rattle.std.specs.Prelude.{◌≡◌, Some};
ghost use Rattle.tower_pool.specs.declared.spawn_ready.slot_core.Slot.{Slot as SlotCase};

use crate::fixtures::{LOOKS, rest};
use crate::run::{Run, ended, last_apart};
use futures::future::{Ready, ready};
use futures::task::{Context, Poll};
use std::alloc::{AllocError, Global};
use std::marker::Brand;
use std::process::Abort;
use std::sync::Wait;
use std::sync::ledger::Blank;
use std::test::Fail;
use std::thread;
use std::thread::Threads;
use std::time::Clock;
use tower_base::service::Service;
use tower_latch::{Log, LogTable, Logged, Pass};
use tower_pool::spawn_ready::{SlotCore, SlotReply, SlotStep};

// So many threads put services there, and so many look for them.
const SIDES: u64 = 4;

// So many services for each thread.
const ROUNDS: u64 = 250;

// A service with a number.
#[derive(Clone, Copy, Debug, PartialEq, Eq)]
struct Numbered {
    number: u64,
}

impl Service<u8> for Numbered {
    type Response = u8;

    type Error = u8;

    type Future = Ready<Result<u8, u8>>;

    ghost readies = { λ _ _ _. tt };

    fn poll_ready(&mut self, _cx: &mut Context<'_>) -> Poll<Result<(), u8>> {
        Poll::Ready(Ok(()))
    }

    fn call(&mut self, request: u8) -> Ready<Result<u8, u8>> {
        ready(Ok(request))
    }
}

type Slot = SlotCore<Numbered, u8>;

type Step = SlotStep<Numbered, u8>;

type Reply = SlotReply<Numbered, u8>;

// Starts the slot and looks for a service, again and again. Whether one came.
fn look<K: Log<Slot>, R: Clock + Wait + Drop>(
    rt: &R,
    log: &Logged<Slot, K, R>,
    pass: &mut Pass<Slot, K>,
) -> Result<bool, AllocError> {
    for _ in 0..LOOKS {
        log.step(pass, SlotStep::Start)?;
        if let SlotReply::Service(_) = log.step(pass, SlotStep::Look)?.reply {
            return Ok(true);
        }
        rest(rt);
    }
    Ok(false)
}

// Puts the service there once the slot runs. Whether it did.
fn post<K: Log<Slot>, R: Clock + Wait + Drop>(
    rt: &R,
    log: &Logged<Slot, K, R>,
    pass: &mut Pass<Slot, K>,
    number: u64,
) -> Result<bool, AllocError> {
    for _ in 0..LOOKS {
        let step = SlotStep::Put(Numbered { number });
        if log.step(pass, step)?.reply == SlotReply::Done {
            return Ok(true);
        }
        rest(rt);
    }
    Ok(false)
}

// The threads of the first numbers put services there, the others look for them. One that gives up ends.
fn side<K: Log<Slot>, R: Clock + Wait + Drop>(
    rt: &R,
    log: &Logged<Slot, K, R>,
    thread: u64,
    mut pass: Pass<Slot, K>,
) -> Result<Pass<Slot, K>, AllocError> {
    let first = thread.saturating_mul(ROUNDS);
    for number in first..first.saturating_add(ROUNDS) {
        let is_done = if thread < SIDES {
            post(rt, log, &mut pass, number)?
        } else {
            look(rt, log, &mut pass)?
        };
        if !is_done {
            return Ok(pass);
        }
    }
    Ok(pass)
}

// The plain slot: whether it runs, and the service that it holds.
#[derive(Drop)]
struct PlainSlot {
    runs: bool,
    holds: Option<Numbered>,
}

impl PlainSlot {
    // Makes the step, and works its reply out.
    fn reply(&mut self, step: Step) -> Reply {
        match step {
            SlotStep::Start if !self.runs && self.holds.is_none() => {
                self.runs = true;
                SlotReply::Done
            }
            SlotStep::Put(service) if self.runs => {
                self.runs = false;
                self.holds = Some(service);
                SlotReply::Done
            }
            SlotStep::Look if self.runs => SlotReply::Waiting,
            SlotStep::Look => match self.holds.take() {
                Some(service) => SlotReply::Service(service),
                None => SlotReply::Unknown,
            },
            _ => SlotReply::Unknown,
        }
    }
}

// The numbers of the services that came back, in their order.
fn replay(alloc: Global, entries: &[(Step, Reply)]) -> Result<Vec<u64>, Fail> {
    let mut plain = PlainSlot {
        runs: false,
        holds: None,
    };
    let mut came = Vec::new(alloc);
    for (step, reply) in entries {
        if plain.reply(*step) != *reply {
            return Err("the plain slot has another reply".into());
        }
        if let SlotReply::Service(service) = *reply {
            came.push(service.number)?;
        }
    }
    Ok(came)
}

// Of each thread all came back, in its own order.
fn each_in_order(came: &[u64]) -> Result<(), Fail> {
    for thread in 0..SIDES {
        let first = thread.saturating_mul(ROUNDS);
        let end = first.saturating_add(ROUNDS);
        let mut next = first;
        for number in came
            .iter()
            .filter(|number| first <= **number && **number < end)
        {
            if *number != next {
                return Err("a service came back twice, or out of its order".into());
            }
            next = next.saturating_add(1);
        }
        if next != end {
            return Err("a service didn't come back".into());
        }
    }
    Ok(())
}

fn one_slot<K: Log<Slot> + Send + Sync, R: Threads + Clock + Wait + Abort + Copy + Send + Sync>(
    rt: R,
    alloc: Global,
    blank: Blank,
    table: LogTable<Step, Reply>,
    slot: Slot,
) -> Result<Run<Step, Reply>, Fail>
    requires name { blank.name ≡ K.name }
    requires parts { (blank.parts ≡ K.parts) × (blank.parts ≡ 9) }
    requires opening { K.opening ≡ Some slot }
    requires opens { slot ≡ SlotCase.Idle }
    requires table { table ≡ K.table }
{
    let (log, passes) = Logged::<Slot, K, R>::open(rt, alloc, blank, table, slot, 9)?;
    let (last, passes) = last_apart(alloc, passes)?;
    let shared = &log;
    let answers = thread::map_vec(
        &rt,
        passes,
        &|(thread, pass)| side(&rt, shared, thread, pass),
    )?;
    ended(alloc, log, answers, last, None)
}

#[test]
fn eight_threads_one_slot(rt: HostRuntime) -> Result<(), Fail> {
    let alloc = rt.alloc();
    let table = LogTable::new(alloc)?;
    let run = one_slot::<Brand, _>(rt, alloc, Blank::new(9), table, Slot::new())?;
    each_in_order(replay(alloc, run.history.entries())?.as_slice())
}
