//! Rounds of the line of permits itself.

use futures::task::{Context, Doorbell, Poll, Solo};
use std::alloc::{AllocError, AllocGlobal, Global};
use std::random::RandomSource;
use std::sync::Wait;
use tower::latch::{Core, Guarded};
use tower::limit::concurrency::{LineCore, LineReply, LineStep, Permit, PollSemaphore, Semaphore};

/// What a round asks of a line of no permits.
#[derive(Clone, Copy)]
pub enum Line {
    /// Looks for the permit of the youngest waiter.
    Look,
    /// One joins, and leaves again.
    JoinCancel,
    /// The oldest leaves, and one joins.
    CancelOldest,
}

impl Line {
    /// The rounds of this name, and how many wait.
    pub fn named(name: &str) -> Option<(Line, u64)> {
        let (line, number) = if let Some(number) = name.strip_prefix("line_look_") {
            (Line::Look, number)
        } else if let Some(number) = name.strip_prefix("line_join_cancel_") {
            (Line::JoinCancel, number)
        } else {
            (
                Line::CancelOldest,
                name.strip_prefix("line_cancel_oldest_")?,
            )
        };
        match number.parse() {
            Ok(waiters) => Some((line, waiters)),
            Err(_) => None,
        }
    }

    /// So many rounds beside so many waiters: the sum of the numbers in the replies.
    pub fn sum(self, alloc: Global, waiters: u64, count: u64) -> Result<u64, AllocError> {
        let mut core = LineCore::new(alloc, 0);
        for _ in 0..waiters {
            if core.step(LineStep::Join).0 == LineReply::Memory {
                return Err(AllocError);
            }
        }
        let mut sum = 0u64;
        for number in 0..count {
            sum = sum.wrapping_add(self.round(&mut core, waiters, number));
        }
        Ok(sum)
    }

    // One round. The waiters' keys are counted from 0 on, and who joins gets the key that was left last.
    fn round(self, core: &mut LineCore, waiters: u64, number: u64) -> u64 {
        match self {
            Line::Look => number_of(core.step(LineStep::Look(waiters.wrapping_sub(1))).0),
            Line::JoinCancel => {
                let key = number_of(core.step(LineStep::Join).0);
                key.wrapping_add(number_of(core.step(LineStep::Cancel(key)).0))
            }
            Line::CancelOldest => {
                let oldest = number.checked_rem(waiters).unwrap_or(0);
                let left = number_of(core.step(LineStep::Cancel(oldest)).0);
                left.wrapping_add(number_of(core.step(LineStep::Join).0))
            }
        }
    }
}

// What tells one reply from another.
fn number_of(reply: LineReply) -> u64 {
    match reply {
        LineReply::Waiting(key) => key,
        LineReply::Count(free) => free as u64,
        LineReply::Left => 1,
        LineReply::Granted | LineReply::Unknown | LineReply::Memory => 0,
    }
}

/// So many times a permit of a semaphore of one is taken and given back. It answers the sum of the rounds in which it was there.
pub fn take_give<R: Wait + AllocGlobal + Copy>(
    rt: R,
    cx: &mut Context<'_>,
    count: u64,
) -> Result<u64, AllocError> {
    let mut asking = PollSemaphore::new(Semaphore::new(rt, rt.alloc(), 1)?);
    let mut sum = 0u64;
    for number in 0..count {
        if let Poll::Ready(Ok(permit)) = asking.poll_acquire(cx) {
            drop(permit);
            sum = sum.wrapping_add(number);
        }
    }
    Ok(sum)
}

/// Asks for a permit, as a task of its own.
#[derive(Drop)]
struct Asker<R: Wait + Copy> {
    asking: PollSemaphore<Guarded<LineCore, R>>,
    task: Solo,
}

impl<R: Wait + RandomSource + AllocGlobal + Copy> Asker<R> {
    fn new(rt: R, semaphore: Semaphore<Guarded<LineCore, R>>) -> Result<Asker<R>, AllocError> {
        match Solo::new(&rt, Doorbell::spinning()) {
            Ok(task) => Ok(Asker {
                asking: PollSemaphore::new(semaphore),
                task,
            }),
            Err(_) => Err(AllocError),
        }
    }

    // Polls once.
    fn ask(&mut self) -> Option<Permit<Guarded<LineCore, R>>> {
        let mut cx = self.task.begin();
        let polled = self.asking.poll_acquire(&mut cx);
        cx.cancel();
        match polled {
            Poll::Ready(Ok(permit)) => Some(permit),
            _ => None,
        }
    }
}

/// So many tasks wait for the permit of a semaphore of one. In a round the holder gives it back, which
/// wakes the next task; that one takes it, and the giver waits behind all others. Returns the sum of the
/// rounds in which the next one had it.
pub fn contended<R: Wait + RandomSource + AllocGlobal + Copy>(
    rt: R,
    waiters: usize,
    count: u64,
) -> Result<u64, AllocError> {
    let semaphore = Semaphore::new(rt, rt.alloc(), 1)?;
    let mut askers = Vec::new(rt.alloc());
    for _ in 0..waiters {
        askers
            .push(Asker::new(rt, semaphore.share()?)?)
            .map_err(|_| AllocError)?;
    }
    askers
        .push(Asker::new(rt, semaphore)?)
        .map_err(|_| AllocError)?;
    let mut held = None;
    for asker in askers.iter_mut() {
        if let Some(permit) = asker.ask() {
            held = Some(permit);
        }
    }
    let (mut sum, mut at) = (0u64, 0usize);
    for number in 0..count {
        held = None;
        let giver = at;
        at = if at < waiters { at + 1 } else { 0 };
        if let Some(next) = askers.get_mut(at) {
            held = next.ask();
        }
        if held.is_some() {
            sum = sum.wrapping_add(number);
        }
        if let Some(giver) = askers.get_mut(giver) {
            drop(giver.ask());
        }
    }
    drop(held);
    Ok(sum)
}
