//! An event loop without a clock of the machine.
ghost use Rattle.std.specs.Prelude.{◌≡◌, IfOk};
ghost use Rattle.futures.specs.Runs.{AllItems};

use crate::clock::PausedClock;
use crate::error::PausedError;
use crate::jumps::{Jumps, Shown};
use futures::executor::EventLoop;
use futures::future::Future;
use futures::stream::Stream;
use futures::task::Doorbell;
use std::alloc::{AllocError, AllocGlobal};
use std::io;
use std::random::RandomSource;
use std::sync::{Arc, Wait};
use tower_spawn::Spawner;

/// An event loop on the calling thread, for tests. Its time stands still while a task can go on. Once all
/// wait, it jumps to the next deadline, without a sleep. So the same program does the same each time, and a
/// run takes no longer than its polls. It is what a runtime of tokio is with `start_paused`.
///
/// If no task can go on and none waits for a moment, a run returns an error, which says so. Such tasks could be
/// woken by another thread alone.
#[derive(Drop)]
pub struct PausedLoop {
    event_loop: EventLoop,
    jumps: Jumps,
}

impl PausedLoop {
    /// Creates a loop at moment 0. Returns an error if there is no memory or no random number.
    pub fn new<A: RandomSource + AllocGlobal>(rt: &A) -> Result<PausedLoop, PausedError> {
        let event_loop = EventLoop::new(rt, Doorbell::spinning()).map_err(creation_error)?;
        match shown_of(rt, &event_loop) {
            Ok(shown) => Ok(PausedLoop {
                event_loop,
                jumps: Jumps::new(shown),
            }),
            Err(AllocError) => Err(PausedError::NoMemory),
        }
    }

    /// Returns a clock of the loop. It doesn't allocate.
    pub fn clock(&self) -> PausedClock {
        PausedClock::new(Arc::try_clone(&self.jumps.shown).ok())
    }

    /// Returns the loop's moment, in nanoseconds since it was created.
    pub fn now(&self) -> u64
        ensures { result ≡ self.now.jumps.now }
    {
        self.jumps.now
    }

    /// Polls the future until it is ready, and returns its output. Returns an error if there is no memory, or
    /// the future waits for nothing that comes.
    pub fn block_on<W, B>(&mut self, rt: &W, future: B) -> Result<B::Output, PausedError>
    where
        W: Wait + AllocGlobal,
        B: Future,
        requires { B.can_poll future }
        ensures { IfOk result (B.gives future) }
    {
        match self.event_loop.block_on(rt, &mut self.jumps, future) {
            Ok(output) => Ok(output),
            Err(_) => Err(self.failure(0)),
        }
    }

    /// As `block_on`, and polls the tasks of the spawner too, until no task is left.
    pub fn run_with<W, F, B>(
        &mut self,
        rt: &W,
        future: B,
        spawner: &Spawner<F>,
    ) -> Result<B::Output, PausedError>
    where
        W: Wait + AllocGlobal,
        F: Future<Output = ()>,
        B: Future<Output: Drop>,
        requires { B.can_poll future }
        ensures { IfOk result (B.gives future) }
    {
        let both = spawner.beside(rt.alloc(), future)?;
        match self.event_loop.block_on(rt, &mut self.jumps, both) {
            Ok(output) => Ok(output),
            Err(_) => Err(self.failure(spawner.unfinished())),
        }
    }

    /// Polls each future that the stream yields as a task, until no task is left. Returns an error if
    /// there is no memory, or the tasks that are left wait for nothing that comes.
    pub fn run_all<W, S, F>(&mut self, rt: &W, futures: S) -> Result<(), PausedError>
    where
        W: Wait + AllocGlobal,
        S: Stream<Item = F>,
        F: Future<Output = ()>,
        requires stream { S.can_poll futures }
        requires items { AllItems (S.yields futures) F.can_poll }
    {
        match self.event_loop.run_all(rt, &mut self.jumps, futures, None) {
            Ok(()) => Ok(()),
            Err(_) => Err(self.failure(0)),
        }
    }

    // Why a run failed.
    fn failure(&mut self, tasks: usize) -> PausedError {
        match self.jumps.deadlock.take() {
            Some(clocks) => PausedError::Deadlock {
                moment: self.jumps.now,
                tasks,
                clocks,
            },
            None => PausedError::NoMemory,
        }
    }
}

fn shown_of<A: AllocGlobal>(rt: &A, event_loop: &EventLoop) -> Result<Arc<Shown>, AllocError> {
    let keys = event_loop.keys().clone()?;
    Arc::new(rt.alloc(), Shown::new(rt.alloc(), keys)).map_err(|_| AllocError)
}

fn creation_error(error: io::Error) -> PausedError {
    match error.kind() {
        io::ErrorKind::OutOfMemory => PausedError::NoMemory,
        _ => PausedError::NoRandomness,
    }
}
