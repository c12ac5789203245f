//! The channel through which tasks reach what runs them.
ghost use Rattle.std.specs.Prelude.{◌≡◌, IfErr, IfOk, IfSome};
ghost use Rattle.futures.specs.Channel.{unbounded_readable_source};
ghost use Rattle.tower_spawn.specs.Beside.{CanRun, RunGives};

use crate::beside::Beside;
use crate::fresh::Fresh;
use futures::channel::mpsc::{UnboundedReceiver, UnboundedSender, unbounded};
use futures::future::Future;
use futures::spin::lock;
use futures::stream::Stream;
use futures::task::{Context, Poll};
use std::alloc::{AllocError, Global};
use std::io;
use std::sync::atomic::{AtomicUsize, Ordering};
use std::sync::{Arc, Mutex};
use tower_base::service::Executor;

/// Why `Spawner::beside` failed.
#[derive(Clone, Copy, Debug, PartialEq, Eq, thiserror::Error)]
pub enum BesideError {
    /// There was no memory.
    #[error("out of memory")]
    Memory,
    /// Someone else has the stream of the tasks.
    #[error("the tasks are run elsewhere")]
    Elsewhere,
}

impl From<AllocError> for BesideError {
    fn from(_error: AllocError) -> BesideError {
        BesideError::Memory
    }
}

impl From<BesideError> for io::Error {
    fn from(error: BesideError) -> io::Error {
        match error {
            BesideError::Memory => io::Error::from(io::ErrorKind::OutOfMemory),
            BesideError::Elsewhere => io::Error::other("the tasks are run elsewhere"),
        }
    }
}

/// An executor whose tasks reach a loop through a stream: `Spawned`. It takes the place of the handle of
/// a runtime of tokio (`tokio::runtime::Handle`). Its clones hand tasks to the same stream.
///
/// A spawn never waits. It returns the task if there is no memory. A task that is never run is dropped
/// with the last clone, unless the task itself holds a clone.
#[derive(Drop)]
pub struct Spawner<F: Future> {
    sender: UnboundedSender<Fresh<F>>,
    home: Arc<Home<F>>,
}

// What the clones share: the receiving end while nobody has it, and how many tasks a run has.
#[derive(Drop)]
struct Home<F: Future> {
    receiver: Mutex<Option<UnboundedReceiver<Fresh<F>>>>,
    running: AtomicUsize,
}

impl<F: Future> Spawner<F> {
    /// Creates a spawner without tasks. Returns an error if there is no memory.
    pub fn new(alloc: Global) -> Result<Spawner<F>, AllocError> {
        let (sender, receiver) = unbounded(alloc)?;
        let home = Home {
            receiver: Mutex::new(Some(receiver)),
            running: AtomicUsize::new(0),
        };
        Ok(Spawner {
            sender,
            home: Arc::new(alloc, home)?,
        })
    }

    /// Returns the stream of the tasks, oldest first; or none while someone else has it. It ends once all
    /// clones of the spawner were dropped.
    pub fn spawned(&self) -> Option<Spawned<F>> {
        let home = Arc::try_clone(&self.home).ok()?;
        let receiver = lock(&self.home.receiver)?.take()?;
        Some(Spawned { receiver, home })
    }

    /// Returns how many tasks haven't ended: those that wait to be run, and those of a run of `beside`, also
    /// if that was given up.
    pub fn unfinished(&self) -> usize {
        let running = self.home.running.load(Ordering::SeqCst);
        self.sender.len().saturating_add(running)
    }
}

impl<F: Future<Output = ()>> Spawner<F> {
    /// Returns a future that polls this one and the tasks, until this one is ready and no task is left. It
    /// returns an error if there is no memory, or someone else has the stream of the tasks.
    pub fn beside<B>(&self, alloc: Global, future: B) -> Result<Beside<B, F>, BesideError>
    where
        B: Future<Output: Drop>,
        requires { B.can_poll future }
        ensures { IfOk result (λ both. CanRun B.can_poll both
            × ((x : B.Output) → RunGives B.gives both x → B.gives future x)) }
    {
        match self.spawned() {
            Some(spawned) => Ok(Beside::new(alloc, future, spawned)?),
            None => Err(BesideError::Elsewhere),
        }
    }
}

impl<F: Future> Clone for Spawner<F> {
    fn clone(&self) -> Result<Spawner<F>, AllocError> {
        Ok(Spawner {
            sender: self.sender.clone()?,
            home: Arc::try_clone(&self.home)?,
        })
    }
}

impl<F: Future<Output = ()>> Executor<F> for Spawner<F> {
    ghost can_spawn = { λ _ task. F.can_poll task };

    ghost spawned = { λ _ task answer. IfErr answer (λ back. back ≡ task) };

    fn spawn(&self, task: F) -> Result<(), F> {
        match self.sender.unbounded_send(Fresh::new(task)) {
            Ok(()) => Ok(()),
            Err(error) => Err(error.into_inner().into_inner()),
        }
    }
}

impl<F: Future<Output = ()>> Executor<F> for &Spawner<F> {
    ghost can_spawn = { λ _ task. F.can_poll task };

    ghost spawned = { λ _ task answer. IfErr answer (λ back. back ≡ task) };

    fn spawn(&self, task: F) -> Result<(), F> {
        (**self).spawn(task)
    }
}

/// The stream of the tasks of a `Spawner`. What comes out of it was spawned, comes out once, and may be
/// polled. While it lives, no other has it.
pub struct Spawned<F: Future> {
    receiver: UnboundedReceiver<Fresh<F>>,
    home: Arc<Home<F>>,
}

impl<F: Future> Spawned<F> {
    // Notes how many tasks a run has.
    pub(crate) fn note(&self, running: usize) {
        self.home.running.store(running, Ordering::SeqCst);
    }
}

impl<F: Future> Stream for Spawned<F> {
    type Item = F;

    ghost needs = { λ s r. r ≡ unbounded_readable_source s.receiver };

    ghost yields = { λ _ _ last. IfSome last F.can_poll };

    fn poll_next(&mut self, cx: &mut Context<'_>) -> Poll<Option<F>> {
        match self.receiver.poll_next(cx) {
            Poll::Ready(Some(fresh)) => Poll::Ready(Some(fresh.into_inner())),
            Poll::Ready(None) => Poll::Ready(None),
            Poll::Pending => Poll::Pending,
        }
    }
}

/// Gives the stream back to the spawner.
impl<F: Future> Drop for Spawned<F> {
    fn drop(self) {
        let Self { receiver, home } = self;
        match lock(&home.receiver) {
            Some(mut place) => *place = Some(receiver),
            None => drop(receiver),
        }
    }
}
