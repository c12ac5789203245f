//! The law of `Buffer` and its worker.
ghost use Rattle.tower_laws.specs.Buffer.{HoldOfMail, TakesFirst, TellsFirstError, TellsWhatWasGiven, WorkerSettlesEach};

use tower_base::service::Service;
use tower_buffer::buffer::MailCore;
use tower_latch::Latch;
use tower_latch::held::Pollable;

/// For each step of mail, over every run from initial mail and in the history of mail that ran under a log:
/// `Take` hands out the messages in the order of their sends, each once, without those that were cancelled
/// before; an outcome is what was given to that message; and after a failure whoever asks for a place, or
/// for the outcome of a message that failed, is told the error of the first failure, or `Memory` if its
/// clone fails.
///
/// Over all its polls a worker takes a message only once the last one has its outcome or nobody waits for
/// it, and after a failure of its service each message that it takes gets the stored error.
pub fn law<Request, S, L>()
where
    Request: Drop,
    S: Service<Request>,
    S::Error: Clone,
    S::Future: Drop,
    L: Latch<MailCore<Request, Pollable<S::Future>, S::Error>>,
    ensures order { HoldOfMail (TakesFirst {Q = Request} {F = S.Future} {E = S.Error}) }
    ensures outcomes { HoldOfMail (TellsWhatWasGiven {Q = Request} {F = S.Future} {E = S.Error}) }
    ensures errors { HoldOfMail (TellsFirstError {Q = Request} {F = S.Future} {E = S.Error}) }
    ensures worker { WorkerSettlesEach L.gave S.Service }
{}
