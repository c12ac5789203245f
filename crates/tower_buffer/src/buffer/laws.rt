//! What holds of all mail.
ghost use Rattle.tower_latch.specs.Latch.{IsRun};
ghost use Rattle.tower_buffer.specs.Mail.{MailSteps};
ghost use Rattle.tower_buffer.specs.Mailbox.{StandsFor};
ghost use Rattle.tower_buffer.specs.MailHistory.{TakenAsSent};
ghost use Rattle.tower_buffer.specs.MailLaws.{EachOnce, FailsAtOnce, InOrder, StaysShut};
ghost use Rattle.tower_buffer.specs.MailNamed.{DecidedWaitsNoMore, ResponsesAreNamed, TicketsAreNamed, WorkerIsNamed};

/// States what holds of every list of steps and replies: each message has at most one outcome and is
/// taken at most once, in the order of sending; a failure stores the first error, closes the mail and,
/// unless nobody waits for its message, fails it, in one step; and closed mail stays closed. What a
/// `MailCore` serves is such a list, and so is the history of mail that ran under a log, where messages
/// are taken in the order of their sends, each at most once.
pub fn law<Request, F, E>()
    ensures follows { IsRun (StandsFor {Q = Request} {F = F} {E = E}) MailSteps }
    ensures once { EachOnce Request F E }
    ensures in_order { InOrder Request F E }
    ensures fails { FailsAtOnce Request F E }
    ensures shut { StaysShut Request F E }
    ensures history { TakenAsSent Request F E }
{}

/// States whom a step of mail wakes, if it names whoever no longer stalls, as each step of a
/// `MailCore` does: a ticket that waits for a place, if the step frees one for it; a response that waits
/// for its outcome, if the step decides it; and a worker that waits for a message, if the step sends one
/// or ends the mail. A response whose outcome is decided would not be told to wait.
pub fn wakes<Request, F, E>()
    ensures tickets { TicketsAreNamed Request F E }
    ensures responses { ResponsesAreNamed Request F E }
    ensures worker { WorkerIsNamed Request F E }
    ensures decided { DecidedWaitsNoMore Request F E }
{}
