//! The steps of mail, and its replies.

/// A step of a `MailCore`.
#[derive(Clone, Copy, Debug, PartialEq, Eq, Drop)]
pub enum MailStep<Request, F, E> {
    /// Counts one `Buffer` more.
    Join,
    /// Counts one `Buffer` less.
    Part,
    /// Reserves a place, or waits for one.
    Reserve,
    /// Checks whether this key has got its place. The key ends once it has.
    Look(u64),
    /// Cancels the wait of this key, even if it has got its place.
    Cancel(u64),
    /// Gives a reserved place back.
    Unreserve,
    /// Sends a message into a reserved place.
    Send(Request),
    /// Takes the oldest message.
    Take,
    /// Checks whether the response of this taken message is still waited for.
    Live(u64),
    /// Gives this taken message its future.
    Answer(u64, F),
    /// Reports the error of the service, which this taken message met.
    Fail(u64, E),
    /// Makes the stored error the outcome of this taken message.
    FailStored(u64),
    /// Takes the outcome of this message. Its id ends once there is one.
    Outcome(u64),
    /// Reports that nobody waits for this message any more.
    Forget(u64),
    /// Reports that the worker is gone.
    WorkerGone,
}

/// The reply of a `MailCore` to a step.
#[derive(Clone, Copy, Debug, PartialEq, Eq, Drop)]
pub enum MailReply<Request, F, E> {
    /// The step was made.
    Done,
    /// The caller has reserved a place.
    Place,
    /// There is no place or outcome yet. The caller waits under this key, or for the outcome of this
    /// message.
    Waiting(u64),
    /// There is no room, a clone of the stored error is refused, or no further `Buffer` can be counted.
    /// The mail is unchanged.
    Memory,
    /// The service failed, with this error.
    Failed(E),
    /// The mail is closed.
    Closed,
    /// The message was sent under this id, which no other message has.
    Sent(u64),
    /// The message of this id was taken, with its request.
    Message(u64, Request),
    /// Only messages that nobody waits for were queued. They were removed.
    Cleared,
    /// No message is queued.
    Empty,
    /// No message is queued, and none will be.
    End,
    /// Whether the response is still waited for.
    Truth(bool),
    /// Nobody waits for this future.
    Back(F),
    /// The future of the response.
    Future(F),
    /// The message was lost with the worker.
    Lost,
    /// There is no such key, message or place. The mail is unchanged.
    Unknown,
}
