//! What a `Traced` tells.
ghost use Rattle.std.specs.Prelude.{⊤};
ghost use Rattle.tower_meter.specs.Traced.{Event};

/// What is done as something happens at a `Traced`: as a rule, a line is logged. Times are in nanoseconds.
/// No lock is held as a method is called.
pub trait Trace<Request, Response, Error>: Copy {
    /// What a call's answer or drop is told with, as the number of the call, or `()`.
    type Span: Drop;

    // A call for this event may return. If this is left out, nothing is known of what it did.
    ghost told: { Self → Event Request Response Error Self.Span → Type 0 } = { λ _ _. ⊤ };

    /// The inner service is called next, with this request.
    fn on_call(&self, request: &Request) -> Self::Span
        ensures { told self.now (Event.called request.now result) };

    /// A call was answered, so long after it was made.
    fn on_answer(&self, span: &Self::Span, answer: &Result<Response, Error>, nanos: u64)
        ensures { told self.now (Event.answered span.now answer.now nanos) };

    /// A call's response was dropped before an answer, so long after the call was made.
    fn on_drop(&self, span: &Self::Span, nanos: u64)
        ensures { told self.now (Event.dropped span.now nanos) };

    /// Polls found the inner service unready so long, until one didn't.
    fn on_unready(&self, nanos: u64)
        ensures { told self.now (Event.unready nanos) };
}
