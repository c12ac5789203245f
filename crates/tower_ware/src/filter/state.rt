//! The states of the filters' futures.

/// The state of a `Filter`'s future: the response, the refusal, or nothing once it has returned either.
#[derive(Drop)]
pub(crate) enum State<F, P> {
    /// The response of the inner service.
    Response(F),
    /// The error with which the predicate rejected the request.
    Refusal(P),
    /// The future has returned the response's output or the error.
    Answered,
}

/// The state of an `AsyncFilter`'s future: the check and the service that was polled, the response, or
/// nothing if cloning failed.
#[derive(Drop)]
pub(crate) enum AsyncState<C, S, F> {
    /// The check of the request, and the service that was polled.
    Check(C, S),
    /// The response of that service to the checked request.
    InFlight(F),
    /// The service couldn't be cloned at the call.
    NoClone,
}
