//! The state of a `Retry`'s future between its polls.

/// The state of a `Retry`'s future: clones of the policy and of the service, the request to be made again
/// if there is one, and what the future polls.
#[derive(Drop)]
pub(crate) struct Attempts<P, S, Request, F, W> {
    pub policy: P,
    pub service: S,
    pub request: Option<Request>,
    pub state: State<F, W>,
}

/// What a `Retry`'s future polls.
#[derive(Drop)]
pub(crate) enum State<F, W> {
    /// The inner future.
    InFlight(F),
    /// The wait that the policy returned.
    Waiting(W),
    /// The readiness of the service.
    Retrying,
}
