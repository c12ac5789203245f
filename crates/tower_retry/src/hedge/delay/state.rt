//! The state of a delayed call.

/// The state of a delayed call: the delay with the service and the request of the call, the call itself,
/// or nothing if cloning failed.
#[derive(Drop)]
pub(crate) enum State<D, S, Request, O> {
    /// The delay, and the service and the request of the call that follows it.
    Delaying(D, S, Request),
    /// The call.
    InFlight(O),
    /// The service couldn't be cloned at the call.
    NoClone,
}
