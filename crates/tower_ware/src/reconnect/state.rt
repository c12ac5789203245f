//! The states of a `Reconnect` and of its future.

/// The state of a `Reconnect`.
#[derive(Drop)]
pub enum State<F, S> {
    /// There is neither a connect nor a connection.
    Idle,
    /// The maker's future, which connects.
    Connecting(F),
    /// The connection.
    Connected(S),
}

/// The future of a response, or an error in its place, which is returned once.
#[derive(Drop)]
pub enum Reply<F, E> {
    /// The response of the connection.
    InFlight(F),
    /// The error of a failed connect, until it is returned.
    Failed(Option<E>),
}
