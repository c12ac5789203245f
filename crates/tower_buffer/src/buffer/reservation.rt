//! The states of a `Buffer` and of its responses at the mail.

/// The state of a `Buffer` at the mail.
#[derive(Clone, Copy, Debug, PartialEq, Eq)]
pub enum Reservation {
    /// It has no place and waits for none.
    Away,
    /// It waits under this key.
    Asking(u64),
    /// It has reserved a place.
    Reserved,
}

/// The state of a response.
#[derive(Drop)]
pub enum ResponseState<L, F, E> {
    /// The call failed with this error, which is kept until it is returned.
    Told(Option<E>),
    /// The message of this id was sent at this share of the latch.
    Sent(L, u64),
    /// The inner future.
    Polls(F),
}
