//! Requests of which is known how many are left, and a service that opens them.
ghost use Rattle.std.specs.Prelude.{ℕ};

use futures::task::{Context, Poll};
use scripted::script::Requests;
use std::cell::Cell;
use tower_base::service::Service;

/// A request with a number.
pub trait Numbered: Drop {
    fn number(&self) -> u8;
}

/// A request that is counted while it is there.
pub struct Parcel<'a> {
    left: &'a Cell<u8>,
    number: u8,
}

impl<'a> Numbered for Parcel<'a> {
    fn number(&self) -> u8 {
        self.number
    }
}

impl<'a> Drop for Parcel<'a> {
    fn drop(self) {
        self.left.set(self.left.get().saturating_sub(1));
        let Parcel { left: _, number: _ } = self;
    }
}

/// Makes parcels, and counts them.
#[derive(Clone, Copy)]
pub struct Parcels<'a> {
    pub left: &'a Cell<u8>,
}

impl<'a> Requests<Parcel<'a>> for Parcels<'a> {
    fn request(&self, number: u8) -> Parcel<'a> {
        self.left.set(self.left.get().saturating_add(1));
        Parcel {
            left: self.left,
            number,
        }
    }
}

/// Calls its service with the number of each request.
#[derive(Drop)]
pub struct Opens<S> {
    pub inner: S,
}

impl<Q: Numbered, S: Service<u8>> Service<Q> for Opens<S> {
    type Response = S::Response;

    type Error = S::Error;

    type Future = S::Future;

    ghost sound = { λ o. S.sound o.inner };

    ghost ready = { λ o. S.ready o.inner };

    ghost polled = { λ old answer new. S.polled old.inner answer new.inner };

    ghost called = { λ old request future new. (number : ℕ) × S.called old.inner number future new.inner };

    ghost readies = { λ old new p. S.readies old.inner new.inner p };

    fn poll_ready(&mut self, cx: &mut Context<'_>) -> Poll<Result<(), S::Error>> {
        self.inner.poll_ready(cx)
    }

    fn call(&mut self, request: Q) -> S::Future {
        self.inner.call(request.number())
    }
}
