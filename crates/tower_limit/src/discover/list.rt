//! A list of services as a discovery.
ghost use Rattle.std.specs.Prelude.{◌≡◌, ◌+◌, ◌<◌, ◌^◌};
ghost use Rattle.std.specs.Vec.Iter.{into_iter_items, into_iter_len};
ghost use Rattle.tower_limit.specs.Discover.{ServiceListView, Listed};

use crate::discover::{Change, Discover};
use futures::task::{Context, Poll};
use std::convert::Infallible;
use std::marker::Model;
use std::vec::IntoIter;

/// A discovery that inserts the services of a list, one at each poll, each under its index, and then
/// ends: the Rust's `tower::discover::ServiceList`.
#[derive(Drop)]
pub struct ServiceList<S> {
    next: usize,
    services: IntoIter<S>,
}

impl<S> Model for ServiceList<S> {
    ghost Value = { ServiceListView S };

    ghost view = { λ l. record { next = l.next; services = into_iter_items l.services } };

    ghost invariant = { λ l. l.next + into_iter_len l.services < 2 ^ 64 };
}

impl<S> ServiceList<S> {
    /// Creates a discovery of these services. The first one has the key 0.
    pub fn new(services: Vec<S>) -> ServiceList<S>
        ensures { result ≡ record { next = 0; services = services.items } }
    {
        ServiceList {
            next: 0,
            services: services.into_iter(),
        }
    }
}

impl<S: Drop> Discover for ServiceList<S> {
    type Key = usize;

    type Service = S;

    type Error = Infallible;

    ghost discovered = { Listed };

    // A poll is never pending, and never asks for another.
    ghost stirs = { λ _ _. ⊥ };

    fn poll_discover(
        &mut self,
        _cx: &mut Context<'_>,
    ) -> Poll<Option<Result<Change<usize, S>, Infallible>>> {
        let Some(service) = self.services.next() else {
            return Poll::Ready(None);
        };
        let key = self.next;
        self.next += 1;
        Poll::Ready(Some(Ok(Change::Insert(key, service))))
    }
}
