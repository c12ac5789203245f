//! Values that a lock or a core keeps for others, each with a fact that its user needs.
ghost use Rattle.std.specs.Prelude.{◌≡◌, ◌↔◌, IfSome, IsTrue, None, Option, Some};
ghost use Rattle.futures.specs.Task.{Covers, Keeps};
ghost use Rattle.tower_latch.specs.Held.{PolledThere};

use futures::task::{Context, Poll};
use std::marker::{Model, PhantomData};
use tower_base::service::{Service, Steps};

/// A fact about values of a type.
pub trait Fact<T> {
    // The fact holds for this value.
    ghost holds: { T → Type 0 };
}

/// Returns the value unchanged. It requires the fact only as a truncated proposition (`∥ .. ∥₁`), and
/// ensures the fact itself.
pub fn open<T, P: Fact<T>>(value: T) -> T
    requires { ∥ P.holds value ∥₁ }
    ensures holds { P.holds result }
    ensures same { result ≡ value }
{
    value
}

/// The fact that the service is sound.
pub struct IsSound<Request> {
    request: PhantomData<Request>,
}

impl<S: Service<Request>, Request> Fact<S> for IsSound<Request> {
    ghost holds = { S.sound };
}

/// The fact that the future may be polled.
pub struct MayPoll;

impl<F: Steps> Fact<F> for MayPoll {
    ghost holds = { F.can_poll };
}

// The same of a future that stays where it is kept.
struct MayPollThere;

impl<F: Steps> Fact<&mut F> for MayPollThere {
    ghost holds = { λ f. F.can_poll f.now };
}

/// A sound service that is kept for others. Contracts see the service.
#[derive(Drop)]
pub struct Viewed<S: Service<Request>, Request> {
    service: S,
    request: PhantomData<Request>,
}

impl<S: Service<Request>, Request> Model for Viewed<S, Request> {
    ghost Value = { S };

    ghost view = { λ v. v.service };

    ghost invariant = { λ v. ∥ S.sound v.service ∥₁ };
}

impl<S: Service<Request>, Request> Viewed<S, Request> {
    /// Keeps a sound service.
    pub fn new(service: S) -> Viewed<S, Request>
        requires { S.sound service }
        ensures { result ≡ service }
    {
        Viewed {
            service,
            request: PhantomData,
        }
    }

    /// Returns the service, which is still sound.
    pub fn into_inner(self) -> S
        ensures sound { S.sound result }
        ensures same { result ≡ self }
    {
        let Viewed {
            service,
            request: _,
        } = self;
        open::<S, IsSound<Request>>(service)
    }
}

/// A future that is kept for others and may be polled. Contracts see the future.
#[derive(Drop)]
pub struct Pollable<F: Steps> {
    future: F,
}

impl<F: Steps> Model for Pollable<F> {
    ghost Value = { F };

    ghost view = { λ p. p.future };

    ghost invariant = { λ p. ∥ F.can_poll p.future ∥₁ };
}

impl<F: Steps> Pollable<F> {
    /// Keeps a future that may be polled.
    pub fn new(future: F) -> Pollable<F>
        requires { F.can_poll future }
        ensures { result ≡ future }
    {
        Pollable { future }
    }

    /// Returns the future, which may still be polled.
    pub fn into_inner(self) -> F
        ensures can_poll { F.can_poll result }
        ensures same { result ≡ self }
    {
        let Pollable { future } = self;
        open::<F, MayPoll>(future)
    }
}

/// A place for a future, which is polled there. The place is empty once the future has returned its
/// output. Contracts see the future, if there is one.
#[derive(Drop)]
pub struct Place<F: Steps> {
    future: Option<F>,
}

impl<F: Steps> Model for Place<F> {
    ghost Value = { Option F };

    ghost view = { λ p. p.future };

    ghost invariant = { λ p. IfSome p.future (λ f. ∥ F.can_poll f ∥₁) };
}

impl<F: Steps> Place<F> {
    /// Creates a place without a future.
    pub fn empty() -> Place<F>
        ensures { result ≡ None }
    {
        Place { future: None }
    }

    /// Creates a place with a future that may be polled.
    pub fn new(future: F) -> Place<F>
        requires { F.can_poll future }
        ensures { result ≡ Some future }
    {
        Place {
            future: Some(future),
        }
    }

    /// Puts a future that may be polled into the empty place.
    pub fn put(&mut self, future: F)
        requires can_poll { F.can_poll future }
        requires empty { self.old ≡ None }
        ensures { self.new ≡ Some future }
    {
        let None = &self.future else {
            unreachable!();
        };
        self.future = Some(future);
    }

    /// Returns whether there is no future.
    pub fn is_empty(&self) -> bool
        ensures { IsTrue result ↔ (self.now ≡ None) }
    {
        self.future.is_none()
    }

    /// Polls the future once in its place, if there is one. If it returns its output, the future is dropped.
    pub fn poll(&mut self, cx: &mut Context<'_>) -> Option<Poll<F::Output>>
        ensures polled { PolledThere F.stepped self.old result self.new }
        ensures registered { IfSome self.new (λ future. Covers cx.new (F.needs future)) }
        ensures kept { Keeps cx.old cx.new }
    {
        let Some(future) = &mut self.future else {
            return None;
        };
        let answer = open::<&mut F, MayPollThere>(future).step(cx);
        if answer.is_ready() {
            self.future = None;
        }
        Some(answer)
    }
}
