//! A maker that returns clones of one service.
ghost use Rattle.std.specs.Prelude.{◌≡◌, Option, Some, IsSome, Ok, Result};
ghost use Rattle.futures.specs.declared.task.Poll.TheVariants.{Ready};
ghost use Rattle.tower_base.specs.Gives.{IsStep, MayGive};
ghost use Rattle.tower_base.specs.Projection.{Never, Projects};
ghost use Rattle.tower_base.specs.ServiceRun.{relations};
ghost use Rattle.tower_util.specs.Shared.{Called, Stepped};
ghost use Rattle.tower_util.specs.declared.make.shared.Error.{Error as SharedError};

use futures::future::Future;
use futures::task::{Context, Poll};
use std::marker::Model;
use tower_base::service::{Service, Steps};

/// A maker that returns a clone of its service for each call. It is the Rust's `tower::make::Shared`.
#[derive(Clone, Copy, Drop)]
pub struct Shared<S> {
    service: S,
}

impl<S> Model for Shared<S> {
    ghost Value = { S };

    ghost view = { λ s. s.service };

    ghost inverse = { λ v. record { service = v } };
}

/// The error of a `Shared`. The Rust has none, since its clones can't fail.
#[derive(Clone, Copy, Debug, PartialEq, Eq, thiserror::Error)]
pub enum Error {
    /// The service couldn't be cloned at the call.
    #[error("out of memory")]
    Memory,
}

impl<S> Shared<S> {
    /// Creates a maker that keeps the service, and clones it at each call.
    pub fn new(service: S) -> Shared<S>
        ensures { result ≡ service }
    {
        Shared { service }
    }
}

impl<S: Clone + Drop, T: Drop> Service<T> for Shared<S> {
    type Response = S;

    type Error = Error;

    type Future = SharedFuture<S>;

    ghost ready = { λ _. Unit {0} };

    ghost polled = { λ old answer new. (answer ≡ Ready (Ok tt)) × (new ≡ old) };

    // It polls nothing.
    ghost stirs = { λ _ _. ⊥ };

    ghost called = { Called S.Clone };

    ghost readies = { λ _ _ _. tt };

    fn poll_ready(&mut self, _cx: &mut Context<'_>) -> Poll<Result<(), Error>> {
        Poll::Ready(Ok(()))
    }

    fn call(&mut self, _target: T) -> SharedFuture<S> {
        let answer = match self.service.clone() {
            Ok(service) => Ok(service),
            Err(_) => Err(Error::Memory),
        };
        SharedFuture {
            answer: Some(answer),
        }
    }
}

/// Nothing is passed inside: the service is only cloned.
pub fn projection<S, T, Request>()
where
    S: Service<Request> + Clone + Drop,
    T: Drop,
    ensures { Projects (relations ⟦<Shared<S> as Service<T>>⟧) (relations S.Service)
        (λ s. s) Never }
{}

/// The response future of a `Shared`: the Rust's `tower::make::future::SharedFuture`. It returns the
/// clone, or `Memory` if cloning failed.
#[derive(Drop)]
pub struct SharedFuture<S> {
    answer: Option<Result<S, Error>>,
}

impl<S> Model for SharedFuture<S> {
    ghost Value = { Option (Result S SharedError) };

    ghost view = { λ t. t.answer };
}

impl<S: Drop> Future for SharedFuture<S> {
    type Output = Result<S, Error>;

    ghost can_poll = { λ t. IsSome t };

    ghost gives = { MayGive Stepped };

    #[tactic(auto, using(tower_base::specs::GivesLemmas::one_step))]
    fn poll(&mut self, cx: &mut Context<'_>) -> Poll<Result<S, Error>>
        requires { ⟦<SharedFuture<S> as Future>⟧.can_poll self.old }
        ensures { IsStep Stepped ⟦<SharedFuture<S> as Future>⟧.can_poll
            ⟦<SharedFuture<S> as Future>⟧.needs self.old result self.new cx.old cx.new }
    {
        self.step(cx)
    }
}

impl<S: Drop> Steps for SharedFuture<S> {
    type Output = Result<S, Error>;

    ghost can_poll = { λ t. IsSome t };

    // It polls nothing.
    ghost stirs = { λ _ _. ⊥ };

    ghost stepped = { Stepped };

    fn step(&mut self, _cx: &mut Context<'_>) -> Poll<Result<S, Error>> {
        Poll::Ready(self.answer.take().unwrap())
    }
}
