//! The predicates of the filters.
ghost use Rattle.std.specs.Prelude.{◌≡◌, ⊤, Result};

use std::marker::Model;
use tower_base::service::Steps;

/// A predicate, which checks a request and may turn it into another one: the Rust's
/// `tower::filter::Predicate`.
pub trait Predicate<Request>: Drop {
    type Request;

    type Error: Drop;

    // Holds after construction and is preserved by every check.
    ghost sound: { Self → Type 0 } = { λ _. ⊤ };

    // A check of the request may return this result and leave the second value. If left out, it isn't
    // known which requests are accepted, nor what the inner service is called with.
    ghost checked: { Self → Request → Result Self.Request Self.Error → Self
        → Type 0 } = { λ _ _ _ _. ⊤ };

    /// Returns the request for the inner service, or an error if it rejects the request.
    fn check(&mut self, request: Request) -> Result<Self::Request, Self::Error>
        requires { sound self.old }
        ensures checked { checked self.old request result self.new }
        ensures sound { sound self.new };
}

/// A predicate that checks a request with a future: the Rust's `tower::filter::AsyncPredicate`.
pub trait AsyncPredicate<Request>: Drop {
    type Request;

    type Error: Drop;

    type Future: Steps<Output = Result<Self::Request, Self::Error>>;

    // Holds after construction and is preserved by every check.
    ghost sound: { Self → Type 0 } = { λ _. ⊤ };

    // A check of the request may return this future and leave the second value. If left out, it isn't
    // known which requests are accepted, nor what the inner service is called with.
    ghost checked: { Self → Request → Self.Future → Self → Type 0 } = { λ _ _ _ _. ⊤ };

    /// Returns a future of the request for the inner service, or of an error if it rejects the request.
    fn check(&mut self, request: Request) -> Self::Future
        requires { sound self.old }
        ensures checked { checked self.old request result self.new }
        ensures sound { sound self.new }
        ensures can_poll { Self.Future.can_poll result };
}

/// A predicate that calls a closure. In the Rust the closure itself is a predicate.
#[derive(Clone, Copy, Drop)]
pub struct PredicateFn<F> {
    f: F,
}

impl<F> Model for PredicateFn<F> {
    ghost Value = { F };

    ghost view = { λ p. p.f };

    ghost inverse = { λ v. record { f = v } };
}

impl<F> PredicateFn<F> {
    /// Creates a predicate from a closure that returns the request for the inner service, or the error.
    pub fn new(f: F) -> PredicateFn<F>
        ensures { result ≡ f }
    {
        PredicateFn { f }
    }
}

impl<F, T, R, E> Predicate<T> for PredicateFn<F>
where
    F: FnMut(T) -> Result<R, E> + Drop,
    E: Drop,
{
    type Request = R;

    type Error = E;

    ghost sound = { F.IsAlwaysCallable };

    ghost checked = { F.step };

    fn check(&mut self, request: T) -> Result<R, E> {
        (self.f)(request)
    }
}

/// A predicate that calls a closure for a future. In the Rust the closure itself is a predicate.
#[derive(Clone, Copy, Drop)]
pub struct AsyncPredicateFn<F> {
    f: F,
}

impl<F> Model for AsyncPredicateFn<F> {
    ghost Value = { F };

    ghost view = { λ p. p.f };

    ghost inverse = { λ v. record { f = v } };
}

impl<F> AsyncPredicateFn<F> {
    /// Creates a predicate from a closure that returns a future of the request for the inner service, or
    /// of the error.
    pub fn new(f: F) -> AsyncPredicateFn<F>
        ensures { result ≡ f }
    {
        AsyncPredicateFn { f }
    }
}

impl<F, T, U, R, E> AsyncPredicate<T> for AsyncPredicateFn<F>
where
    F: FnMut(T) -> U + Drop,
    U: Steps<Output = Result<R, E>>,
    E: Drop,
{
    type Request = R;

    type Error = E;

    type Future = U;

    // The closure may be called any number of times, and each future that it returns may be polled.
    ghost sound = { λ p. F.IsAlwaysCallable p
        × ((f : F) (request : T) (future : U) (g : F) → F.step f request future g
        → U.can_poll future) };

    ghost checked = { F.step };

    fn check(&mut self, request: T) -> U {
        (self.f)(request)
    }
}
