//! Services whose responses are services.
ghost use Rattle.std.specs.Prelude.{◌≡◌, ⊤, ℕ, Ok, Result};
ghost use Rattle.futures.specs.Poll.{OnPending};
ghost use Rattle.futures.specs.Task.{Hears, IsArmed, Keeps};
ghost use Rattle.futures.specs.declared.task.Poll.{Poll};
ghost use Rattle.futures.specs.declared.task.Poll.TheVariants.{Ready};
ghost use Rattle.tower_base.specs.Quiet.{Quiet};

use crate::make::{AsService, IntoService};
use futures::task::{Context, Poll};
use tower_base::service::{Service, Steps};

/// A service whose responses are services. It is the Rust's `tower::make::MakeService`, and each such
/// service implements it.
pub trait MakeService<Target, Request>: Drop {
    type Response: Drop;

    type Error: Drop;

    type Service: Service<Request, Response = Self::Response, Error = Self::Error>;

    type MakeError: Drop;

    type Future: Steps<Output = Result<Self::Service, Self::MakeError>>;

    // The same as in `Service`.
    ghost sound: { Self → Type 0 } = { λ _. ⊤ };

    ghost ready: { Self → Type 0 };

    ghost polled: { Self → Poll (Result (Unit {0}) Self.MakeError) → Self → Type 0 };

    ghost needs: { Self → ℕ → Type 0 } = { λ _ _. ⊥ };

    ghost stirs: { Self → Self → Type 0 } = { λ _ _. ⊤ };

    ghost called: { Self → Target → Self.Future → Self → Type 0 };

    /// Polls the maker's readiness to make a service.
    fn poll_ready(&mut self, cx: &mut Context<'_>) -> Poll<Result<(), Self::MakeError>>
        requires { sound self.old }
        ensures polled { polled self.old result self.new }
        ensures sound { sound self.new }
        ensures armed { OnPending result (IsArmed cx.new) }
        ensures heard { OnPending result ((s : ℕ) → needs self.new s → Hears cx.new s) }
        ensures quiet { Quiet (stirs self.old self.new) cx.old cx.new }
        ensures kept { Keeps cx.old cx.new };

    /// Makes a service for the target, and returns its future.
    fn make_service(&mut self, target: Target) -> Self::Future
        requires sound { sound self.old }
        requires ready { ready self.old }
        ensures sound { sound self.new }
        ensures called { called self.old target result self.new }
        ensures can_poll { Self.Future.can_poll result };

    /// Turns the maker into a `Service`.
    final fn into_service(self) -> IntoService<Self, Request>
    where
        Self: Sized,
        ensures { result ≡ self }
    {
        IntoService::new(self)
    }

    /// Borrows the maker as a `Service`.
    final fn as_service(&mut self) -> AsService<'_, Self, Request>
    where
        Self: Sized,
        ensures value { result.make.now ≡ self.old }
        ensures same_reference { result.make.ghost_name ≡ self.entry.ghost_name }
    {
        AsService::new(self)
    }

    // If `poll_ready` returns `Ok`, it leaves a value that is ready.
    ghost readies: { (old new : Self) → polled old (Ready (Ok tt)) new → ready new };
}

impl<M, S, Target, Request> MakeService<Target, Request> for M
where
    M: Service<Target, Response = S>,
    S: Service<Request>,
{
    type Service = S;

    type Future = M::Future;

    type MakeError = M::Error;

    type Error = S::Error;

    type Response = S::Response;

    ghost sound = { M.sound };

    ghost ready = { M.ready };

    ghost polled = { M.polled };

    ghost needs = { M.needs };

    ghost stirs = { M.stirs };

    ghost called = { λ old target future new. M.ready old × M.called old target future new };

    ghost readies = { M.readies };

    fn poll_ready(&mut self, cx: &mut Context<'_>) -> Poll<Result<(), M::Error>> {
        Service::poll_ready(self, cx)
    }

    fn make_service(&mut self, target: Target) -> M::Future {
        Service::call(self, target)
    }
}
