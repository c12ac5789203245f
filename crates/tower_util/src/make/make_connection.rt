//! Services whose responses are connections.
ghost use Rattle.std.specs.Prelude.{⊤, Ok, Result};
ghost use Rattle.futures.specs.Poll.{OnPending};
ghost use Rattle.futures.specs.Task.{IsArmed, Keeps};
ghost use Rattle.futures.specs.declared.task.Poll.{Poll};
ghost use Rattle.futures.specs.declared.task.Poll.TheVariants.{Ready};
ghost use Rattle.tower_base.specs.Quiet.{Quiet};

use futures::task::{Context, Poll};
use tower_base::service::{Service, Steps};

/// A service whose responses are connections. It is the Rust's `tower::make::MakeConnection`. Here each
/// service implements it, since nothing is required of a connection.
pub trait MakeConnection<Target>: Drop {
    type Connection: Drop;

    type Error: Drop;

    type Future: Steps<Output = Result<Self::Connection, Self::Error>>;

    // The same as in `Service`.
    ghost sound: { Self → Type 0 } = { λ _. ⊤ };

    ghost ready: { Self → Type 0 };

    ghost polled: { Self → Poll (Result (Unit {0}) Self.Error) → Self → Type 0 };

    ghost stirs: { Self → Self → Type 0 } = { λ _ _. ⊤ };

    ghost called: { Self → Target → Self.Future → Self → Type 0 };

    /// Polls the readiness to make a connection.
    fn poll_ready(&mut self, cx: &mut Context<'_>) -> Poll<Result<(), Self::Error>>
        requires { sound self.old }
        ensures polled { polled self.old result self.new }
        ensures sound { sound self.new }
        ensures armed { OnPending result (IsArmed cx.new) }
        ensures quiet { Quiet (stirs self.old self.new) cx.old cx.new }
        ensures kept { Keeps cx.old cx.new };

    /// Makes a connection to the target, and returns its future.
    fn make_connection(&mut self, target: Target) -> Self::Future
        requires sound { sound self.old }
        requires ready { ready self.old }
        ensures sound { sound self.new }
        ensures called { called self.old target result self.new }
        ensures can_poll { Self.Future.can_poll result };

    // If `poll_ready` returns `Ok`, it leaves a value that is ready.
    ghost readies: { (old new : Self) → polled old (Ready (Ok tt)) new → ready new };
}

impl<C, Target> MakeConnection<Target> for C
where
    C: Service<Target>,
{
    type Connection = C::Response;

    type Error = C::Error;

    type Future = C::Future;

    ghost sound = { C.sound };

    ghost ready = { C.ready };

    ghost polled = { C.polled };

    ghost stirs = { C.stirs };

    ghost called = { λ old target future new. C.ready old × C.called old target future new };

    ghost readies = { C.readies };

    fn poll_ready(&mut self, cx: &mut Context<'_>) -> Poll<Result<(), C::Error>> {
        Service::poll_ready(self, cx)
    }

    fn make_connection(&mut self, target: Target) -> C::Future {
        Service::call(self, target)
    }
}
