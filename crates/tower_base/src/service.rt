//! Services, the futures and streams that they use, clocks and executors.
ghost use Rattle.std.specs.Prelude.{◌≡◌, ◌≢◌, ◌⊎◌, ⊤, ℕ, true, Result, Ok, ◌↔◌, IsTrue, IfErr, OnSome, Option};
ghost use Rattle.futures.specs.Task.{Covers, Hears, Keeps, IsArmed};
ghost use Rattle.tower_base.specs.Quiet.{Quiet};
ghost use Rattle.futures.specs.Poll.{OnPending, IfReady};
ghost use Rattle.futures.specs.declared.task.context.Context.{Context};
ghost use Rattle.futures.specs.declared.task.Poll.{Poll};
ghost use Rattle.tower_base.specs.Monotonic.{IsMonotonic};
ghost use Rattle.futures.specs.declared.task.Poll.TheVariants.{Ready};

mod plain;
mod polled;
mod sleep;
mod spawners;
mod stepping;
mod system;

use futures::stream::Stream;
use futures::task::{Context, Poll};
pub use polled::Polled;
pub use sleep::Sleep;
pub use stepping::Stepping;
pub use system::SystemClock;

/// A future whose poll is specified by a relation, which proofs about its users may use.
///
/// It has the members of `Future`, but `Future` isn't a bound. Each instance of a trait that a call
/// needs is written out once for every path to it, and with two paths down a stack their number doubles
/// at each layer.
pub trait Steps: Drop {
    type Output;

    // `step` may be called.
    ghost can_poll: { Self → Type 0 } = { λ _. ⊤ };

    // Holds for each source that the future waits for.
    ghost needs: { Self → ℕ → Type 0 } = { λ _ _. ⊥ };

    // A poll may return this and leave the second value. If this is left out, nothing is known of what
    // it returns.
    ghost stepped: { Self → Poll Self.Output → Self → Type 0 } = { λ _ _ _. ⊤ };

    // A poll that led from the first value to the second may have asked for another poll. If this is left
    // out, it isn't known when.
    ghost stirs: { Self → Self → Type 0 } = { λ _ _. ⊤ };

    /// Polls the future once. `Future::poll` is this call.
    fn step(&mut self, cx: &mut Context<'_>) -> Poll<Self::Output>
        requires { can_poll self.old }
        ensures step { stepped self.old result self.new }
        // A pending future may be polled again. Its task is registered at each source that it waits for, or
        // asked for another poll.
        ensures again { OnPending result (can_poll self.new) }
        ensures registered { OnPending result (Covers cx.new (needs self.new)) }
        // It asks for another poll only for a cause that it names.
        ensures quiet { Quiet (stirs self.old self.new) cx.old cx.new }
        ensures kept { Keeps cx.old cx.new };
}

/// A stream whose poll is specified by a relation, which proofs about its users may use.
pub trait Flow: Stream {
    // A poll may return this and leave the second value. If this is left out, nothing is known of what
    // it returns.
    ghost flowed: { Self → Poll (Option Self.Item) → Self → Type 0 } = { λ _ _ _. ⊤ };

    // A poll that led from the first value to the second may have asked for another poll. If this is left
    // out, it isn't known when.
    ghost stirs: { Self → Self → Type 0 } = { λ _ _. ⊤ };

    /// Polls the stream once. `Stream::poll_next` is this call.
    fn flow(&mut self, cx: &mut Context<'_>) -> Poll<Option<Self::Item>>
        requires { Self.can_poll self.old }
        ensures flow { flowed self.old result self.new }
        ensures goes { IfReady result (λ item. OnSome item (Self.can_poll self.new)) }
        ensures again { OnPending result (Self.can_poll self.new) }
        ensures registered { OnPending result (Covers cx.new (Self.needs self.new)) }
        // It asks for another poll only for a cause that it names.
        ensures quiet { Quiet (stirs self.old self.new) cx.old cx.new }
        ensures kept { Keeps cx.old cx.new };
}

/// An asynchronous function from a request to a response. It is the Rust's `tower_service::Service`.
///
/// A caller polls `poll_ready` until it returns `Ok`, and then makes one call. If `ready`, `polled` and
/// `called` are left out, the service may always be called, and nothing is known of what it returns: then
/// `ghost readies = { λ _ _ _. tt };` is its only ghost line.
pub trait Service<Request>: Drop {
    type Response: Drop;

    type Error: Drop;

    type Future: Steps<Output = Result<Self::Response, Self::Error>>;

    // It holds after construction, and every call preserves it.
    ghost sound: { Self → Type 0 } = { λ _. ⊤ };

    // A call may be made.
    ghost ready: { Self → Type 0 } = { λ _. ⊤ };

    // A poll of readiness may return this and leave the second value.
    ghost polled: { Self → Poll (Result (Unit {0}) Self.Error) → Self → Type 0 } = { λ _ _ _. ⊤ };

    // Holds for each source that a pending poll of readiness waits for. If this is left out, it isn't
    // known where it waits.
    ghost needs: { Self → ℕ → Type 0 } = { λ _ _. ⊥ };

    // A poll of readiness that led from the first value to the second may have asked for another poll. If
    // this is left out, it isn't known when.
    ghost stirs: { Self → Self → Type 0 } = { λ _ _. ⊤ };

    // A call with the request may return this future and leave the second value.
    ghost called: { Self → Request → Self.Future → Self → Type 0 } = { λ _ _ _ _. ⊤ };

    /// Polls the service's readiness for a call. An error means that the service can't be used any more,
    /// but for `Memory` and `NotSpawned`, after which the next poll tries again, and for a service that says
    /// otherwise: a `Reconnect` and a `Balance` go on.
    fn poll_ready(&mut self, cx: &mut Context<'_>) -> Poll<Result<(), Self::Error>>
        requires { sound self.old }
        ensures polled { polled self.old result self.new }
        ensures sound { sound self.new }
        // If it is pending, the task is registered at each source that it waits for, or asked for another
        // poll.
        ensures armed { OnPending result (IsArmed cx.new) }
        ensures heard { OnPending result ((s : ℕ) → needs self.new s → Hears cx.new s) }
        // It asks for another poll only for a cause that it names.
        ensures quiet { Quiet (stirs self.old self.new) cx.old cx.new }
        ensures kept { Keeps cx.old cx.new };

    /// Calls the service with the request, and returns the future of its response.
    fn call(&mut self, request: Request) -> Self::Future
        requires sound { sound self.old }
        requires ready { ready self.old }
        ensures sound { sound self.new }
        ensures called { called self.old request result self.new }
        ensures can_poll { Self.Future.can_poll result };

    // If `poll_ready` returns `Ok`, it leaves a value that is ready.
    ghost readies: { (old new : Self) → polled old (Ready (Ok tt)) new → ready new };
}

/// A clock, which may stand still and may go back. It takes the place of tokio's timer.
pub trait Clock: Drop {
    // The last reading. It can't be left out, because specs of what waits name the moment that was read.
    ghost reading: { Self → ℕ };

    // One reading may leave the second value. If this is left out, it isn't known how often the clock is
    // read.
    ghost read: { Self → Self → Type 0 } = { λ _ _. ⊤ };

    // The second value is another handle to the clock of the first. If this is left out, handles aren't
    // known to agree.
    ghost shared: { Self → Self → Type 0 } = { λ _ _. ⊤ };

    // Holds for each source at which `wake_at` leaves the task.
    ghost hears: { Self → ℕ → Type 0 } = { λ _ _. ⊤ };

    // The context shows that the task is polled again by this moment. If this is left out, it isn't
    // known.
    ghost wakes_by: { Self → ℕ → Context → Type 0 } = { λ _ _ _. ⊤ };

    // A call of `wake_at` that left this value may have asked for another poll. If this is left out, it
    // isn't known when.
    ghost stirs: { Self → Type 0 } = { λ _. ⊤ };

    /// Reads the clock and returns the current moment, in nanoseconds.
    fn now(&mut self) -> u64
        ensures moment { result ≡ reading self.new }
        ensures read { read self.old self.new };

    /// Returns another handle to the same clock. It doesn't allocate, and doesn't read the clock.
    fn share(&self) -> Self
        ensures { shared self.now result };

    /// Has the task polled again at the deadline (a moment of this clock, in nanoseconds), soon after it, or
    /// sooner. Doesn't read the clock.
    fn wake_at(&mut self, deadline: u128, cx: &mut Context<'_>)
        ensures registered { Covers cx.new (hears self.new) }
        ensures timed { (cx.new.is_woken ≡ true) ⊎ wakes_by self.new deadline cx.new }
        ensures quiet { Quiet (stirs self.new) cx.old cx.new }
        ensures kept { Keeps cx.old cx.new }
        ensures same { reading self.new ≡ reading self.old }
        ensures unread { (first : Self) → read first self.old → read first self.new };
}

/// A clock that never goes back: no reading is before the last one.
pub trait Monotonic: Clock {
    ghost forward: { IsMonotonic Self.reading Self.read };
}

/// An executor, which runs tasks beside the caller. It takes the place of tokio's `spawn`.
pub trait Executor<T> {
    // The task may be spawned.
    ghost can_spawn: { Self → T → Type 0 } = { λ _ _. ⊤ };

    // A spawn of the task may return this. If this is left out, it isn't known which tasks are accepted.
    ghost spawned: { Self → T → Result (Unit {0}) T → Type 0 } = { λ _ _ _. ⊤ };

    /// Spawns the task. If the executor doesn't accept it, returns it unchanged as the error.
    fn spawn(&self, task: T) -> Result<(), T>
        requires { can_spawn self.now task }
        ensures spawned { spawned self.now task result }
        ensures given_back { IfErr result (λ back. back ≡ task) };
}

/// A fraction whose divisor isn't zero.
#[derive(Clone, Copy, Debug, PartialEq, Eq)]
pub struct Fraction {
    pub numerator: u32,
    pub divisor: u32,
    ghost divides: { divisor ≢ 0 },
}

impl Fraction {
    /// Creates a fraction. It requires a divisor that isn't zero, which `fits` checks.
    pub fn new(numerator: u32, divisor: u32) -> Fraction
        requires { divisor ≢ 0 }
        ensures numerator { result.numerator ≡ numerator }
        ensures divisor { result.divisor ≡ divisor }
    {
        Fraction { numerator, divisor }
    }

    /// Returns whether the divisor isn't zero.
    pub fn fits(_numerator: u32, divisor: u32) -> bool
        ensures { IsTrue result ↔ (divisor ≢ 0) }
    {
        divisor != 0
    }
}
