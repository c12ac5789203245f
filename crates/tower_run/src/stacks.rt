//! The stacks that a script can drive.
ghost use Rattle.std.specs.Prelude.{◌≡◌, ◌≢◌, MatchOption};
ghost use Rattle.tower_run.specs.Words.{name_of};

use crate::refusal::Refusal;
use crate::script::{Command, Word};
use crate::scripted::{Scripted, State};
use crate::transcript;
use futures::task::{Doorbell, Solo};
use std::alloc::{AllocError, AllocGlobal, Global};
use std::io;
use std::random::RandomSource;
use std::sync::Wait;
use tower::ServiceBuilder;
use tower_base::drive::{Event, drive};
use tower_base::service::{Clock, Service};
use tower_limit::limit::rate::Rate;
use tower_limit::limit::{ConcurrencyLimit, RateLimit};
use tower_ware::load_shed::LoadShed;
use tower_ware::timeout::Timeout;

/// A stack of services over the scripted one.
#[derive(Clone, Copy)]
pub enum Stack {
    /// A response may take at most 10 nanoseconds.
    Timeout,
    /// At most two calls are made in any 10 nanoseconds.
    Rate,
    /// At most one call is in flight.
    Limit,
    /// A call is refused if the service isn't ready.
    Shed,
    /// All four: the timeout outermost, then the load shedding, the limit of calls in flight, and the rate
    /// limit.
    All,
}

impl Stack {
    /// Returns the stack of this name, if there is one.
    pub fn named(name: &str) -> Option<Stack>
        ensures { MatchOption result ((stack : Stack) → name.now ≢ name_of stack)
            (λ stack. name.now ≡ name_of stack) }
    {
        match name.as_bytes() {
            b"timeout" => Some(Stack::Timeout),
            b"rate" => Some(Stack::Rate),
            b"limit" => Some(Stack::Limit),
            b"shed" => Some(Stack::Shed),
            b"all" => Some(Stack::All),
            _ => None,
        }
    }

    /// Runs the commands, and returns the whole transcript. Returns an error if allocation fails.
    pub fn play<R: Wait + AllocGlobal + Copy>(
        self,
        rt: R,
        commands: Vec<Command<'_>>,
    ) -> Result<String, AllocError> {
        let alloc = rt.alloc();
        let calls = commands
            .iter()
            .filter(|command| matches!(command, Event::Call(_)));
        let state = State::new(alloc, calls.count())?;
        match self {
            Stack::Timeout => timed(alloc, &state, commands),
            Stack::Rate => rated(alloc, &state, commands),
            Stack::Limit => limited(rt, alloc, &state, commands),
            Stack::Shed => perform(
                alloc,
                &state,
                LoadShed::new(Scripted::new(&state)),
                commands,
            ),
            Stack::All => layered(
                rt,
                alloc,
                &state,
                Scripted::new(&state),
                state.clock(),
                commands,
            ),
        }
    }
}

// Runs the commands under a `Timeout` of 10 nanoseconds.
fn timed<'a>(
    alloc: Global,
    state: &State<'a>,
    commands: Vec<Command<'a>>,
) -> Result<String, AllocError> {
    let service = Timeout::new(Scripted::new(state), 10, state.clock());
    perform(alloc, state, service, commands)
}

// Runs the commands under a `RateLimit` of 2 calls per 10 nanoseconds.
fn rated<'a>(
    alloc: Global,
    state: &State<'a>,
    commands: Vec<Command<'a>>,
) -> Result<String, AllocError> {
    let inner = Scripted::new(state);
    let service = RateLimit::new(alloc, inner, Rate::new(2, 10), state.clock())?;
    perform(alloc, state, service, commands)
}

// Runs the commands under a `ConcurrencyLimit` of 1 call.
fn limited<'a, R: Wait + Copy>(
    rt: R,
    alloc: Global,
    state: &State<'a>,
    commands: Vec<Command<'a>>,
) -> Result<String, AllocError> {
    let service = ConcurrencyLimit::new(rt, alloc, Scripted::new(state), 1)?;
    perform(alloc, state, service, commands)
}

// Runs the commands under all four, the timeout outermost and the rate limit innermost, as the types say.
// Stacked in one function, they exceed the check's steps.
fn layered<'a, R, S, C>(
    rt: R,
    alloc: Global,
    state: &State<'a>,
    inner: S,
    clock: C,
    commands: Vec<Command<'a>>,
) -> Result<String, AllocError>
where
    R: Wait + Copy,
    S: Service<Word<'a>, Response = Word<'a>>,
    S::Error: Refusal,
    C: Clock,
    requires { S.sound inner }
{
    let limits = ServiceBuilder::new()
        .concurrency_limit(rt, alloc, 1)
        .rate_limit(alloc, 2, 10, clock.share());
    let service: ConcurrencyLimit<RateLimit<S, C>, _> = limits.service(inner)?;
    shed(alloc, state, service, clock, commands)
}

// Runs the commands under a `Timeout` of 10 nanoseconds and a `LoadShed`, in this order.
fn shed<'a, S, C>(
    alloc: Global,
    state: &State<'a>,
    inner: S,
    clock: C,
    commands: Vec<Command<'a>>,
) -> Result<String, AllocError>
where
    S: Service<Word<'a>, Response = Word<'a>>,
    S::Error: Refusal,
    C: Clock,
    requires { S.sound inner }
{
    let layers = ServiceBuilder::new().timeout(10, clock).load_shed();
    let service: Timeout<LoadShed<S>, C> = layers.service(inner)?;
    perform(alloc, state, service, commands)
}

// Drives the service by the commands, and returns the text of the transcript.
fn perform<'a, S>(
    alloc: Global,
    state: &State<'a>,
    service: S,
    commands: Vec<Command<'a>>,
) -> Result<String, AllocError>
where
    S: Service<Word<'a>, Response = Word<'a>>,
    S::Error: Refusal,
    requires { S.sound service }
{
    let solo = Solo::new(&(Unnamed, alloc), Doorbell::spinning()).map_err(|_| AllocError)?;
    let mut cx = solo.begin();
    let transcript = drive(alloc, &mut cx, service, commands, |turn| state.turn(turn));
    cx.cancel();
    let mut text = transcript::print(alloc, &transcript?)?;
    let (polls, calls) = (state.polls(), state.calls());
    writeln!(text, "inner polls {polls} calls {calls}")?;
    Ok(text)
}

// The source of the name of a task that is the only one: zeros instead of random bytes.
#[derive(Drop)]
struct Unnamed;

impl RandomSource for Unnamed {
    fn fill_bytes(&self, buf: &mut [u8]) -> io::Result<()> {
        buf.fill(0);
        Ok(())
    }
}
