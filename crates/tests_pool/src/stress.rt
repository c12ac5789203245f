//! A balancer whose endpoints come, go, fail and get ready as a generator draws. Its own service is such an endpoint, unscripted.
ghost use Rattle.std.specs.Prelude.{⊤, ◌≡◌, Ok, true, refl};
ghost use Rattle.futures.specs.declared.task.Poll.TheVariants.{Ready};

use futures::future::{Ready, ready};
use futures::task::{Context, Poll, Solo};
use std::cell::Cell;
use std::convert::Infallible;
use std::test::Fail;
use tests_support::checks::Checks;
use tests_support::run::{readiness, task};
use tower_base::service::Service;
use tower_base::util::rng::Rng;
use tower_limit::discover::{Change, Discover};
use tower_limit::load::Load;
use tower_pool::balance::p2c::Balance;

// How many endpoints there may be, and how many steps are made.
const ROOM: usize = 16;

const STEPS: u16 = 10_000;

/// What an endpoint of a number is doing.
#[derive(Clone, Copy, Debug, PartialEq, Eq)]
enum State {
    /// There is none.
    Free,
    /// It waits in the discovery, or is to be removed by it.
    Coming,
    Going,
    Busy,
    Willing,
    Broken,
}

/// The states of all endpoints, the words that were drawn, and how many faults were seen.
#[derive(Drop)]
struct Field {
    states: Cell<[State; ROOM]>,
    seed: Cell<u64>,
    faults: Cell<u32>,
}

impl Field {
    fn new() -> Field {
        Field {
            states: Cell::new([State::Free; ROOM]),
            seed: Cell::new(1),
            faults: Cell::new(0),
        }
    }

    fn of(&self, number: usize) -> State {
        self.states
            .get()
            .get(number)
            .copied()
            .unwrap_or(State::Free)
    }

    fn set(&self, number: usize, state: State) {
        let mut states = self.states.get();
        if number < ROOM {
            states[number] = state;
        }
        self.states.set(states);
    }

    // The first endpoint of this state from this number on, round the end.
    fn find(&self, state: State, from: usize) -> Option<usize> {
        for step in 0..ROOM {
            let number = (from % ROOM + step) % ROOM;
            if self.of(number) == state {
                return Some(number);
            }
        }
        None
    }

    fn change(&self, from: State, to: State) {
        let start = self.word() as usize;
        if let Some(number) = self.find(from, start) {
            self.set(number, to);
        }
    }

    fn word(&self) -> u64 {
        let seed = self
            .seed
            .get()
            .wrapping_mul(6364136223846793005)
            .wrapping_add(1442695040888963407);
        self.seed.set(seed);
        seed >> 33
    }

    fn fault(&self) {
        self.faults.set(self.faults.get().saturating_add(1));
    }
}

/// The error of an endpoint.
#[derive(Debug, Drop)]
struct Doom;

/// An endpoint that does what its state says. A call makes it busy.
struct Endpoint<'a> {
    field: &'a Field,
    number: usize,
    is_ready: bool,
}

impl<'a> Drop for Endpoint<'a> {
    fn drop(self) {
        self.field.set(self.number, State::Free);
        let Endpoint {
            field: _,
            number: _,
            is_ready: _,
        } = self;
    }
}

impl<'a> Load for Endpoint<'a> {
    type Metric = u64;

    ghost loaded = { λ _ _. ⊤ };

    fn load(&self) -> u64 {
        self.field.word()
    }
}

impl<'a> Service<u8> for Endpoint<'a> {
    type Response = u8;

    type Error = Doom;

    type Future = Ready<Result<u8, Doom>>;

    ghost ready = { λ e. e.is_ready ≡ true };

    ghost polled = { λ old answer new. (answer ≡ Ready (Ok tt)) → (new.is_ready ≡ true) };

    ghost called = { λ _ _ _ _. ⊤ };

    ghost readies = { λ old new p. p refl };

    fn poll_ready(&mut self, cx: &mut Context<'_>) -> Poll<Result<(), Doom>> {
        let state = self.field.of(self.number);
        self.is_ready = matches!(state, State::Willing);
        match state {
            State::Willing => Poll::Ready(Ok(())),
            State::Broken => Poll::Ready(Err(Doom)),
            _ => cx.yield_now(),
        }
    }

    fn call(&mut self, request: u8) -> Ready<Result<u8, Doom>> {
        if self.field.of(self.number) != State::Willing {
            self.field.fault();
        }
        self.field.set(self.number, State::Busy);
        ready(Ok(request))
    }
}

/// Inserts each endpoint that is coming, and removes each that is going.
#[derive(Drop)]
struct Changes<'a> {
    field: &'a Field,
}

impl<'a> Discover for Changes<'a> {
    type Key = usize;

    type Service = Endpoint<'a>;

    type Error = Infallible;

    ghost discovered = { λ _ _ _. ⊤ };

    fn poll_discover(
        &mut self,
        cx: &mut Context<'_>,
    ) -> Poll<Option<Result<Change<usize, Endpoint<'a>>, Infallible>>> {
        if let Some(number) = self.field.find(State::Coming, 0) {
            self.field.set(number, State::Busy);
            let endpoint = Endpoint {
                field: self.field,
                number,
                is_ready: false,
            };
            return Poll::Ready(Some(Ok(Change::Insert(number, endpoint))));
        }
        if let Some(number) = self.field.find(State::Going, 0) {
            self.field.set(number, State::Busy);
            return Poll::Ready(Some(Ok(Change::Remove(number))));
        }
        cx.yield_now()
    }
}

/// The field's words.
#[derive(Drop)]
struct Drawn<'a> {
    field: &'a Field,
}

impl<'a> Rng for Drawn<'a> {
    fn next_u64(&mut self) -> u64 {
        self.field.word()
    }
}

// A poll is ready exactly where some endpoint is willing. Half of the polls that are ready are followed by a call.
fn poll<B>(solo: &Solo, field: &Field, balance: &mut B)
where
    B: Service<u8>,
    requires { B.sound balance.old }
    ensures { B.sound balance.new }
{
    match readiness(solo, balance) {
        Poll::Ready(Ok(())) => {
            if field.find(State::Willing, 0).is_none() {
                field.fault();
            }
            if field.word() % 2 == 0 {
                drop(balance.call(1));
            }
        }
        Poll::Ready(Err(_)) => field.fault(),
        Poll::Pending => {
            if field.find(State::Willing, 0).is_some() {
                field.fault();
            }
        }
    }
}

// One to eight changes, and then a poll.
fn step<B>(solo: &Solo, field: &Field, balance: &mut B)
where
    B: Service<u8>,
    requires { B.sound balance.old }
    ensures { B.sound balance.new }
{
    for _ in 0..field.word() % 8 + 1 {
        match field.word() % 9 {
            0..=2 => field.change(State::Free, State::Coming),
            3..=5 => field.change(State::Busy, State::Willing),
            6 => field.change(State::Willing, State::Broken),
            7 => field.change(State::Busy, State::Going),
            _ => field.change(State::Willing, State::Going),
        }
    }
    poll(solo, field, balance);
}

#[test]
fn stress(rt: HostRuntime) -> Result<(), Fail> {
    let checks = Checks::new(rt.alloc());
    let field = Field::new();
    let mut balance = Balance::from_rng(
        rt.alloc(),
        Changes { field: &field },
        Drawn { field: &field },
    );
    let solo = task(&rt)?;
    for _ in 0..STEPS {
        step(&solo, &field, &mut balance);
    }
    checks.same(&field.faults.get(), &0);
    checks.holds(!balance.is_empty());
    drop(balance);
    checks.same(&field.states.get(), &[State::Free; ROOM]);
    checks.verdict()
}
