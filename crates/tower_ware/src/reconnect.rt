//! A service that connects again if its connection fails: the Rust's `tower::reconnect`.
ghost use Rattle.std.specs.Prelude.{◌≡◌, ℕ, Some, None, IfSome};
ghost use Rattle.futures.specs.Task.{Hears, IsArmed, Keeps};
ghost use Rattle.futures.specs.Poll.{OnPending};
ghost use Rattle.tower_base.specs.LastIteration.{AnsweredOrWoken};
ghost use Rattle.tower_base.specs.Quiet.{Quiet};
ghost use Rattle.tower_ware.specs.Reconnect.{Called, IsReady, Needs, Iteration, Polled, Sound, Stirs, StirsOnce, view_of};
ghost use Rattle.tower_ware.specs.ReconnectReady.{polled_ok};
ghost use Rattle.tower_ware.specs.Projections.{Continues};
ghost use Rattle.tower_base.specs.ServiceRun.{Takes, relations};
ghost use Rattle.tower_base.specs.Projection.{AtMostOnce, ByAction};
ghost use Rattle.tower_ware.specs.declared.reconnect.state.State.TheVariants.{Idle, Connected};

mod error;
mod future;
mod state;

pub use error::Error;
pub use future::ResponseFuture;
use futures::task::{Context, Poll};
use state::{Reply, State};
use tower_base::iterations::TURNS;
use tower_base::service::{Service, Steps};

/// A service that connects to its target with its maker, and connects again if the connection's readiness
/// fails: the Rust's `tower::reconnect::Reconnect`.
///
/// If a connect fails, the poll returns `Ok`, and the next call returns the error of the connect; the error
/// of a later failed connect replaces it. If the maker's readiness fails, the poll returns the error as
/// `Make` and begins no connect. If cloning the target fails, the poll returns `Memory`, and the next poll
/// tries again. A poll makes at most 64 iterations; then it is pending and has woken its own task.
#[derive(Drop)]
// (A `Model` over the bound couldn't be used at a closure's type, so clauses say `view_of`.)
pub struct Reconnect<M: Service<Target>, Target> {
    maker: M,
    state: State<M::Future, M::Response>,
    target: Target,
    error: Option<M::Error>,
}

impl<M: Service<Target>, Target> Reconnect<M, Target> {
    /// Creates a `Reconnect` that connects at its first poll.
    pub fn new(maker: M, target: Target) -> Reconnect<M, Target>
        ensures { view_of result
            ≡ record { maker = maker; state = Idle; target = target; error = None } }
    {
        Reconnect {
            maker,
            state: State::Idle,
            target,
            error: None,
        }
    }

    /// Creates a `Reconnect` that begins with the given connection.
    pub fn with_connection(service: M::Response, maker: M, target: Target) -> Reconnect<M, Target>
        ensures { view_of result
            ≡ record { maker = maker; state = Connected service; target = target; error = None } }
    {
        Reconnect {
            maker,
            state: State::Connected(service),
            target,
            error: None,
        }
    }
}

impl<Request, M, S, Target> Service<Request> for Reconnect<M, Target>
where
    M: Service<Target, Response = S>,
    S: Service<Request>,
    Request: Drop,
    Target: Clone + Drop,
{
    type Response = S::Response;

    type Error = Error<S::Error, M::Error>;

    type Future = ResponseFuture<S::Future, M::Error>;

    ghost sound = { λ r. Sound M.Service M.Future.Steps.own M.Future.can_poll S.sound (view_of r) };

    ghost ready = { λ r. IsReady S.Service (view_of r) };

    ghost polled = { λ old answer new. Polled M.Service M.Future.Steps.own S.Service Target.Clone
        (view_of old) answer (view_of new) };

    ghost needs = { λ r. Needs M.needs M.Future.needs S.needs (view_of r) };

    ghost stirs = { λ old new. Stirs M.Service M.Future.Steps.own S.Service Target.Clone
        (view_of old) (view_of new) };

    ghost called = { λ old request future new. Called S.Service (view_of old)
        request future (view_of new) };

    ghost readies = { λ old new p. polled_ok S.readies (view_of old) (view_of new) p };

    fn poll_ready(&mut self, cx: &mut Context<'_>) -> Poll<Result<(), Self::Error>>
        requires { Sound M.Service M.Future.Steps.own M.Future.can_poll S.sound (view_of self.old) }
        ensures polled { Polled M.Service M.Future.Steps.own S.Service Target.Clone
            (view_of self.old) result (view_of self.new) }
        ensures sound { Sound M.Service M.Future.Steps.own M.Future.can_poll S.sound
            (view_of self.new) }
        ensures woken { AnsweredOrWoken (Iteration M.Service M.Future.Steps.own S.Service
            Target.Clone) (view_of self.old) result (view_of self.new) cx.new.is_woken }
        ensures armed { OnPending result (IsArmed cx.new) }
        ensures heard { OnPending result
            ((s : ℕ) → Needs M.needs M.Future.needs S.needs (view_of self.new) s → Hears cx.new s) }
        ensures quiet { Quiet (Stirs M.Service M.Future.Steps.own S.Service Target.Clone
            (view_of self.old) (view_of self.new)) cx.old cx.new }
        ensures kept { Keeps cx.old cx.new }
    {
        for _iteration in 0..TURNS {
            if let Some(answer) = iterate_once::<Request, M, S, Target>(self, cx) {
                return answer;
            }
        }
        cx.yield_now()
    }

    fn call(&mut self, request: Request) -> Self::Future {
        if let Some(error) = self.error.take() {
            return ResponseFuture::new(Reply::Failed(Some(error)));
        }
        match &mut self.state {
            State::Idle => unreachable!(),
            State::Connecting(_) => unreachable!(),
            State::Connected(service) => ResponseFuture::new(Reply::InFlight(service.call(
                request,
            ))),
        }
    }
}

/// States that each call makes at most one call of the connection, with the same request, from the
/// creation of the connection on.
pub fn projection<Request, M, S, Target>()
where
    M: Service<Target, Response = S>,
    S: Service<Request>,
    Request: Drop,
    Target: Clone + Drop,
    ensures { (old : _) (action : _) (new : _)
        → Takes (relations ⟦<Reconnect<M, Target> as Service<Request>>⟧) old action new
        → Continues S.Service M.Future.Steps.own (ByAction AtMostOnce action) (view_of old).state
        (view_of new).state }
{}

type Answer<E, M> = Poll<Result<(), Error<E, M>>>;

// Makes one iteration. Returns the answer of the poll, or `None` if another iteration follows.
fn iterate_once<Request, M, S, Target>(
    reconnect: &mut Reconnect<M, Target>,
    cx: &mut Context<'_>,
) -> Option<Answer<S::Error, M::Error>>
where
    M: Service<Target, Response = S>,
    S: Service<Request>,
    Target: Clone + Drop,
    requires { Sound M.Service M.Future.Steps.own M.Future.can_poll S.sound
        (view_of reconnect.old) }
    ensures iteration { Iteration M.Service M.Future.Steps.own S.Service Target.Clone
        (view_of reconnect.old) result (view_of reconnect.new) }
    ensures sound { Sound M.Service M.Future.Steps.own M.Future.can_poll S.sound
        (view_of reconnect.new) }
    ensures armed { IfSome result (λ answer. OnPending answer (IsArmed cx.new)) }
    ensures heard { IfSome result (λ answer. OnPending answer ((s : ℕ)
        → Needs M.needs M.Future.needs S.needs (view_of reconnect.new) s → Hears cx.new s)) }
    ensures quiet { Quiet (StirsOnce M.Service M.Future.Steps.own S.Service Target.Clone
        (view_of reconnect.old)) cx.old cx.new }
    ensures kept { Keeps cx.old cx.new }
{
    match &mut reconnect.state {
        State::Idle => match reconnect.maker.poll_ready(cx) {
            Poll::Pending => Some(Poll::Pending),
            Poll::Ready(Err(error)) => Some(Poll::Ready(Err(Error::Make(error)))),
            Poll::Ready(Ok(())) => {
                let Ok(target) = reconnect.target.clone() else {
                    return Some(Poll::Ready(Err(Error::Memory)));
                };
                reconnect.state = State::Connecting(reconnect.maker.call(target));
                None
            }
        },
        State::Connecting(connect) => match connect.step(cx) {
            Poll::Pending => Some(Poll::Pending),
            Poll::Ready(Ok(service)) => {
                reconnect.state = State::Connected(service);
                None
            }
            Poll::Ready(Err(error)) => {
                reconnect.state = State::Idle;
                reconnect.error = Some(error);
                Some(Poll::Ready(Ok(())))
            }
        },
        State::Connected(service) => match service.poll_ready(cx) {
            Poll::Pending => Some(Poll::Pending),
            Poll::Ready(Ok(())) => Some(Poll::Ready(Ok(()))),
            Poll::Ready(Err(_)) => {
                reconnect.state = State::Idle;
                None
            }
        },
    }
}
