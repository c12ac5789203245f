//! Laws: which actions on hedges, balancers, `SpawnReady` and workers of buffers reach the services inside.
//! The Rust has no such module. Most middleware has its law beside it; these are here because there is no
//! room for them there.
ghost use Rattle.tower_base.specs.ServiceRun.{Takes, relations};
ghost use Rattle.tower_base.specs.Projection.{AtMostOnce, ByAction, MappedOrNone, Never, Once, Projects};
ghost use Rattle.tower_retry.specs.Delay.{Stepped as DelayStepped};
ghost use Rattle.tower_buffer.specs.Worker.{Stepped as WorkerStepped};
ghost use Rattle.tower_pool.specs.Balance.{view_of as view_of_balance};
ghost use Rattle.tower.specs.Projections.{Copies, EachEndpoint, LedTo, MayBeEndpoint, RunsHere, RunsInDelay, RunsInTask, RunsInWorker};
ghost use Rattle.tower_pool.specs.SpawnReady.{TaskStepped, view_of};

use std::convert::Infallible;
use std::hash::Hash;
use tower_base::service::{Clock, Executor, Service};
use tower_base::util::rng::Rng;
use tower_buffer::buffer::MailCore;
use tower_latch::Latch;
use tower_latch::held::{Pollable, Viewed};
use tower_limit::discover::Discover;
use tower_limit::load::Load;
use tower_pool::balance::p2c::Balance;
use tower_pool::spawn_ready::{ReadyTask, SlotCore, SpawnReady};
use tower_retry::hedge::Flat;
use tower_retry::hedge::delay::{self, Delay};
use tower_retry::hedge::latency::{Latency, Record};
use tower_retry::hedge::select::{self, Select};
use tower_ware::filter;

/// Each call goes to the inner service, once.
pub fn latency<Q, R: Record + Clone, S: Service<Q>, C: Clock>()
    ensures { Projects (relations ⟦<Latency<R, S, C> as Service<Q>>⟧) (relations S.Service)
        (λ l. l.service) Once }
{}

/// Each call goes to the first service, once. A copy of its request goes to the second, if the policy makes
/// one.
pub fn select<Q, P: select::Policy<Q>, A: Service<Q>, B: Service<Q, Response = A::Response>>()
    ensures first { Projects (relations ⟦<Select<P, A, B> as Service<Q>>⟧) (relations A.Service)
        (λ s. s.a) Once }
    ensures second { Projects (relations ⟦<Select<P, A, B> as Service<Q>>⟧) (relations B.Service)
        (λ s. s.b) (MappedOrNone (Copies P.Policy)) }
{}

/// Nothing reaches the service itself: a call clones it. The clone in the future is called once, after the
/// delay, or fails.
pub fn delay<Q: Drop, P: delay::Policy<Q>, S: Service<Q> + Clone, C: Clock>()
    ensures inside { Projects (relations ⟦<Delay<P, S, C> as Service<Q>>⟧) (relations S.Service)
        (λ d. d.service) Never }
    ensures future { (old new : _) (answer : _) → DelayStepped S.Service S.Future.stepped C.Clock
        old answer new → RunsInDelay S.Service old new }
{}

/// Each call goes, once, to the inner service: a `Select` over the two sides.
pub fn hedge<Q, T: Drop, E: Drop, N>()
where
    N: Service<
        Q,
        Response = T,
        Error = select::Error<E, delay::Error<filter::Error<E, Infallible>>>,
    >,
    ensures { Projects (relations ⟦<Flat<N> as Service<Q>>⟧) (relations N.Service) (λ n. n) Once }
{}

/// A poll of a buffer's worker is a run of its service. Each request of the run comes from a message that
/// the worker kept or took from the mail.
pub fn worker<Q: Drop, S: Service<Q>, L>()
where
    S::Error: Clone,
    L: Latch<MailCore<Q, Pollable<S::Future>, S::Error>>,
    ensures { (old new : _) (answer : _) → WorkerStepped L.gave S.Service old answer new
        → RunsInWorker L.gave S.Service old new }
{}

/// Each call goes, once, to the service that is here. A service that comes back from a task came from its
/// slot, and a task never calls its service.
pub fn spawn_ready<Q, S, E, X, L>()
where
    E: Drop,
    S: Service<Q, Error = E>,
    X: Executor<ReadyTask<S, Q, E, L>> + Drop,
    L: Latch<SlotCore<Viewed<S, Q>, E>>,
    ensures inside { (old : _) (action : _) (new : _)
        → Takes (relations ⟦<SpawnReady<S, Q, E, X, L> as Service<Q>>⟧) old action new
        → RunsHere S.Service L.Latch (view_of old) action (view_of new) }
    ensures task { (old new : _) (answer : _) → TaskStepped L.Latch S.Service old answer new
        → RunsInTask S.Service L.Latch old new }
{}

/// A run leads to each endpoint, from one that was there before or that the discovery inserted since. A
/// call makes its request to each of them at most once.
pub fn balance<K, S, X, D, R, Q>()
where
    K: Eq + Hash + Clone + Drop,
    S: Service<Q> + Load,
    X: Drop,
    D: Discover<Key = K, Service = S, Error = X>,
    R: Rng,
    ensures { (old : _) (action : _) (new : _)
        → Takes (relations ⟦<Balance<D, R, Q> as Service<Q>>⟧) old action new
        → EachEndpoint D.discovered (LedTo S.Service
        (MayBeEndpoint D.discovered (view_of_balance old)) (ByAction AtMostOnce action))
        (view_of_balance new) }
{}
