//! A maker of balancers.
ghost use Rattle.std.specs.Prelude.{◌≡◌};
ghost use Rattle.tower_base.specs.AnswersLemmas.{answered_ok};
ghost use Rattle.tower_base.specs.Gives.{IsStep, MayGive};
ghost use Rattle.tower_pool.specs.MakeBalance.{Called, CanPoll, IsClone, MakeBalanceView, Polled, Stepped, Stirs, needs_of};
ghost use Rattle.tower_pool.specs.declared.balance.error.MakeError.TheVariants.{Inner};
ghost use Rattle.tower_pool.specs.declared.balance.p2c.make.State.{State};

use crate::balance::error::MakeError;
use crate::balance::p2c::service::Balance;
use futures::future::Future;
use futures::task::{Context, Poll};
use std::alloc::{AllocError, Global};
use std::hash::Hash;
use std::marker::{Model, PhantomData};
use tower_base::service::{Service, Steps};
use tower_limit::discover::Discover;

/// A service that makes a balancer over each discovery that its maker returns: the Rust's
/// `tower::balance::p2c::MakeBalance`.
///
/// Each balancer draws by a clone of the generator. If that can't be cloned, the maker isn't called, and
/// the response is the error `Memory`. `K` is the type of the keys.
#[derive(Drop)]
pub struct MakeBalance<M, R, Req, K: Clone> {
    maker: M,
    rng: R,
    alloc: Global,
    of: PhantomData<(Req, K)>,
}

impl<M, R, Req, K: Clone> Model for MakeBalance<M, R, Req, K> {
    ghost Value = { MakeBalanceView M R };

    // The view leaves out `alloc`: it never changes, and has no state.
    ghost view = { λ m. record { maker = m.maker; rng = m.rng } };

    // `Balance::from_rng` requires it.
    ghost invariant = { λ _. (x y : K) → K.is_clone x y → y ≡ x };
}

impl<M, R, Req, K: Clone> MakeBalance<M, R, Req, K> {
    /// Creates a maker of balancers, without allocating. Requires that a clone of a key equals the key.
    pub fn new(alloc: Global, maker: M, rng: R) -> MakeBalance<M, R, Req, K>
        requires { (x y : K) → K.is_clone x y → y ≡ x }
        ensures { result ≡ record { maker = maker; rng = rng } }
    {
        MakeBalance {
            maker,
            rng,
            alloc,
            of: PhantomData,
        }
    }
}

impl<T, M, D, E, K, S, X, R, Req> Service<T> for MakeBalance<M, R, Req, K>
where
    T: Drop,
    M: Service<T, Response = D, Error = E>,
    E: Drop,
    K: Eq + Hash + Clone + Drop,
    S: Service<Req>,
    X: Drop,
    D: Discover<Key = K, Service = S, Error = X>,
    R: Clone + Drop,
{
    type Response = Balance<D, R, Req>;

    type Error = MakeError<E>;

    type Future = MakeFuture<M::Future, R, Req, K>;

    ghost sound = { λ m. M.sound m.maker };

    ghost ready = { λ m. M.ready m.maker };

    ghost polled = { Polled M.Service };

    ghost needs = { λ m. M.needs m.maker };

    ghost stirs = { λ old new. M.stirs old.maker new.maker };

    ghost called = { Called M.Service R.is_clone };

    ghost readies = { λ old new p. M.readies old.maker new.maker
        (let e = answered_ok Inner p.inner tt p.answers in Prim.rw e at p.polled) };

    fn poll_ready(&mut self, cx: &mut Context<'_>) -> Poll<Result<(), MakeError<E>>> {
        match self.maker.poll_ready(cx) {
            Poll::Ready(Ok(())) => Poll::Ready(Ok(())),
            Poll::Ready(Err(error)) => Poll::Ready(Err(MakeError::Inner(error))),
            Poll::Pending => Poll::Pending,
        }
    }

    fn call(&mut self, target: T) -> MakeFuture<M::Future, R, Req, K> {
        let state = match self.rng.clone() {
            Ok(rng) => State::Asked(self.maker.call(target), Some(rng)),
            Err(_) => State::Refused,
        };
        MakeFuture {
            state,
            alloc: self.alloc,
            of: PhantomData,
        }
    }
}

/// Clones the maker and the generator.
impl<M: Clone + Drop, R: Clone, Req, K: Clone> Clone for MakeBalance<M, R, Req, K> {
    ghost is_clone = { IsClone M.is_clone R.is_clone };

    fn clone(&self) -> Result<MakeBalance<M, R, Req, K>, AllocError> {
        let maker = self.maker.clone()?;
        let rng = self.rng.clone()?;
        Ok(MakeBalance::new(self.alloc, maker, rng))
    }
}

// A discovery that was requested, with the generator of its balancer until the balancer is made.
#[derive(Drop)]
enum State<F, R> {
    /// The maker's future, and the generator.
    Asked(F, Option<R>),
    /// The generator couldn't be cloned at the call.
    Refused,
}

/// The future of a balancer that is being made: the Rust's `tower::balance::p2c::MakeFuture`.
#[derive(Drop)]
pub struct MakeFuture<F, R, Req, K: Clone> {
    state: State<F, R>,
    alloc: Global,
    of: PhantomData<(Req, K)>,
}

impl<F, R, Req, K: Clone> Model for MakeFuture<F, R, Req, K> {
    ghost Value = { State F R };

    // The view leaves out `alloc`: it never changes, and has no state.
    ghost view = { λ f. f.state };

    // `Balance::from_rng` requires it.
    ghost invariant = { λ _. (x y : K) → K.is_clone x y → y ≡ x };
}

impl<F, D, E, K, S, X, R, Req> Future for MakeFuture<F, R, Req, K>
where
    F: Steps<Output = Result<D, E>>,
    K: Eq + Hash + Clone + Drop,
    S: Service<Req>,
    D: Discover<Key = K, Service = S, Error = X>,
    R: Drop,
{
    type Output = Result<Balance<D, R, Req>, MakeError<E>>;

    ghost can_poll = { CanPoll F.can_poll };

    ghost gives = { MayGive (Stepped F.Steps.own) };

    ghost needs = { needs_of F.needs };

    #[tactic(auto, using(tower_base::specs::GivesLemmas::one_step))]
    fn poll(&mut self, cx: &mut Context<'_>) -> Poll<Self::Output>
        requires { CanPoll F.can_poll self.old }
        ensures { IsStep (Stepped F.Steps.own) (CanPoll F.can_poll) (needs_of F.needs)
            self.old result self.new cx.old cx.new }
    {
        self.step(cx)
    }
}

impl<F, D, E, K, S, X, R, Req> Steps for MakeFuture<F, R, Req, K>
where
    F: Steps<Output = Result<D, E>>,
    K: Eq + Hash + Clone + Drop,
    S: Service<Req>,
    D: Discover<Key = K, Service = S, Error = X>,
    R: Drop,
{
    type Output = Result<Balance<D, R, Req>, MakeError<E>>;

    ghost can_poll = { CanPoll F.can_poll };

    ghost needs = { needs_of F.needs };

    ghost stepped = { Stepped F.Steps.own };

    ghost stirs = { Stirs F.stirs };

    fn step(&mut self, cx: &mut Context<'_>) -> Poll<Self::Output> {
        let State::Asked(discover, rng) = &mut self.state else {
            return Poll::Ready(Err(MakeError::Memory));
        };
        match discover.step(cx) {
            Poll::Ready(Ok(discover)) => {
                let rng = rng.take().unwrap();
                Poll::Ready(Ok(Balance::from_rng(self.alloc, discover, rng)))
            }
            Poll::Ready(Err(error)) => Poll::Ready(Err(MakeError::Inner(error))),
            Poll::Pending => Poll::Pending,
        }
    }
}
