//! The balancer.
ghost use Rattle.std.specs.Prelude.{◌≡◌, ◌<◌, ◌⊎◌, ◌↔◌, ℕ, Ok, IfSome, IsSome, IsTrue, OnOk, [], false, length};
ghost use Rattle.futures.specs.Poll.{OnPending};
ghost use Rattle.futures.specs.Task.{Hears, IsArmed, Keeps};
ghost use Rattle.tower_base.specs.LastIteration.{AnsweredOrWoken};
ghost use Rattle.tower_base.specs.Quiet.{Ever, Quiet};
ghost use Rattle.tower_base.specs.Rng.{New};
ghost use Rattle.tower_limit.specs.Discover.{MayInsert};
ghost use Rattle.tower_pool.specs.Balance.{AfterChanges, Called, Changed, Chooses, Chosen, Inserted, IsIdle, IsReady, Needs, Iteration, Polled, ReadStirs, Reads, ReadsAll, Sound, Stirs, count_of, initial, push_kept, view_of};
ghost use Rattle.tower_pool.specs.BalanceReady.{polled_ok};
ghost use Rattle.tower_pool.specs.ReadyCache.{HeardFrom, MayRefuse};

use crate::balance::error::Error;
use crate::balance::p2c::choose::{pick, promote};
use crate::balance::p2c::future::ResponseFuture;
use crate::ready_cache::ReadyCache;
use futures::future::{Future, Pending, pending};
use futures::task::{Context, Poll};
use std::alloc::Global;
use std::hash::Hash;
use tower_base::iterations::TURNS;
use tower_base::service::Service;
use tower_base::util::rng::{HasherRng, Rng};
use tower_limit::discover::{Change, Discover};
use tower_limit::load::Load;

/// A service that calls the lighter of two ready endpoints, which are drawn at random among those that its
/// discovery has inserted: the Rust's `tower::balance::p2c::Balance`.
///
/// A poll takes the discovery's changes, 64 at most, polls the pending endpoints, and chooses one that is
/// ready. An endpoint that fails is dropped. If the discovery fails, the poll returns its error, and the
/// next poll goes on. If allocation fails, the poll returns `Memory`, and no endpoint is lost. Once the
/// discovery has ended it isn't polled again.
///
/// A clone of a key must equal the key.
#[derive(Drop)]
pub struct Balance<D: Discover, R, Req>
where
    D::Key: Eq + Hash + Clone,
{
    discover: D,
    services: ReadyCache<D::Key, D::Service, Req>,
    kept: Option<usize>,
    rng: R,
    change: Option<(D::Key, D::Service)>,
    is_over: bool,
    never: Pending<()>,
}

type Answer<E, X> = Result<(), Error<E, X>>;

impl<K, S, X, D, Req> Balance<D, HasherRng, Req>
where
    K: Eq + Hash + Clone + Drop,
    S: Service<Req>,
    D: Discover<Key = K, Service = S, Error = X>,
{
    /// Creates a balancer that draws by a `HasherRng`, whose sequence of words is always the same. It
    /// doesn't allocate yet.
    pub fn new(alloc: Global, discover: D) -> Balance<D, HasherRng, Req>
        requires { (x y : K) → K.is_clone x y → y ≡ x }
        ensures parts { (rng : _) × New rng × (view_of result ≡ initial discover rng) }
        ensures sound { D.sound discover
            → ((key : K) (service : S) → MayInsert D.discovered discover key service
            → S.sound service) → Sound D.sound D.discovered S.sound (view_of result) }
    {
        Balance::from_rng(alloc, discover, HasherRng::new())
    }
}

impl<K, S, X, D, R, Req> Balance<D, R, Req>
where
    K: Eq + Hash + Clone + Drop,
    S: Service<Req>,
    D: Discover<Key = K, Service = S, Error = X>,
{
    /// Creates a balancer that draws by `rng`. It doesn't allocate yet.
    pub fn from_rng(alloc: Global, discover: D, rng: R) -> Balance<D, R, Req>
        requires { (x y : K) → K.is_clone x y → y ≡ x }
        ensures parts { view_of result ≡ initial discover rng }
        ensures sound { D.sound discover
            → ((key : K) (service : S) → MayInsert D.discovered discover key service
            → S.sound service) → Sound D.sound D.discovered S.sound (view_of result) }
    {
        Balance {
            discover,
            services: ReadyCache::new(alloc),
            kept: None,
            rng,
            change: None,
            is_over: false,
            never: pending(),
        }
    }
}

impl<K, S, X, D, R, Req> Balance<D, R, Req>
where
    K: Eq + Hash + Clone + Drop,
    S: Service<Req>,
    D: Discover<Key = K, Service = S, Error = X>,
{
    /// Returns the number of endpoints, ready or pending. Cancelled ones count until a poll drops them. An
    /// insert for which there was no room yet doesn't count.
    pub fn len(&self) -> usize
        ensures { result ≡ count_of (view_of self.now) }
    {
        self.services.len()
    }

    /// Returns whether there are no endpoints.
    pub fn is_empty(&self) -> bool
        ensures { IsTrue result ↔ (count_of (view_of self.now) ≡ 0) }
    {
        self.services.is_empty()
    }

    // Pushes an endpoint. If there is no room, it is kept for the next poll.
    fn insert(&mut self, key: K, service: S) -> Option<Answer<S::Error, X>>
        requires sound { Sound D.sound D.discovered S.sound (view_of self.old) }
        requires inserted { S.sound service }
        ensures inserted { Inserted D.discovered K.eq (view_of self.old)
            key service result (view_of self.new) }
        ensures excused { IfSome result (λ _. MayRefuse K.eq K.Clone self.old.services key) }
        ensures sound { Sound D.sound D.discovered S.sound (view_of self.new) }
    {
        match self.services.push(key, service) {
            Ok(()) => None,
            Err(back) => {
                self.change = Some(back);
                Some(Err(Error::Memory))
            }
        }
    }

    // Makes one iteration of reading the discovery. Returns an answer, or `None` to go on with the next iteration.
    fn read(&mut self, cx: &mut Context<'_>) -> Option<Answer<S::Error, X>>
        requires { Sound D.sound D.discovered S.sound (view_of self.old) }
        ensures read { Reads D.discovered K.eq (view_of self.old) result (view_of self.new) }
        ensures sound { Sound D.sound D.discovered S.sound (view_of self.new) }
        ensures armed { IfSome result
            (λ answer. OnOk answer (self.new.is_over ≡ false → IsArmed cx.new)) }
        ensures heard { IfSome result (λ answer. OnOk answer
            (self.new.is_over ≡ false → (s : ℕ) → D.needs self.new.discover s → Hears cx.new s)) }
        ensures quiet { Quiet (D.stirs self.old.discover self.new.discover) cx.old cx.new }
        ensures kept { Keeps cx.old cx.new }
    {
        match self.discover.poll_discover(cx) {
            Poll::Ready(Some(Ok(Change::Insert(key, service)))) => self.insert(key, service),
            Poll::Ready(Some(Ok(Change::Remove(key)))) => {
                self.services.evict(&key);
                None
            }
            Poll::Ready(Some(Err(error))) => Some(Err(Error::Discover(error))),
            Poll::Ready(None) => {
                self.is_over = true;
                Some(Ok(()))
            }
            Poll::Pending => Some(Ok(())),
        }
    }

    // Reads the discovery, unless it has ended. After the last iteration the task is woken.
    fn read_all(&mut self, cx: &mut Context<'_>) -> Answer<S::Error, X>
        requires { Sound D.sound D.discovered S.sound (view_of self.old) }
        ensures read { ReadsAll D.discovered K.eq (view_of self.old) result (view_of self.new) }
        ensures woken { self.old.is_over ≡ false → AnsweredOrWoken (Reads D.discovered K.eq)
            (view_of self.old) result (view_of self.new) cx.new.is_woken }
        ensures sound { Sound D.sound D.discovered S.sound (view_of self.new) }
        ensures armed { OnOk result (self.new.is_over ≡ false → IsArmed cx.new) }
        ensures heard { OnOk result
            (self.new.is_over ≡ false → (s : ℕ) → D.needs self.new.discover s → Hears cx.new s) }
        ensures quiet { Quiet (ReadStirs D.discovered K.eq D.stirs (view_of self.old)
            result (view_of self.new)) cx.old cx.new }
        ensures kept { Keeps cx.old cx.new }
    {
        if self.is_over {
            return Ok(());
        }
        for _iteration in 0..TURNS {
            if let Some(answer) = self.read(cx) {
                return answer;
            }
        }
        let _: Poll<()> = cx.yield_now();
        Ok(())
    }

    // Makes the changes of a poll: an insert that was kept, and then what the discovery reports.
    fn update(&mut self, cx: &mut Context<'_>) -> Answer<S::Error, X>
        requires { Sound D.sound D.discovered S.sound (view_of self.old) }
        ensures changed { Changed D.discovered K.eq (view_of self.old) result (view_of self.new) }
        ensures sound { Sound D.sound D.discovered S.sound (view_of self.new) }
        ensures armed { OnOk result (self.new.is_over ≡ false → IsArmed cx.new) }
        ensures heard { OnOk result
            (self.new.is_over ≡ false → (s : ℕ) → D.needs self.new.discover s → Hears cx.new s) }
        ensures quiet { Quiet (ReadStirs D.discovered K.eq D.stirs
            (push_kept K.eq self.old.change (view_of self.old))
            result (view_of self.new)) cx.old cx.new }
        ensures kept { Keeps cx.old cx.new }
    {
        if let Some((key, service)) = self.change.take() {
            if let Some(answer) = self.insert(key, service) {
                return answer;
            }
        }
        self.read_all(cx)
    }
}

impl<K, S, X, D, R, Req> Balance<D, R, Req>
where
    K: Eq + Hash + Clone + Drop,
    S: Service<Req> + Load,
    D: Discover<Key = K, Service = S, Error = X>,
    R: Rng,
{
    // Keeps the index that is picked. If none is, the poll is pending. The discovery and the pending
    // endpoints wake its task, and if neither is left, nothing does.
    fn choose(&mut self, cx: &mut Context<'_>) -> Option<Poll<Answer<S::Error, X>>>
        requires sound { Sound D.sound D.discovered S.sound (view_of self.old) }
        requires reads { self.old.is_over ≡ false → IsArmed cx.old }
        requires waits { 0 < length self.old.services.lists.pending → IsArmed cx.old }
        ensures chosen { Chooses K.eq S.Service S.loaded S.Metric.partial_cmp R.drew
            (view_of self.old) result (view_of self.new) }
        ensures sound { Sound D.sound D.discovered S.sound (view_of self.new) }
        ensures armed { IfSome result (λ answer. OnPending answer (IsArmed cx.new)) }
        ensures waits { 0 < length self.new.services.lists.pending → IsArmed cx.new }
        ensures heard { HeardFrom S.needs cx.old 0 self.old.services.lists.pending
            → HeardFrom S.needs cx.new 0 self.new.services.lists.pending }
        ensures discover { self.new.discover ≡ self.old.discover }
        ensures over { self.new.is_over ≡ self.old.is_over }
        ensures quiet { Quiet (IsSome result × IsIdle (view_of self.new)) cx.old cx.new }
        ensures kept { Keeps cx.old cx.new }
    {
        self.kept = pick(&self.services, &mut self.rng);
        match self.kept {
            Some(_) => None,
            None => {
                if self.is_over && self.services.is_empty() {
                    let _: Poll<()> = self.never.poll(cx);
                }
                Some(Poll::Pending)
            }
        }
    }

    // Makes one iteration of choosing. Returns an answer, or `None` to go on with the next iteration.
    fn iterate_once(&mut self, cx: &mut Context<'_>) -> Option<Poll<Answer<S::Error, X>>>
        requires sound { Sound D.sound D.discovered S.sound (view_of self.old) }
        requires reads { self.old.is_over ≡ false → IsArmed cx.old }
        requires waits { 0 < length self.old.services.lists.pending → IsArmed cx.old }
        ensures iteration { Iteration K.eq S.Service S.loaded S.Metric.partial_cmp R.drew
            (view_of self.old) result (view_of self.new) }
        ensures sound { Sound D.sound D.discovered S.sound (view_of self.new) }
        ensures armed { IfSome result (λ answer. OnPending answer (IsArmed cx.new)) }
        ensures waits { 0 < length self.new.services.lists.pending → IsArmed cx.new }
        ensures heard { HeardFrom S.needs cx.old 0 self.old.services.lists.pending
            → HeardFrom S.needs cx.new 0 self.new.services.lists.pending }
        ensures discover { self.new.discover ≡ self.old.discover }
        ensures over { self.new.is_over ≡ self.old.is_over }
        ensures quiet { Quiet (Ever S.stirs ⊎ (IsSome result × IsIdle (view_of self.new)))
            cx.old cx.new }
        ensures kept { Keeps cx.old cx.new }
    {
        let Some(index) = self.kept else {
            return self.choose(cx);
        };
        match self.services.check_ready_index(cx, index) {
            Ok(true) => Some(Poll::Ready(Ok(()))),
            Ok(false) => self.choose(cx),
            Err(_) => self.choose(cx),
        }
    }

    // Checks and chooses, until a ready endpoint is kept or none is left.
    fn settle(&mut self, cx: &mut Context<'_>) -> Poll<Answer<S::Error, X>>
        requires sound { Sound D.sound D.discovered S.sound (view_of self.old) }
        requires reads { self.old.is_over ≡ false → IsArmed cx.old }
        requires waits { 0 < length self.old.services.lists.pending → IsArmed cx.old }
        ensures chosen { Chosen K.eq S.Service S.loaded S.Metric.partial_cmp R.drew
            (view_of self.old) result (view_of self.new) }
        ensures sound { Sound D.sound D.discovered S.sound (view_of self.new) }
        ensures armed { OnPending result (IsArmed cx.new) }
        ensures heard { HeardFrom S.needs cx.old 0 self.old.services.lists.pending
            → HeardFrom S.needs cx.new 0 self.new.services.lists.pending }
        ensures discover { self.new.discover ≡ self.old.discover }
        ensures over { self.new.is_over ≡ self.old.is_over }
        ensures quiet { Quiet (Ever S.stirs ⊎ IsIdle (view_of self.new)) cx.old cx.new }
        ensures kept { Keeps cx.old cx.new }
    {
        loop {
            if let Some(answer) = self.iterate_once(cx) {
                return answer;
            }
        }
    }
}

impl<K, S, X, D, R, Req> Balance<D, R, Req>
where
    K: Eq + Hash + Clone + Drop,
    S: Service<Req> + Load,
    D: Discover<Key = K, Service = S, Error = X>,
    R: Rng,
{
    // Does what follows the changes: the promotion, and then the choosing.
    fn serve(&mut self, cx: &mut Context<'_>) -> Poll<Answer<S::Error, X>>
        requires sound { Sound D.sound D.discovered S.sound (view_of self.old) }
        requires reads { self.old.is_over ≡ false → IsArmed cx.old }
        ensures served { AfterChanges K.eq S.Service S.loaded S.Metric.partial_cmp R.drew (Ok tt)
            (view_of self.old) result (view_of self.new) }
        ensures sound { Sound D.sound D.discovered S.sound (view_of self.new) }
        ensures armed { OnPending result (IsArmed cx.new) }
        ensures heard { OnPending result
            (HeardFrom S.needs cx.new 0 self.new.services.lists.pending) }
        ensures discover { self.new.discover ≡ self.old.discover }
        ensures over { self.new.is_over ≡ self.old.is_over }
        ensures quiet { Quiet (Ever S.stirs ⊎ IsIdle (view_of self.new)) cx.old cx.new }
        ensures kept { Keeps cx.old cx.new }
    {
        match promote(&mut self.services, cx) {
            Err(error) => Poll::Ready(Err(error)),
            Ok(()) => self.settle(cx),
        }
    }
}

impl<K, S, X, D, R, Req> Service<Req> for Balance<D, R, Req>
where
    K: Eq + Hash + Clone + Drop,
    S: Service<Req> + Load,
    X: Drop,
    D: Discover<Key = K, Service = S, Error = X>,
    R: Rng,
{
    type Response = S::Response;

    type Error = Error<S::Error, X>;

    type Future = ResponseFuture<S::Future, X>;

    ghost sound = { λ b. Sound D.sound D.discovered S.sound (view_of b) };

    ghost ready = { λ b. IsReady S.ready (view_of b) };

    ghost polled = { λ old answer new. Polled K.eq S.Service S.loaded S.Metric.partial_cmp R.drew
        D.discovered (view_of old) answer (view_of new) };

    ghost needs = { λ b. Needs D.needs S.needs (view_of b) };

    ghost stirs = { λ old new. Stirs K.eq S.Service S.loaded S.Metric.partial_cmp R.drew
        D.discovered D.stirs (view_of old) (view_of new) };

    ghost called = { λ old request future new. Called K.eq S.Service (view_of old)
        request future (view_of new) };

    ghost readies = { λ old new p. polled_ok (view_of old) (view_of new) p };

    #[tactic(auto, using(crate::specs::BalanceReady::polled_none, crate::proofs::NeedsLemmas::heard_both))]
    fn poll_ready(&mut self, cx: &mut Context<'_>) -> Poll<Answer<S::Error, X>>
        requires { Sound D.sound D.discovered S.sound (view_of self.old) }
        ensures polled { Polled K.eq S.Service S.loaded S.Metric.partial_cmp R.drew D.discovered
            (view_of self.old) result (view_of self.new) }
        ensures none { OnPending result ((view_of self.new).services.ready ≡ []) }
        ensures sound { Sound D.sound D.discovered S.sound (view_of self.new) }
        ensures armed { OnPending result (IsArmed cx.new) }
        ensures heard { OnPending result
            ((s : ℕ) → Needs D.needs S.needs (view_of self.new) s → Hears cx.new s) }
        ensures quiet { Quiet (Stirs K.eq S.Service S.loaded S.Metric.partial_cmp R.drew
            D.discovered D.stirs (view_of self.old) (view_of self.new)) cx.old cx.new }
        ensures kept { Keeps cx.old cx.new }
    {
        match self.update(cx) {
            Err(error) => Poll::Ready(Err(error)),
            Ok(()) => self.serve(cx),
        }
    }

    fn call(&mut self, request: Req) -> Self::Future {
        let index = self.kept.take().unwrap();
        ResponseFuture::new(self.services.call_ready_index(index, request))
    }
}
