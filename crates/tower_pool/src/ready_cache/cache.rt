//! The cache of endpoints.
ghost use Rattle.std.specs.Prelude.{ℕ, suc, None, ◌≡◌, ◌<◌, ◌+◌, ◌*◌, ◌≤◌, ◌++◌, ◌||◌, ◌↔◌, [], ◌∷◌, length, slice_get, is_some, true, false, Some, Err, IsTrue, IfSome, OnOk, OnErr, IfErr, IfOk};
ghost use Rattle.std.specs.List.{IsDistinct};
ghost use Rattle.std.specs.Map.{keys_of, lookup};
ghost use Rattle.std.specs.Map.Iter.{deref_pair};
ghost use Rattle.std.specs.Option.{option_map};
ghost use Rattle.futures.specs.Poll.{OnPending};
ghost use Rattle.futures.specs.Task.{IsArmed, Keeps};
ghost use Rattle.futures.specs.declared.task.Poll.TheVariants.{Ready};
ghost use Rattle.indexmap.specs.IndexMap.{spare, swap_remove_entry};
ghost use Rattle.tower_base.specs.Quiet.{Ever, Quiet};
ghost use Rattle.tower_pool.specs.declared.ready_cache.error.Error.TheVariants.{Memory};
ghost use Rattle.tower_pool.specs.ReadyCache.{is_pending, cancel, place, pending_entry, Apart, MayRefuse, At, AtKey, Called, Checked, CheckedKey, HeardFrom, Sound, StirsAt};
ghost use Rattle.tower_pool.specs.ReadyCachePoll.{PolledFirst, PendingPolled};
ghost use Rattle.tower_pool.specs.Pending.{Holds, cache_of};

use crate::ready_cache::error::{Error, Failed};
use crate::ready_cache::iter::IterReady;
use crate::ready_cache::pending::Pending;
use futures::task::{Context, Poll};
use indexmap::IndexMap;
use std::alloc::Global;
use std::hash::Hash;
use std::marker::{Model, PhantomData};
use tower_base::service::Service;

/// A cache of ready endpoints by key, and of endpoints that wait to be ready: the Rust's
/// `tower::ready_cache::ReadyCache`.
///
/// An endpoint is pushed as pending. `poll_pending` polls the pending endpoints, and those that are
/// ready join the ready ones. A call makes its endpoint pending again, and so does a check that finds it
/// busy. Each key has at most one ready endpoint, and at most one pending endpoint that isn't cancelled.
///
/// A dropped cache drops the pending endpoints first, and then the ready ones.
///
/// A clone of a key must equal the key.
#[derive(Drop)]
pub struct ReadyCache<K: Eq + Hash + Clone, S, Req> {
    pending: Pending<K, S>,
    ready: IndexMap<K, S>,
    of: PhantomData<Req>,
}

impl<K: Eq + Hash + Clone, S, Req> Model for ReadyCache<K, S, Req> {
    ghost use Rattle.indexmap.specs.IndexMap.{spare};
    ghost use Rattle.tower_pool.specs.ReadyCache.{CacheInvariant, CountedView};
    ghost use Rattle.tower_pool.specs.Pending.{knows};

    ghost Value = { CountedView K S };

    ghost view = { λ c. record {
      lists = record {
        ready = c.ready.entries;
        pending = c.pending.items;
      };
      room = record {
        endpoints = c.pending.room;
        keys = c.pending.spare;
        ready = spare c.ready;
      };
      touches = c.pending.touches;
    } };

    ghost invariant = { λ c. CacheInvariant K.eq K.is_clone c.ready.entries c.pending.items
        (knows K.eq c.pending) c.pending.room };
}

impl<K: Eq + Hash + Clone + Drop, S: Service<Req>, Req> ReadyCache<K, S, Req> {
    /// Creates a cache without endpoints: the Rust's `default`. It allocates nothing.
    pub fn new(alloc: Global) -> ReadyCache<K, S, Req>
        requires { (x y : K) → K.is_clone x y → y ≡ x }
        ensures empty { result.lists ≡ record { ready = []; pending = [] } }
        ensures sound { Sound S.sound result.lists }
    {
        ReadyCache {
            pending: Pending::new(alloc),
            ready: IndexMap::new(alloc),
            of: PhantomData,
        }
    }

    /// Returns how many endpoints there are. Cancelled ones are counted until a poll removes them.
    pub fn len(&self) -> usize
        ensures { result ≡ length self.now.lists.ready + length self.now.lists.pending }
    {
        self.ready.len() + self.pending.len()
    }

    /// Returns whether there are no endpoints, not even cancelled ones.
    pub fn is_empty(&self) -> bool
        ensures { IsTrue result
            ↔ (length self.now.lists.ready + length self.now.lists.pending ≡ 0) }
    {
        self.len() == 0
    }

    /// Returns how many endpoints are ready.
    pub fn ready_len(&self) -> usize
        ensures len { result ≡ length self.now.lists.ready }
        ensures distinct { IsDistinct K.eq (keys_of self.now.lists.ready) }
    {
        self.ready.len()
    }

    /// Returns how many endpoints are pending, including cancelled ones.
    pub fn pending_len(&self) -> usize
        ensures len { result ≡ length self.now.lists.pending }
        ensures apart { Apart K.eq self.now.lists.pending }
    {
        self.pending.len()
    }

    /// Returns whether an endpoint of the key is pending and isn't cancelled.
    pub fn pending_contains(&self, key: &K) -> bool
        ensures { result ≡ is_pending K.eq key.now self.now.lists.pending }
    {
        self.pending.is_pending(key)
    }

    /// Returns the key's ready endpoint: its index, the key that it stands under, and its service.
    pub fn get_ready(&self, key: &K) -> Option<(usize, &K, &S)>
        ensures index { option_map (λ p. p.0) result ≡ place K.eq key.now self.now.lists.ready }
        ensures entry { IfSome result
            (λ p. slice_get self.now.lists.ready p.0 ≡ Some (p.1.now, p.2.now)) }
    {
        self.ready.get_full(key)
    }

    /// Returns the ready endpoint at the index.
    pub fn get_ready_index(&self, index: usize) -> Option<(&K, &S)>
        ensures { option_map deref_pair result ≡ slice_get self.now.lists.ready index }
    {
        self.ready.get_index(index)
    }

    /// Returns an iterator over the ready endpoints, in the order of their indexes.
    pub fn iter_ready(&self) -> IterReady<'_, K, S>
        ensures { result ≡ self.now.lists.ready }
    {
        IterReady::new(self.ready.iter())
    }

    /// Adds a pending endpoint and cancels an older pending one of its key. Makes the room in which
    /// ready endpoints become pending again. If that or the key's clone fails, returns the key and the
    /// service, and the cache is unchanged.
    pub fn push(&mut self, key: K, service: S) -> Result<(), (K, S)>
        // The endpoint becomes the last pending one, in the place of an older one of its key.
        ensures ready { self.new.lists.ready ≡ self.old.lists.ready }
        ensures pending { OnOk result (self.new.lists.pending
            ≡ cancel K.eq key self.old.lists.pending ++ pending_entry key service ∷ []) }
        // It fails only if room or a clone of the key is refused, and then the endpoints are as before.
        ensures same { OnErr result (self.new.lists ≡ self.old.lists) }
        ensures given_back { IfErr result (λ back. back ≡ (key, service)) }
        ensures excused { OnErr result (MayRefuse K.eq K.Clone self.old key) }
        ensures sound { Sound S.sound self.old.lists → S.sound service
            → Sound S.sound self.new.lists }
        ensures touches { self.new.touches ≤ self.old.touches + 2 }
    {
        self.pending.push(key, service, self.ready.len() + 1)
    }

    /// Cancels the key's pending endpoint and removes its ready one, whose index the last ready one
    /// takes. Returns whether there was one of them.
    pub fn evict(&mut self, key: &K) -> bool
        ensures found { result ≡ (is_pending K.eq key.now self.old.lists.pending
            || is_some (lookup (K.eq key.now) self.old.lists.ready)) }
        ensures ready { self.new.lists.ready
            ≡ swap_remove_entry (K.eq key.now) self.old.lists.ready }
        ensures pending { self.new.lists.pending ≡ cancel K.eq key.now self.old.lists.pending }
        ensures sound { Sound S.sound self.old.lists → Sound S.sound self.new.lists }
        ensures touches { self.new.touches ≡ self.old.touches }
    {
        let was_pending = self.pending.evict(key);
        let was_ready = self.ready.swap_remove(key).is_some();
        was_pending || was_ready
    }

    // Polls the pending endpoint that waits longest, unless it is cancelled, and puts it last if it is
    // still pending. Returns whether it is.
    fn ask(
        ready: &mut IndexMap<K, S>,
        pending: &mut Pending<K, S>,
        cx: &mut Context<'_>,
    ) -> Result<bool, Error<K, S::Error>>
        requires held { Holds K.eq K.is_clone ready.old.entries pending.old }
        requires sound { Sound S.sound (cache_of ready.old.entries pending.old) }
        requires some { 0 < length pending.old.items }
        ensures held { Holds K.eq K.is_clone ready.new.entries pending.new }
        ensures polled { PolledFirst K.eq S.Service (cache_of ready.old.entries pending.old)
            result (cache_of ready.new.entries pending.new) }
        ensures sound { Sound S.sound (cache_of ready.new.entries pending.new) }
        ensures full { result ≡ Err Memory → spare ready.old ≡ 0 }
        ensures used { spare ready.old ≤ spare ready.new + 1 }
        ensures armed { result ≡ Ok true → IsArmed cx.new }
        ensures heard { OnOk result ((n : ℕ) → HeardFrom S.needs cx.old (suc n) pending.old.items
            → HeardFrom S.needs cx.new n pending.new.items) }
        ensures quiet { Quiet (Ever S.stirs) cx.old cx.new }
        ensures kept { Keeps cx.old cx.new }
        ensures touches { pending.new.touches ≤ pending.old.touches + 5 }
    {
        let (key, mut service, is_cancelled) = pending.take_first().unwrap();
        if is_cancelled {
            return Ok(false);
        }
        if ready.reserve(1).is_err() {
            pending.append((key, service, false));
            return Err(Error::Memory);
        }
        match service.poll_ready(cx) {
            Poll::Pending => {
                pending.append((key, service, false));
                Ok(true)
            }
            Poll::Ready(Ok(())) => {
                let _ = ready.insert(key, service).unwrap();
                Ok(false)
            }
            Poll::Ready(Err(error)) => {
                pending.let_go(&key, ready.contains_key(&key));
                Err(Error::Failed(key, error))
            }
        }
    }

    // Polls each pending endpoint in this way. It reaches at most five entries for each one that was
    // pending.
    fn ask_each(
        ready: &mut IndexMap<K, S>,
        pending: &mut Pending<K, S>,
        cx: &mut Context<'_>,
    ) -> Poll<Result<(), Error<K, S::Error>>>
        requires held { Holds K.eq K.is_clone ready.old.entries pending.old }
        requires sound { Sound S.sound (cache_of ready.old.entries pending.old) }
        ensures held { Holds K.eq K.is_clone ready.new.entries pending.new }
        ensures polled { PendingPolled K.eq S.Service (cache_of ready.old.entries pending.old)
            result (cache_of ready.new.entries pending.new) }
        ensures done { result ≡ Ready (Ok tt) → pending.new.items ≡ [] }
        ensures full { result ≡ Ready (Err Memory) → spare ready.old < length pending.old.items }
        ensures sound { Sound S.sound (cache_of ready.new.entries pending.new) }
        ensures armed { OnPending result (IsArmed cx.new) }
        ensures heard { OnPending result (HeardFrom S.needs cx.new 0 pending.new.items) }
        ensures quiet { Quiet (Ever S.stirs) cx.old cx.new }
        ensures kept { Keeps cx.old cx.new }
        ensures touches { pending.new.touches ≤ pending.old.touches + 5 * length pending.old.items }
    {
        let mut waits = false;
        let mut left = pending.len();
        while left > 0 {
            left -= 1;
            match Self::ask(ready, pending, cx) {
                Ok(true) => waits = true,
                Ok(false) => {}
                Err(error) => {
                    pending.rotate(left);
                    return Poll::Ready(Err(error));
                }
            }
        }
        if waits {
            return Poll::Pending;
        }
        Poll::Ready(Ok(()))
    }

    /// Polls each pending endpoint once, longest waiting first, and drops the cancelled ones without
    /// polling them, until one fails or finds no room.
    ///
    /// An endpoint that is ready goes to the end of the ready ones, or takes the index of an older one
    /// of its key, which is dropped. An endpoint that fails leaves the cache, and the poll stops with
    /// its error. If there is no room for one more ready endpoint, and it can't be made, the poll stops
    /// with `Memory` before it polls the next endpoint, which is still pending. After `Ok` no endpoint is pending. After
    /// `Pending` each pending endpoint was polled in this poll. The poll reaches at most five entries of
    /// the slab of pending endpoints for each endpoint that was pending when it began.
    pub fn poll_pending(&mut self, cx: &mut Context<'_>) -> Poll<Result<(), Error<K, S::Error>>>
        requires { Sound S.sound self.old.lists }
        ensures polled { PendingPolled K.eq S.Service self.old.lists result self.new.lists }
        ensures done { result ≡ Ready (Ok tt) → self.new.lists.pending ≡ [] }
        ensures full { result ≡ Ready (Err Memory)
            → self.old.room.ready < length self.old.lists.pending }
        ensures sound { Sound S.sound self.new.lists }
        ensures armed { OnPending result (IsArmed cx.new) }
        ensures heard { OnPending result (HeardFrom S.needs cx.new 0 self.new.lists.pending) }
        // It asks for another poll only if the poll of some pending endpoint may.
        ensures quiet { Quiet (Ever S.stirs) cx.old cx.new }
        ensures kept { Keeps cx.old cx.new }
        ensures touches { self.new.touches ≤ self.old.touches + 5 * length self.old.lists.pending }
    {
        Self::ask_each(&mut self.ready, &mut self.pending, cx)
    }

    /// Polls the key's ready endpoint and returns whether it is still ready, or `Ok(false)` if the key
    /// has none. An endpoint that isn't ready any more becomes pending, or is dropped if a newer one of
    /// its key is pending. An endpoint that fails leaves the cache.
    pub fn check_ready(
        &mut self,
        cx: &mut Context<'_>,
        key: &K,
    ) -> Result<bool, Failed<K, S::Error>>
        requires { Sound S.sound self.old.lists }
        ensures checked { CheckedKey K.eq S.Service self.old.lists key.now result self.new.lists }
        ensures ready { IfOk result (λ is_ready. is_ready ≡ true → AtKey K.eq key.now
            self.new.lists.ready (λ index. At self.new.lists.ready index (λ e. S.ready e.1))) }
        ensures sound { Sound S.sound self.new.lists }
        ensures heard { HeardFrom S.needs cx.old 0 self.old.lists.pending
            → HeardFrom S.needs cx.new 0 self.new.lists.pending }
        // It asks for another poll only if the poll of that endpoint may.
        ensures quiet { Quiet (AtKey K.eq key.now self.old.lists.ready
            (StirsAt S.stirs self.old.lists.ready)) cx.old cx.new }
        ensures kept { Keeps cx.old cx.new }
        // An endpoint that goes back to the pending ones takes no memory.
        ensures room { self.new.room.endpoints ≡ self.old.room.endpoints }
        ensures touches { self.new.touches ≤ self.old.touches + 2 }
    {
        match self.ready.get_index_of(key) {
            Some(index) => self.check_ready_index(cx, index),
            None => Ok(false),
        }
    }

    /// Polls the ready endpoint at the index and returns whether it is still ready, or `Ok(false)` if
    /// the index is past the end. An endpoint that isn't ready any more becomes pending, or is dropped
    /// if a newer one of its key is pending. An endpoint that fails leaves the cache. The last ready
    /// endpoint takes the index of one that leaves the ready ones.
    pub fn check_ready_index(
        &mut self,
        cx: &mut Context<'_>,
        index: usize,
    ) -> Result<bool, Failed<K, S::Error>>
        requires { Sound S.sound self.old.lists }
        ensures checked { Checked K.eq S.Service self.old.lists index result self.new.lists }
        ensures ready { IfOk result
            (λ is_ready. is_ready ≡ true → At self.new.lists.ready index (λ e. S.ready e.1)) }
        ensures sound { Sound S.sound self.new.lists }
        ensures armed { IfOk result
            (λ is_ready. is_ready ≡ false → index < length self.old.lists.ready → IsArmed cx.new) }
        // If the poll was armed for the pending endpoints, it still is.
        ensures waits { (0 < length self.old.lists.pending → IsArmed cx.old)
            → 0 < length self.new.lists.pending → IsArmed cx.new }
        ensures heard { HeardFrom S.needs cx.old 0 self.old.lists.pending
            → HeardFrom S.needs cx.new 0 self.new.lists.pending }
        // It asks for another poll only if the poll of that endpoint may.
        ensures quiet { Quiet (StirsAt S.stirs self.old.lists.ready index) cx.old cx.new }
        ensures kept { Keeps cx.old cx.new }
        // An endpoint that goes back to the pending ones takes no memory.
        ensures room { self.new.room.endpoints ≡ self.old.room.endpoints }
        ensures touches { self.new.touches ≤ self.old.touches + 2 }
    {
        if index >= self.ready.len() {
            return Ok(false);
        }
        let (_, service) = self.ready.pair_mut(index);
        match service.poll_ready(cx) {
            Poll::Ready(Ok(())) => Ok(true),
            Poll::Ready(Err(error)) => {
                let (key, _) = self.ready.swap_remove_index(index).unwrap();
                self.pending.let_go(&key, false);
                Err(Failed(key, error))
            }
            Poll::Pending => {
                let (key, service) = self.ready.swap_remove_index(index).unwrap();
                self.pending.put_back(key, service);
                Ok(false)
            }
        }
    }

    /// Calls the key's ready endpoint, which then becomes pending, or is dropped if a newer one of its
    /// key is pending. `check_ready` returns whether the key has an endpoint that may be called.
    pub fn call_ready(&mut self, key: &K, request: Req) -> S::Future
        requires sound { Sound S.sound self.old.lists }
        requires ready { AtKey K.eq key.now self.old.lists.ready
            (λ index. At self.old.lists.ready index (λ e. S.ready e.1)) }
        ensures called { AtKey K.eq key.now self.old.lists.ready
            (λ index. Called K.eq S.Service self.old.lists index request result self.new.lists) }
        ensures sound { Sound S.sound self.new.lists }
        ensures can_poll { S.Future.can_poll result }
        // The endpoint that goes back to the pending ones takes no memory.
        ensures room { self.new.room.endpoints ≡ self.old.room.endpoints }
        ensures touches { self.new.touches ≤ self.old.touches + 2 }
    {
        let index = self.ready.get_index_of(key).unwrap();
        self.call_ready_index(index, request)
    }

    /// Calls the ready endpoint at the index, which then becomes pending, or is dropped if a newer one
    /// of its key is pending. The last ready endpoint takes its index. `check_ready_index` returns
    /// whether an endpoint may be called.
    pub fn call_ready_index(&mut self, index: usize, request: Req) -> S::Future
        requires sound { Sound S.sound self.old.lists }
        requires ready { At self.old.lists.ready index (λ e. S.ready e.1) }
        ensures called { Called K.eq S.Service self.old.lists index request result self.new.lists }
        ensures sound { Sound S.sound self.new.lists }
        ensures can_poll { S.Future.can_poll result }
        // The endpoint that goes back to the pending ones takes no memory.
        ensures room { self.new.room.endpoints ≡ self.old.room.endpoints }
        ensures touches { self.new.touches ≤ self.old.touches + 2 }
    {
        let (key, mut service) = self.ready.swap_remove_index(index).unwrap();
        let future = service.call(request);
        self.pending.put_back(key, service);
        future
    }
}

impl<K: Eq + Hash + Clone + Drop, S: Service<Req>, Req> ReadyCache<K, S, Req> {
    ghost use Rattle.std.specs.Borrow.{sem};
    ghost use Rattle.std.specs.Option.{option_copied_mut};
    ghost use Rattle.tower_pool.specs.ReadyCacheLends.{LendsReady};

    /// Returns the service of the key's ready endpoint as a mutable reference.
    pub fn get_ready_mut(&mut self, key: &K) -> Option<&mut S>
        ensures* writes_back { sem 𝓛 (LendsReady K.row S.row Req.row K.Hash K.Clone self.entry
            (place K.eq key.now self.old.lists.ready) result) }
        ensures value { option_copied_mut result ≡ lookup (K.eq key.now) self.old.lists.ready }
    {
        let index = self.ready.get_index_of(key)?;
        self.ready.get_index_mut(index)
    }

    /// Returns the service of the ready endpoint at the index as a mutable reference.
    pub fn get_ready_index_mut(&mut self, index: usize) -> Option<&mut S>
        ensures* writes_back { sem 𝓛
            (LendsReady K.row S.row Req.row K.Hash K.Clone self.entry (Some index) result) }
        ensures value { option_copied_mut result
            ≡ option_map (λ e. e.1) (slice_get self.old.lists.ready index) }
    {
        self.ready.get_index_mut(index)
    }
}
