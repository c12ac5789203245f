//! The endpoints that aren't ready yet, in the order of waiting.
ghost use Rattle.std.specs.Prelude.{◌≡◌, cond, Some, None, ◌+◌, ◌*◌, ◌<◌, ◌≤◌, ◌^◌, ◌++◌, ◌&&◌, ◌||◌, not, [], ◌∷◌, false, true, length, is_some, IfErr, OnErr, OnOk, OnSome, IfNone, IfSome, if◌then◌else◌};
ghost use Rattle.std.specs.Option.{option_map_or};
ghost use Rattle.tower_pool.specs.ReadyCache.{is_pending, cancel, put_back, pending_entry, Apart};
ghost use Rattle.std.specs.Map.{lookup};
ghost use Rattle.tower_pool.specs.ReadyCachePoll.{rotated};
ghost use Rattle.tower_pool.specs.Pending.{MayRefuse, entry_of, knows, last_of, marked, names};

use indexmap::IndexMap;
use std::alloc::Global;
use std::hash::Hash;
use std::marker::Model;
use tower_base::links::Links;

/// A pending endpoint: its key, its service, and whether it is cancelled.
type Endpoint<K, S> = (K, S, bool);

/// Pending endpoints, longest waiting first, and a place for each key. All but the last are stored in a
/// slab. A key's place names the key's endpoint in the slab that isn't cancelled, if there is one. The
/// last may be stored beside the slab, with whether it is cancelled. No call searches. A poll
/// that comes to a cancelled endpoint drops it without polling it.
#[derive(Drop)]
pub(crate) struct Pending<K: Eq + Hash, S> {
    entries: Links<(K, S)>,
    places: IndexMap<K, Option<usize>>,
    last: Option<Endpoint<K, S>>,
}

impl<K: Eq + Hash, S> Model for Pending<K, S> {
    ghost use Rattle.std.specs.Prelude.{◌++◌};
    ghost use Rattle.indexmap.specs.IndexMap.{spare};
    ghost use Rattle.tower_pool.specs.Pending.{last_of, room_of, stored, Stands, PendingListView};

    ghost Value = { PendingListView K S };

    ghost view = { λ w. record {
      items = stored K.eq w.places.entries w.entries ++ last_of w.last;
      places = w.places.entries;
      room = room_of w.entries.entries.capacity;
      spare = spare w.places;
      touches = w.entries.touches;
    } };

    ghost invariant = { λ w. Stands K.eq w.places.entries w.entries w.last };
}

// Clears the key's place if it names this entry. Returns whether it did. (`cond b x y` is `x` if
// `b` is true, and `y` otherwise.)
fn release<K: Eq + Hash>(places: &mut IndexMap<K, Option<usize>>, key: &K, entry: usize) -> bool
    ensures named { result ≡ names entry (lookup (K.eq key.now) places.old.entries) }
    ensures released { result ≡ true → (q : K) → lookup (K.eq q) places.new.entries
        ≡ cond (K.eq key.now q) (Some None) (lookup (K.eq q) places.old.entries) }
    ensures same { result ≡ false → places.new.entries ≡ places.old.entries }
{
    match places.get_mut(key) {
        Some(place) if *place == Some(entry) => place.take().is_some(),
        _ => false,
    }
}

// Cancels the endpoint if it is the key's. Returns whether it was the key's and wasn't cancelled yet.
fn cancel<K: Eq, S>(last: &mut Option<Endpoint<K, S>>, key: &K) -> bool
    ensures found { result ≡ is_pending K.eq key.now (last_of last.old) }
    ensures marked { last.new ≡ marked K.eq key.now last.old }
{
    match last {
        Some((other, _, is_cancelled)) if !*is_cancelled && *key == *other => {
            *is_cancelled = true;
            true
        }
        _ => false,
    }
}

impl<K: Eq + Hash + Clone + Drop, S: Drop> Pending<K, S> {
    pub(crate) fn new(alloc: Global) -> Pending<K, S>
        ensures items { result.items ≡ [] }
        ensures knows { (k : K) → knows K.eq result k ≡ false }
    {
        Pending {
            entries: Links::new(alloc),
            places: IndexMap::new(alloc),
            last: None,
        }
    }

    /// Returns how many endpoints there are, including cancelled ones.
    pub(crate) fn len(&self) -> usize
        ensures len { result ≡ length self.now.items }
        ensures small { self.now.room < 2 ^ 64 }
    {
        self.entries.len() + usize::from(self.last.is_some())
    }

    /// Returns whether an endpoint of the key is pending and isn't cancelled.
    pub(crate) fn is_pending(&self, key: &K) -> bool
        ensures { result ≡ is_pending K.eq key.now self.now.items }
    {
        matches!(&self.last, Some((last, _, false)) if *key == *last)
            || self.entries.len() > 0 && matches!(self.places.get(key), Some(Some(_)))
    }

    /// Puts an endpoint last, beside the slab. The one that was there moves into the slab, and the place
    /// of its key names it, unless it is cancelled.
    #[inline(always)]
    pub(crate) fn append(&mut self, last: Endpoint<K, S>)
        requires room { length self.old.items < self.old.room }
        requires known { last.2 ≡ false → knows K.eq self.old last.0 ≡ true }
        requires alone { last.2 ≡ false → is_pending K.eq last.0 self.old.items ≡ false }
        ensures items { self.new.items ≡ self.old.items ++ entry_of last ∷ [] }
        ensures knows { (k : K) → knows K.eq self.new k ≡ knows K.eq self.old k }
        ensures room { self.new.room ≡ self.old.room }
        ensures touches { self.new.touches ≤ self.old.touches + 2 }
    {
        match self.last.replace(last) {
            Some((key, service, false)) => {
                let place = self.places.get_mut(&key).unwrap();
                *place = Some(self.entries.push_back((key, service)));
            }
            Some((key, service, true)) => _ = self.entries.push_back((key, service)),
            None => {}
        }
    }

    // Makes room for `more` endpoints, and then gives the key a place that names no endpoint, and
    // cancels the key's endpoint.
    fn make_room(&mut self, key: &K, more: usize) -> Option<()>
        requires apart { Apart K.eq self.old.items }
        requires clones { (x y : K) → K.is_clone x y → y ≡ x }
        ensures items { self.new.items
            ≡ (if is_some result then cancel K.eq key.now self.old.items else self.old.items) }
        ensures knows { (k : K) → knows K.eq self.new k
            ≡ (knows K.eq self.old k || (is_some result && K.eq key.now k)) }
        ensures fits { OnSome result (length self.old.items + more ≤ self.new.room) }
        ensures excused { IfNone result (MayRefuse K.Clone K.eq self.old key.now more) }
        ensures room { self.old.room ≤ self.new.room }
        ensures touches { self.new.touches ≡ self.old.touches }
    {
        let copy = key.clone().ok()?;
        let _ = self.len().checked_add(more)?;
        self.entries.reserve(more).ok()?;
        let _ = self.places.insert(copy, None).ok()?;
        cancel(&mut self.last, key);
        Some(())
    }

    /// Removes the first endpoint. Returns its key, which keeps its place, its service, and whether it
    /// is cancelled.
    #[inline(always)]
    pub(crate) fn take_first(&mut self) -> Option<Endpoint<K, S>>
        ensures items { self.old.items
            ≡ option_map_or (λ e. entry_of e ∷ self.new.items) result [] }
        ensures same { IfNone result (self.new.items ≡ self.old.items) }
        ensures known { IfSome result (λ e. e.2 ≡ false → knows K.eq self.new e.0 ≡ true) }
        ensures knows { (k : K) → knows K.eq self.new k ≡ knows K.eq self.old k }
        ensures room { self.new.room ≡ self.old.room }
        ensures touches { self.new.touches ≤ self.old.touches + 3 }
    {
        let Some(first) = self.entries.front() else {
            return self.last.take();
        };
        let (key, service) = self.entries.remove(first)?;
        let is_cancelled = !release(&mut self.places, &key, first);
        Some((key, service, is_cancelled))
    }

    /// Moves the first endpoint to the end, `count` times.
    pub(crate) fn rotate(&mut self, count: usize)
        requires apart { Apart K.eq self.old.items }
        requires fits { length self.old.items ≤ self.old.room }
        ensures items { self.new.items ≡ rotated count self.old.items }
        ensures knows { (k : K) → knows K.eq self.new k ≡ knows K.eq self.old k }
        ensures room { self.new.room ≡ self.old.room }
        ensures touches { self.new.touches ≤ self.old.touches + 5 * count }
    {
        for _ in 0..count {
            if let Some(first) = self.take_first() {
                self.append(first);
            }
        }
    }

    /// Cancels the key's endpoint and removes the key's place. Returns whether there was such an
    /// endpoint.
    pub(crate) fn evict(&mut self, key: &K) -> bool
        requires apart { Apart K.eq self.old.items }
        ensures found { result ≡ is_pending K.eq key.now self.old.items }
        ensures items { self.new.items ≡ cancel K.eq key.now self.old.items }
        ensures knows { (k : K)
            → knows K.eq self.new k ≡ (knows K.eq self.old k && not (K.eq key.now k)) }
        ensures room { self.new.room ≡ self.old.room }
        ensures touches { self.new.touches ≡ self.old.touches }
    {
        matches!(self.places.swap_remove(key), Some(Some(_))) | cancel(&mut self.last, key)
    }

    /// Removes the key's place, unless an endpoint of the key waits or the key is ready.
    pub(crate) fn let_go(&mut self, key: &K, is_ready: bool)
        ensures items { self.new.items ≡ self.old.items }
        ensures knows { (k : K) → knows K.eq self.new k ≡ (knows K.eq self.old k
            && not (K.eq key.now k && not (is_ready || is_pending K.eq key.now self.old.items))) }
        ensures room { self.new.room ≡ self.old.room }
        ensures touches { self.new.touches ≡ self.old.touches }
    {
        if !is_ready && !self.is_pending(key) {
            let _ = self.places.swap_remove(key);
        }
    }

    /// Makes an endpoint that was ready pending again, or drops it if a newer one of its key is pending.
    pub(crate) fn put_back(&mut self, key: K, service: S)
        requires room { length self.old.items < self.old.room }
        requires known { knows K.eq self.old key ≡ true }
        ensures items { self.new.items ≡ put_back K.eq key service self.old.items }
        ensures knows { (k : K) → knows K.eq self.new k ≡ knows K.eq self.old k }
        ensures room { self.new.room ≡ self.old.room }
        ensures touches { self.new.touches ≤ self.old.touches + 2 }
    {
        if !self.is_pending(&key) {
            self.append((key, service, false));
        }
    }

    /// Adds an endpoint and cancels an older one of its key. Makes room for `more` endpoints, this one
    /// included. If that fails, returns the key and the service, and nothing else has changed.
    pub(crate) fn push(&mut self, key: K, service: S, more: usize) -> Result<(), (K, S)>
        requires apart { Apart K.eq self.old.items }
        requires some { 0 < more }
        requires clones { (x y : K) → K.is_clone x y → y ≡ x }
        ensures items { OnOk result
            (self.new.items ≡ cancel K.eq key self.old.items ++ pending_entry key service ∷ []) }
        ensures knows { OnOk result
            ((k : K) → knows K.eq self.new k ≡ (knows K.eq self.old k || K.eq key k)) }
        ensures fits { OnOk result (length self.old.items + more ≤ self.new.room) }
        ensures room { self.old.room ≤ self.new.room }
        ensures same { OnErr result (self.new.items ≡ self.old.items) }
        ensures as_known { OnErr result ((k : K) → knows K.eq self.new k ≡ knows K.eq self.old k) }
        ensures given_back { IfErr result (λ back. back ≡ (key, service)) }
        ensures excused { OnErr result (MayRefuse K.Clone K.eq self.old key more) }
        ensures touches { self.new.touches ≤ self.old.touches + 2 }
    {
        if self.make_room(&key, more).is_none() {
            return Err((key, service));
        }
        self.append((key, service, false));
        Ok(())
    }
}
