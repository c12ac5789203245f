//! The keys at which callers wait.
ghost use Rattle.std.specs.Prelude.{◌≡◌, ◌≢◌, ◌^◌, ◌-◌, ℕ};
ghost use Rattle.tower_latch.specs.WaitQueue.{stalls as queue_stalls};
ghost use Rattle.tower_latch.specs.Wakes.{FreesOne, IsNamed};
ghost use Rattle.tower_latch.specs.declared.wait_queue.WaitQueue.{WaitQueue};
ghost use Rattle.tower_buffer.specs.MailKeys.{response_key, ticket_key};
ghost use Rattle.tower_buffer.specs.MailWakes.{NamesOneTicket};

use tower_latch::Wakes;

// The key at which the worker waits for a message.
pub(crate) const WORKER: usize = 0;

// Every ticket and every message from here on shares one key to wait at.
const SHARED_FROM: u64 = u64::MAX / 2;

// The key that they share.
pub(crate) const SHARED: usize = usize::MAX;

// The key at which a ticket waits for its place.
pub(crate) fn ticket(key: u64) -> usize
    ensures { result ≡ ticket_key key }
{
    if key < SHARED_FROM {
        return key as usize * 2 + 1;
    }
    SHARED
}

// The key at which a response waits for its outcome.
pub(crate) fn response(id: u64) -> usize
    ensures { result ≡ response_key id }
{
    if id < SHARED_FROM {
        return id as usize * 2 + 2;
    }
    SHARED
}

// Names whoever waits at this key: of those who share one, whoever no longer stalls.
pub(crate) fn one(key: usize) -> Wakes
    ensures named { IsNamed result key }
    ensures waits { (at : ℕ) → result ≡ Wakes.Wait at → ⊥ }
    ensures one { (at : ℕ) → result ≡ Wakes.One at → (key ≢ 2 ^ 64 - 1) × (key ≡ at) }
    ensures unstalled { result ≡ Wakes.Unstalled → key ≡ 2 ^ 64 - 1 }
    ensures all { result ≡ Wakes.All → ⊥ }
{
    if key == SHARED {
        return Wakes::Unstalled;
    }
    Wakes::One(key)
}

// Names the tickets of those who are named in the queue.
pub(crate) fn named(wakes: Wakes) -> Wakes
    ensures named { (key : ℕ) → IsNamed wakes key → IsNamed result (ticket_key key) }
    ensures waits { (key : ℕ) → result ≡ Wakes.Wait key → ⊥ }
    ensures one { (key : ℕ) → result ≡ Wakes.One key
        → (at : ℕ) × (wakes ≡ Wakes.One at) × (ticket_key at ≢ 2 ^ 64 - 1) × (ticket_key at ≡ key) }
    ensures most { (old new : WaitQueue) → FreesOne queue_stalls old new wakes
        → NamesOneTicket old result }
{
    match wakes {
        Wakes::One(key) => one(ticket(key as u64)),
        Wakes::Wait(_) => Wakes::Nobody,
        _ => wakes,
    }
}
