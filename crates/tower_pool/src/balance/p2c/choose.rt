//! The parts of a balancer's poll that concern only its endpoints.
ghost use Rattle.std.specs.Prelude.{◌≡◌, ◌<◌, None, OnOk, length};
ghost use Rattle.futures.specs.Task.{IsArmed, Keeps};
ghost use Rattle.tower_base.specs.Quiet.{Ever, Quiet};
ghost use Rattle.tower_pool.specs.Balance.{IsLighter, Picked, Promotes};
ghost use Rattle.tower_pool.specs.ReadyCache.{At, HeardFrom, Sound};

use crate::balance::error::Error;
use crate::ready_cache::ReadyCache;
use crate::ready_cache::error::Error as CacheError;
use futures::task::{Context, Poll};
use std::hash::Hash;
use tower_base::service::Service;
use tower_base::util::rng::{Rng, sample_floyd2};
use tower_limit::load::Load;

/// Polls the pending endpoints. An endpoint that fails is dropped, and the others are polled again.
pub(crate) fn promote<K, S, X, Req>(
    services: &mut ReadyCache<K, S, Req>,
    cx: &mut Context<'_>,
) -> Result<(), Error<S::Error, X>>
where
    K: Eq + Hash + Clone + Drop,
    S: Service<Req>,
    requires { Sound S.sound services.old.lists }
    ensures promoted { Promotes K.eq S.Service services.old.lists result services.new.lists }
    ensures sound { Sound S.sound services.new.lists }
    ensures waits { OnOk result (0 < length services.new.lists.pending → IsArmed cx.new) }
    ensures heard { OnOk result (HeardFrom S.needs cx.new 0 services.new.lists.pending) }
    ensures quiet { Quiet (Ever S.stirs) cx.old cx.new }
    ensures kept { Keeps cx.old cx.new }
{
    loop {
        match services.poll_pending(cx) {
            Poll::Ready(Ok(())) => return Ok(()),
            Poll::Pending => return Ok(()),
            Poll::Ready(Err(CacheError::Memory)) => return Err(Error::Memory),
            Poll::Ready(Err(CacheError::Failed(_, _))) => {}
        }
    }
}

// Returns the load of the endpoint at the index.
fn load_at<K, S, Req>(services: &ReadyCache<K, S, Req>, index: usize) -> S::Metric
where
    K: Eq + Hash + Clone + Drop,
    S: Service<Req> + Load,
    requires { index < length services.now.lists.ready }
    ensures { At services.now.lists.ready index (λ e. S.loaded e.1 result) }
{
    let (_, service) = services.get_ready_index(index).unwrap();
    service.load()
}

// Returns whether the load of the first is at most the second's.
fn is_lighter<K, S, Req>(services: &ReadyCache<K, S, Req>, first: usize, second: usize) -> bool
where
    K: Eq + Hash + Clone + Drop,
    S: Service<Req> + Load,
    requires first { first < length services.now.lists.ready }
    requires second { second < length services.now.lists.ready }
    ensures { IsLighter S.loaded S.Metric.partial_cmp services.now.lists.ready first second result }
{
    load_at(services, first) <= load_at(services, second)
}

/// Returns the index of the endpoint to be called next: of two that are drawn, the first if its load is at
/// most the second's, and else the second.
pub(crate) fn pick<K, S, R, Req>(services: &ReadyCache<K, S, Req>, rng: &mut R) -> Option<usize>
where
    K: Eq + Hash + Clone + Drop,
    S: Service<Req> + Load,
    R: Rng,
    ensures picked { Picked S.loaded S.Metric.partial_cmp R.drew services.now.lists.ready rng.old
        result rng.new }
    ensures none { result ≡ None → length services.now.lists.ready ≡ 0 }
{
    let count = services.ready_len();
    if count == 0 {
        return None;
    }
    if count == 1 {
        return Some(0);
    }
    let [a, b] = sample_floyd2(rng, count as u64);
    let (first, second) = (a as usize, b as usize);
    if is_lighter(services, first, second) {
        Some(first)
    } else {
        Some(second)
    }
}
