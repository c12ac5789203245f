//! A service under a rate limit.
ghost use Rattle.std.specs.Prelude.{◌≡◌, ◌<◌, ℕ, true, IfOk, IsErr};
ghost use Rattle.futures.specs.Poll.{OnPending};
ghost use Rattle.futures.specs.Task.{Hears, IsArmed, Keeps};
ghost use Rattle.tower_base.specs.Quiet.{Quiet};
ghost use Rattle.tower_limit.specs.Rate.{RateLimitView, Needs, New, Polled, Called, Stands, Stirs, WokenInTime, may_call};
ghost use Rattle.tower_limit.specs.RateReady.{ready_after};

use crate::limit::rate::{Rate, RateCore};
use crate::load::Load;
use futures::task::{Context, Poll};
use std::alloc::{AllocError, Global};
use std::marker::Model;
use tower_base::service::{Clock, Service};

/// Accepts at most `num` calls in any half-open interval of length `per`, unless the clock goes back: the
/// Rust's `tower::limit::RateLimit`, but with windows that slide. If a poll is pending because of the limit
/// itself, the clock has the task polled again once the limit lets a poll admit a call (`Clock::wake_at`).
///
/// The clock is passed in. A poll after `num` or more calls reads it once, and a call reads it once,
/// before the inner poll or call. Neither allocates: `new` allocates the room for the last `num` call
/// moments.
#[derive(Drop)]
pub struct RateLimit<S, C> {
    inner: S,
    core: RateCore,
    clock: C,
}

impl<S, C> Model for RateLimit<S, C> {
    ghost Value = { RateLimitView S C };

    ghost view = { λ l. record { inner = l.inner; core = l.core; clock = l.clock } };
}

impl<S: Drop, C: Clock> RateLimit<S, C> {
    /// Creates a rate limit. It doesn't read the clock. It fails if `RateCore::new` does, and then drops
    /// the service and the clock.
    pub fn new(alloc: Global, inner: S, rate: Rate, clock: C) -> Result<RateLimit<S, C>, AllocError>
        ensures made { IfOk result (λ made. New rate.num rate.per inner clock made) }
        ensures refused { 1152921504606846975 < rate.num → IsErr result }
    {
        let core = RateCore::new(alloc, rate)?;
        Ok(RateLimit { inner, core, clock })
    }
}

impl<Request, S: Service<Request>, C: Clock> Service<Request> for RateLimit<S, C> {
    type Response = S::Response;

    type Error = S::Error;

    type Future = S::Future;

    ghost sound = { λ l. S.sound l.inner };

    ghost ready = { λ l. S.ready l.inner × Stands l.core (λ plain. may_call plain ≡ true) };

    ghost polled = { Polled S.Service C.Clock };

    ghost needs = { Needs S.needs C.hears };

    ghost stirs = { Stirs S.stirs C.stirs };

    ghost called = { Called S.Service C.Clock };

    #[tactic(auto, using(crate::proofs::RateNeeds::heard_inner, crate::proofs::RateNeeds::heard_clock, crate::proofs::RateNeeds::quiet_inner, crate::proofs::RateNeeds::quiet_clock))]
    fn poll_ready(&mut self, cx: &mut Context<'_>) -> Poll<Result<(), S::Error>>
        requires { S.sound self.old.inner }
        ensures polled { Polled S.Service C.Clock self.old result self.new }
        ensures sound { S.sound self.new.inner }
        ensures armed { OnPending result (IsArmed cx.new) }
        ensures heard { OnPending result
            ((s : ℕ) → Needs S.needs C.hears self.new s → Hears cx.new s) }
        ensures timed { WokenInTime C.Clock self.old self.new cx.new }
        ensures quiet { Quiet (Stirs S.stirs C.stirs self.old self.new) cx.old cx.new }
        ensures kept { Keeps cx.old cx.new }
    {
        if !self.core.limited() {
            return self.inner.poll_ready(cx);
        }
        let moment = self.clock.now();
        if !self.core.poll(moment) {
            self.clock.wake_at(self.core.opens(), cx);
            return Poll::Pending;
        }
        self.inner.poll_ready(cx)
    }

    fn call(&mut self, request: Request) -> S::Future {
        let moment = self.clock.now();
        self.core.call(moment);
        self.inner.call(request)
    }

    ghost readies = { ready_after S.readies };
}

/// The load is that of the inner service.
impl<S: Load, C> Load for RateLimit<S, C> {
    type Metric = S::Metric;

    ghost loaded = { λ l metric. S.loaded l.inner metric };

    fn load(&self) -> S::Metric {
        self.inner.load()
    }
}

impl<S, C> RateLimit<S, C> {
    ghost use Rattle.tower_limit.specs.RateLends.{LendsInner};
    ghost use Rattle.std.specs.Borrow.{sem};

    /// Returns the inner service.
    pub fn get_ref(&self) -> &S
        ensures { result.now ≡ self.now.inner }
    {
        &self.inner
    }

    /// Returns the inner service as a mutable reference.
    pub fn get_mut(&mut self) -> &mut S
        ensures* writes_back { sem 𝓛 (LendsInner S.row C.row self.entry result) }
        ensures value { result.now ≡ self.old.inner }
    {
        &mut self.inner
    }

    /// Returns the inner service and drops the clock.
    pub fn into_inner(self) -> S
    where
        C: Drop,
        ensures { result ≡ self.inner }
    {
        self.inner
    }
}
