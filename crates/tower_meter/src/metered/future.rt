//! The future of a `Metered`.
ghost use Rattle.std.specs.Prelude.{◌≡◌, IfSome};
ghost use Rattle.tower_base.specs.Gives.{IsStep, MayGive};
ghost use Rattle.tower_meter.specs.Metered.{ResponseFutureView, Stepped};
ghost use Rattle.tower_meter.specs.declared.meter_core.MeterStep.TheVariants.{Abandon};

use crate::kinds::Kinds;
use crate::meter_core::{MeterCore, MeterStep};
use futures::future::Future;
use futures::task::{Context, Poll};
use std::marker::Model;
use tower_base::service::{Clock, Steps};
use tower_latch::Latch;

/// The future of a `Metered`, which returns the inner answer, and counts it.
#[derive(Drop)]
pub struct ResponseFuture<F, L: Latch<MeterCore>, C, K> {
    inner: F,
    flight: Flight<L>,
    clock: C,
    kinds: K,
    start: u64,
}

// A call that is in flight, if it has a share.
struct Flight<L: Latch<MeterCore>> {
    share: Option<L>,
}

impl<L: Latch<MeterCore>> Drop for Flight<L> {
    fn drop(self)
        ensures { IfSome self.share (λ share. (reply : _) × L.gave share Abandon reply) }
    {
        if let Some(share) = &self.share {
            share.step(MeterStep::Abandon);
        }
        let Flight { share: _ } = self;
    }
}

impl<F, L: Latch<MeterCore>, C, K> Model for ResponseFuture<F, L, C, K> {
    ghost Value = { ResponseFutureView F L C K };

    ghost view = { λ f. record {
      inner = f.inner;
      share = f.flight.share;
      clock = f.clock;
      kinds = f.kinds;
      start = f.start;
    } };
}

impl<F, L: Latch<MeterCore>, C, K> ResponseFuture<F, L, C, K> {
    pub(crate) fn new(
        inner: F,
        share: Option<L>,
        clock: C,
        kinds: K,
        start: u64,
    ) -> ResponseFuture<F, L, C, K>
        ensures { result ≡ record {
          inner = inner;
          share = share;
          clock = clock;
          kinds = kinds;
          start = start;
        } }
    {
        ResponseFuture {
            inner,
            flight: Flight { share },
            clock,
            kinds,
            start,
        }
    }
}

impl<T, E, F, L, C, K> Future for ResponseFuture<F, L, C, K>
where
    F: Steps<Output = Result<T, E>>,
    L: Latch<MeterCore>,
    C: Clock,
    K: Kinds<T, E>,
{
    type Output = Result<T, E>;

    ghost can_poll = { λ v. F.can_poll v.inner × K.sound v.kinds };

    ghost gives = { MayGive (Stepped L.Latch C.Clock F.Steps.own K.of) };

    ghost needs = { λ v. F.needs v.inner };

    #[tactic(auto, using(tower_base::specs::GivesLemmas::one_step))]
    fn poll(&mut self, cx: &mut Context<'_>) -> Poll<Self::Output>
        requires { F.can_poll self.old.inner × K.sound self.old.kinds }
        ensures { IsStep (Stepped L.Latch C.Clock F.Steps.own K.of)
            (λ v. F.can_poll v.inner × K.sound v.kinds) (λ v. F.needs v.inner)
            self.old result self.new cx.old cx.new }
    {
        self.step(cx)
    }
}

impl<T, E, F, L, C, K> Steps for ResponseFuture<F, L, C, K>
where
    F: Steps<Output = Result<T, E>>,
    L: Latch<MeterCore>,
    C: Clock,
    K: Kinds<T, E>,
{
    type Output = Result<T, E>;

    ghost can_poll = { λ v. F.can_poll v.inner × K.sound v.kinds };

    ghost needs = { λ v. F.needs v.inner };

    ghost stepped = { Stepped L.Latch C.Clock F.Steps.own K.of };

    ghost stirs = { λ old new. F.stirs old.inner new.inner };

    fn step(&mut self, cx: &mut Context<'_>) -> Poll<Self::Output> {
        match self.inner.step(cx) {
            Poll::Ready(answer) => {
                if let Some(share) = self.flight.share.take() {
                    let kind = self.kinds.kind(&answer);
                    let nanos = self.clock.now().saturating_sub(self.start);
                    share.step(MeterStep::Answer(answer.is_ok(), kind, nanos));
                }
                Poll::Ready(answer)
            }
            Poll::Pending => Poll::Pending,
        }
    }
}
