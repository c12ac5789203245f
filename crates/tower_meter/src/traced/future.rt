//! The future of a `Traced`.
ghost use Rattle.std.specs.Prelude.{◌≡◌, ℕ, true};
ghost use Rattle.tower_base.specs.Gives.{IsStep, MayGive};
ghost use Rattle.tower_meter.specs.Traced.{Event, TracedFutureView, Stepped};

use crate::traced::trace::Trace;
use futures::future::Future;
use futures::task::{Context, Poll};
use std::marker::{Model, PhantomData};
use tower_base::service::{Clock, Steps};

/// The future of a `Traced`, which returns the inner answer, and tells it. If it is dropped before, it
/// tells that instead.
#[derive(Drop)]
pub struct TracedFuture<Request, T, E, F, C, N>
where
    C: Clock,
    N: Trace<Request, T, E>,
{
    inner: F,
    end: Open<Request, T, E, C, N>,
}

// A call, and whether its end wasn't told yet.
struct Open<Request, T, E, C, N>
where
    C: Clock,
    N: Trace<Request, T, E>,
{
    of: PhantomData<(Request, T, E)>,
    clock: C,
    trace: N,
    span: N::Span,
    start: u64,
    is_open: bool,
}

impl<Request, T, E, C, N> Drop for Open<Request, T, E, C, N>
where
    C: Clock,
    N: Trace<Request, T, E>,
{
    fn drop(self)
        ensures { self.is_open ≡ true → (nanos : ℕ)
            × N.told self.trace (Event.dropped self.span nanos) }
    {
        let Open {
            of: _,
            mut clock,
            trace,
            span,
            start,
            is_open,
        } = self;
        if is_open {
            let nanos = clock.now().saturating_sub(start);
            trace.on_drop(&span, nanos);
        }
    }
}

impl<Request, T, E, F, C, N> Model for TracedFuture<Request, T, E, F, C, N>
where
    C: Clock,
    N: Trace<Request, T, E>,
{
    ghost Value = { TracedFutureView F C N N.Span };

    ghost view = { λ f. record {
      inner = f.inner;
      clock = f.end.clock;
      trace = f.end.trace;
      span = f.end.span;
      start = f.end.start;
      is_open = f.end.is_open;
    } };
}

impl<Request, T, E, F, C, N> TracedFuture<Request, T, E, F, C, N>
where
    C: Clock,
    N: Trace<Request, T, E>,
{
    pub(crate) fn new(
        inner: F,
        clock: C,
        trace: N,
        span: N::Span,
        start: u64,
    ) -> TracedFuture<Request, T, E, F, C, N>
        ensures { result ≡ record {
          inner = inner;
          clock = clock;
          trace = trace;
          span = span;
          start = start;
          is_open = true;
        } }
    {
        TracedFuture {
            inner,
            end: Open {
                of: PhantomData,
                clock,
                trace,
                span,
                start,
                is_open: true,
            },
        }
    }
}

impl<Request, T, E, F, C, N> Future for TracedFuture<Request, T, E, F, C, N>
where
    F: Steps<Output = Result<T, E>>,
    C: Clock,
    N: Trace<Request, T, E>,
{
    type Output = Result<T, E>;

    ghost can_poll = { λ v. F.can_poll v.inner };

    ghost gives = { MayGive (Stepped F.Steps.own C.Clock N.told) };

    ghost needs = { λ v. F.needs v.inner };

    #[tactic(auto, using(tower_base::specs::GivesLemmas::one_step))]
    fn poll(&mut self, cx: &mut Context<'_>) -> Poll<Self::Output>
        requires { F.can_poll self.old.inner }
        ensures { IsStep (Stepped F.Steps.own C.Clock N.told) (λ v. F.can_poll v.inner)
            (λ v. F.needs v.inner) self.old result self.new cx.old cx.new }
    {
        self.step(cx)
    }
}

impl<Request, T, E, F, C, N> Steps for TracedFuture<Request, T, E, F, C, N>
where
    F: Steps<Output = Result<T, E>>,
    C: Clock,
    N: Trace<Request, T, E>,
{
    type Output = Result<T, E>;

    ghost can_poll = { λ v. F.can_poll v.inner };

    ghost needs = { λ v. F.needs v.inner };

    ghost stepped = { Stepped F.Steps.own C.Clock N.told };

    ghost stirs = { λ old new. F.stirs old.inner new.inner };

    fn step(&mut self, cx: &mut Context<'_>) -> Poll<Self::Output> {
        let Poll::Ready(answer) = self.inner.step(cx) else {
            return Poll::Pending;
        };
        if self.end.is_open {
            self.end.is_open = false;
            let nanos = self.end.clock.now().saturating_sub(self.end.start);
            self.end.trace.on_answer(&self.end.span, &answer, nanos);
        }
        Poll::Ready(answer)
    }
}
