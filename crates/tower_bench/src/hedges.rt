//! Stacks under a hedge.
ghost use Rattle.std.specs.Prelude.{⊤};

use crate::inner::Pace;
use crate::rounds::Course;
use futures::task::Context;
use std::alloc::{AllocError, AllocGlobal};
use std::convert::Infallible;
use std::sync::Wait;
use tower::Service;
use tower::filter::{self, AsyncFilter, AsyncPredicate};
use tower::hedge::delay::{self, Delay};
use tower::hedge::latency::{Latency, Record};
use tower::hedge::rotating_histogram::HistoCore;
use tower::hedge::select::{self, Select};
use tower::hedge::{Flat, Hedge, Policy};
use tower::latch::Latch;
use tower::service::{Clock, Fraction};

const MINUTE: u64 = 60_000_000_000;

const LATENCIES: [u64; 10] = [1, 1, 1, 1, 1, 1, 1, 1, 10, 10];

/// Lets each request be made a second time.
#[derive(Drop)]
struct Always;

impl Policy<u64> for Always {
    ghost cloned = { λ _ _ _. ⊤ };

    ghost allowed = { λ _ _ _. ⊤ };

    fn clone_request(&self, request: &u64) -> Option<u64> {
        Some(*request)
    }

    fn can_retry(&self, _request: &u64) -> bool {
        true
    }
}

impl Clone for Always {
    fn clone(&self) -> Result<Always, AllocError> {
        Ok(Always)
    }
}

/// Rounds where ten latencies are known, and so many asked for.
pub fn hedged<R, S, T>(
    rt: R,
    cx: &mut Context<'_>,
    inner: S,
    pace: &Pace,
    points: u64,
    course: &T,
) -> Result<u64, AllocError>
where
    R: Wait + AllocGlobal + Copy,
    S: Service<u64, Response = u64, Error = u64> + Clone,
    T: Course,
    requires inner { S.sound inner }
    requires clones { (x y : S) → S.is_clone x y → S.sound x → S.sound y }
{
    let part = Fraction::new(9, 10);
    let service = Hedge::new_with_mock_latencies(
        rt,
        rt.alloc(),
        inner,
        Always,
        points,
        part,
        MINUTE,
        pace.clock(),
        &LATENCIES,
    )?;
    of_hedge(cx, service, course)
}

// At all its types at once the check of a hedge is past its limits, so one type after another is let in.
fn of_hedge<S, P, L, C, T>(
    cx: &mut Context<'_>,
    hedge: Hedge<S, P, L, C>,
    course: &T,
) -> Result<u64, AllocError>
where
    T: Course,
    S: Service<u64, Response = u64, Error = u64> + Clone,
    P: Policy<u64> + Clone,
    L: Latch<HistoCore>,
    C: Clock,
    requires policy { P.sound hedge.policy.policy }
    requires predicate { P.sound hedge.b.service.predicate }
    requires first { S.sound hedge.a.service }
    requires second { S.sound hedge.b.service.inner.service }
    requires clones { (x y : S) → S.is_clone x y → S.sound x → S.sound y }
    requires policy_clones { (x y : P) → P.is_clone x y → P.sound x → P.sound y }
{
    of_latency(cx, hedge, course)
}

fn of_latency<P, N, S, D, Q, C, T>(
    cx: &mut Context<'_>,
    hedge: Flat<Select<P, Latency<N, S, C>, Delay<D, AsyncFilter<Latency<N, S, C>, Q>, C>>>,
    course: &T,
) -> Result<u64, AllocError>
where
    T: Course,
    P: select::Policy<u64>,
    N: Record + Clone,
    S: Service<u64, Response = u64, Error = u64> + Clone,
    D: delay::Policy<u64>,
    Q: AsyncPredicate<u64, Request = u64, Error = Infallible> + Clone,
    C: Clock,
    requires policy { P.sound hedge.policy }
    requires first_rec { N.sound hedge.a.rec }
    requires first { S.sound hedge.a.service }
    requires delay { D.sound hedge.b.policy }
    requires second_rec { N.sound hedge.b.service.inner.rec }
    requires second { S.sound hedge.b.service.inner.service }
    requires predicate { Q.sound hedge.b.service.predicate }
    requires rec_clones { (x y : N) → N.is_clone x y → N.sound x → N.sound y }
    requires clones { (x y : S) → S.is_clone x y → S.sound x → S.sound y }
    requires predicate_clones { (x y : Q) → Q.is_clone x y → Q.sound x → Q.sound y }
{
    of_filter(cx, hedge, course)
}

fn of_filter<P, A, D, I, Q, C, T>(
    cx: &mut Context<'_>,
    hedge: Flat<Select<P, A, Delay<D, AsyncFilter<I, Q>, C>>>,
    course: &T,
) -> Result<u64, AllocError>
where
    T: Course,
    P: select::Policy<u64>,
    A: Service<u64, Response = u64, Error = u64>,
    D: delay::Policy<u64>,
    I: Service<u64, Response = u64, Error = u64> + Clone,
    Q: AsyncPredicate<u64, Request = u64, Error = Infallible> + Clone,
    C: Clock,
    requires policy { P.sound hedge.policy }
    requires first { A.sound hedge.a }
    requires delay { D.sound hedge.b.policy }
    requires inner { I.sound hedge.b.service.inner }
    requires predicate { Q.sound hedge.b.service.predicate }
    requires clones { (x y : I) → I.is_clone x y → I.sound x → I.sound y }
    requires predicate_clones { (x y : Q) → Q.is_clone x y → Q.sound x → Q.sound y }
{
    of_delay(cx, hedge, course)
}

fn of_delay<P, A, D, F, C, T>(
    cx: &mut Context<'_>,
    hedge: Flat<Select<P, A, Delay<D, F, C>>>,
    course: &T,
) -> Result<u64, AllocError>
where
    T: Course,
    P: select::Policy<u64>,
    A: Service<u64, Response = u64, Error = u64>,
    D: delay::Policy<u64>,
    F: Service<u64, Response = u64, Error = filter::Error<u64, Infallible>> + Clone,
    C: Clock,
    requires policy { P.sound hedge.policy }
    requires first { A.sound hedge.a }
    requires delay { D.sound hedge.b.policy }
    requires inner { F.sound hedge.b.service }
    requires clones { (x y : F) → F.is_clone x y → F.sound x → F.sound y }
{
    of_sides(cx, hedge, course)
}

fn of_sides<P, A, B, T>(
    cx: &mut Context<'_>,
    hedge: Flat<Select<P, A, B>>,
    course: &T,
) -> Result<u64, AllocError>
where
    T: Course,
    P: select::Policy<u64>,
    A: Service<u64, Response = u64, Error = u64>,
    B: Service<u64, Response = u64, Error = delay::Error<filter::Error<u64, Infallible>>>,
    requires policy { P.sound hedge.policy }
    requires first { A.sound hedge.a }
    requires second { B.sound hedge.b }
{
    course.run(cx, hedge)
}
