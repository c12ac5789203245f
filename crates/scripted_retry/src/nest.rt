//! A script of a hedge. At all its types at once the check of its play is past its limits, so one type after another is let in.

use scripted::report::Report;
use scripted::script::{Numbers, Script};
use std::alloc::AllocError;
use std::convert::Infallible;
use tower_base::service::{Clock, Service};
use tower_latch::Latch;
use tower_retry::hedge::delay::{self, Delay};
use tower_retry::hedge::latency::{Latency, Record};
use tower_retry::hedge::rotating_histogram::{HistoCore, RotatingHistogram};
use tower_retry::hedge::select::{self, Select};
use tower_retry::hedge::{DelayPolicy, Flat, Hedge, Policy, PolicyPredicate, SelectPolicy};
use tower_ware::filter::{self, AsyncFilter, AsyncPredicate};

// Two sides.
fn of_sides<P, A, B>(
    script: &Script<'_>,
    report: &mut Report<'_>,
    hedge: Flat<Select<P, A, B>>,
) -> Result<(), AllocError>
where
    P: select::Policy<u8>,
    A: Service<u8, Response = u8, Error = u8>,
    B: Service<u8, Response = u8, Error = delay::Error<filter::Error<u8, Infallible>>>,
    requires policy { P.sound hedge.policy }
    requires first { A.sound hedge.a }
    requires second { B.sound hedge.b }
{
    script.play_alone(report, hedge, &Numbers)
}

// The second is delayed.
fn of_delay<P, A, D, F, C>(
    script: &Script<'_>,
    report: &mut Report<'_>,
    hedge: Flat<Select<P, A, Delay<D, F, C>>>,
) -> Result<(), AllocError>
where
    P: select::Policy<u8>,
    A: Service<u8, Response = u8, Error = u8>,
    D: delay::Policy<u8>,
    F: Service<u8, Response = u8, Error = filter::Error<u8, Infallible>> + Clone,
    C: Clock,
    requires policy { P.sound hedge.policy }
    requires first { A.sound hedge.a }
    requires delay { D.sound hedge.b.policy }
    requires inner { F.sound hedge.b.service }
    requires clones { (x y : F) → F.is_clone x y → F.sound x → F.sound y }
{
    of_sides(script, report, hedge)
}

// And filtered.
fn of_filter<P, A, D, I, Q, C>(
    script: &Script<'_>,
    report: &mut Report<'_>,
    hedge: Flat<Select<P, A, Delay<D, AsyncFilter<I, Q>, C>>>,
) -> Result<(), AllocError>
where
    P: select::Policy<u8>,
    A: Service<u8, Response = u8, Error = u8>,
    D: delay::Policy<u8>,
    I: Service<u8, Response = u8, Error = u8> + Clone,
    Q: AsyncPredicate<u8, Request = u8, Error = Infallible> + Clone,
    C: Clock,
    requires policy { P.sound hedge.policy }
    requires first { A.sound hedge.a }
    requires delay { D.sound hedge.b.policy }
    requires inner { I.sound hedge.b.service.inner }
    requires predicate { Q.sound hedge.b.service.predicate }
    requires clones { (x y : I) → I.is_clone x y → I.sound x → I.sound y }
    requires predicate_clones { (x y : Q) → Q.is_clone x y → Q.sound x → Q.sound y }
{
    of_delay(script, report, hedge)
}

// And both are recorded.
fn of_latency<P, N, S, D, Q, C>(
    script: &Script<'_>,
    report: &mut Report<'_>,
    hedge: Flat<Select<P, Latency<N, S, C>, Delay<D, AsyncFilter<Latency<N, S, C>, Q>, C>>>,
) -> Result<(), AllocError>
where
    P: select::Policy<u8>,
    N: Record + Clone,
    S: Service<u8, Response = u8, Error = u8> + Clone,
    D: delay::Policy<u8>,
    Q: AsyncPredicate<u8, Request = u8, Error = Infallible> + Clone,
    C: Clock,
    requires policy { P.sound hedge.policy }
    requires first_rec { N.sound hedge.a.rec }
    requires first { S.sound hedge.a.service }
    requires delay { D.sound hedge.b.policy }
    requires second_rec { N.sound hedge.b.service.inner.rec }
    requires second { S.sound hedge.b.service.inner.service }
    requires predicate { Q.sound hedge.b.service.predicate }
    requires rec_clones { (x y : N) → N.is_clone x y → N.sound x → N.sound y }
    requires clones { (x y : S) → S.is_clone x y → S.sound x → S.sound y }
    requires predicate_clones { (x y : Q) → Q.is_clone x y → Q.sound x → Q.sound y }
{
    of_filter(script, report, hedge)
}

/// Plays the script by a hedge.
pub fn of_hedge<S, P, L, C>(
    script: &Script<'_>,
    report: &mut Report<'_>,
    hedge: Hedge<S, P, L, C>,
) -> Result<(), AllocError>
where
    S: Service<u8, Response = u8, Error = u8> + Clone,
    P: Policy<u8> + Clone,
    L: Latch<HistoCore>,
    C: Clock,
    requires policy { P.sound hedge.policy.policy }
    requires predicate { P.sound hedge.b.service.predicate }
    requires first { S.sound hedge.a.service }
    requires second { S.sound hedge.b.service.inner.service }
    requires clones { (x y : S) → S.is_clone x y → S.sound x → S.sound y }
    requires policy_clones { (x y : P) → P.is_clone x y → P.sound x → P.sound y }
{
    of_latency(script, report, hedge)
}
