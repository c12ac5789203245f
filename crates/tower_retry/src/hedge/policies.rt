//! The policies of a hedge: how long a second request waits, and whether there is one.
ghost use Rattle.std.specs.Prelude.{◌≡◌};
ghost use Rattle.tower_retry.specs.HedgePolicies.{DelayPolicyView, DelayComputed, SelectPolicyView, Copied};

use crate::hedge::policy::Policy;
use crate::hedge::rotating_histogram::{HistoCore, RotatingHistogram};
use crate::hedge::{delay, select};
use std::marker::Model;
use tower_base::service::{Clock, Fraction};
use tower_latch::Latch;

/// A policy that delays a second request by a quantile of the latencies: the Rust's
/// `tower::hedge::DelayPolicy`.
#[derive(Drop)]
pub struct DelayPolicy<L: Latch<HistoCore>, C> {
    histogram: RotatingHistogram<L, C>,
    percentile: Fraction,
}

impl<L: Latch<HistoCore>, C> Model for DelayPolicy<L, C> {
    ghost Value = { DelayPolicyView L C };

    ghost view = { λ p. record { histogram = p.histogram; percentile = p.percentile } };
}

impl<L: Latch<HistoCore>, C> DelayPolicy<L, C> {
    pub(crate) fn new(histogram: RotatingHistogram<L, C>, percentile: Fraction) -> DelayPolicy<L, C>
        ensures { result ≡ record { histogram = histogram; percentile = percentile } }
    {
        DelayPolicy {
            histogram,
            percentile,
        }
    }
}

impl<Request, L: Latch<HistoCore>, C: Clock> delay::Policy<Request> for DelayPolicy<L, C> {
    ghost delayed = { DelayComputed L.gave C.Clock };

    fn delay(&mut self, _request: &Request) -> u64 {
        let millis = self.histogram.quantile(self.percentile);
        millis.saturating_mul(1_000_000)
    }
}

/// A policy that makes a second request if its own policy copies the request and enough latencies are
/// known: the Rust's `tower::hedge::SelectPolicy`.
#[derive(Drop)]
pub struct SelectPolicy<P, L: Latch<HistoCore>, C> {
    policy: P,
    histogram: RotatingHistogram<L, C>,
    min_data_points: u64,
}

impl<P, L: Latch<HistoCore>, C> Model for SelectPolicy<P, L, C> {
    ghost Value = { SelectPolicyView P L C };

    ghost view = { λ p. record {
      policy = p.policy;
      histogram = p.histogram;
      min_data_points = p.min_data_points;
    } };
}

impl<P, L: Latch<HistoCore>, C> SelectPolicy<P, L, C> {
    pub(crate) fn new(
        policy: P,
        histogram: RotatingHistogram<L, C>,
        min_data_points: u64,
    ) -> SelectPolicy<P, L, C>
        ensures { result
            ≡ record { policy = policy; histogram = histogram; min_data_points = min_data_points } }
    {
        SelectPolicy {
            policy,
            histogram,
            min_data_points,
        }
    }
}

impl<Request, P, L, C> select::Policy<Request> for SelectPolicy<P, L, C>
where
    Request: Drop,
    P: Policy<Request>,
    L: Latch<HistoCore>,
    C: Clock,
{
    ghost sound = { λ p. P.sound p.policy };

    ghost cloned = { Copied P.Policy L.gave C.Clock };

    /// Returns the copy that its own policy makes, or `None` if too few latencies are known. Doesn't read
    /// the clock if there is no copy.
    fn clone_request(&mut self, request: &Request) -> Option<Request> {
        let copy = self.policy.clone_request(request)?;
        if self.histogram.points() < self.min_data_points {
            return None;
        }
        Some(copy)
    }
}
