//! `concurrency_limit PERMITS [SHARES] [watched] [get_mut] [into_inner] [checked]`: over a latch whose steps are noted, and whose shares are
//! refused after so many. If it is `watched`, `free` tells how many permits are free. `into_inner` is asked after a poll. If it is
//! `checked`, it stands behind a check that is pending once.
//!
//! `locked_limit PERMITS [layer] [global] [two]`: over a lock, of which nothing is noted. The layer may make a second service `t`, by a
//! clone of the layer.
//!
//! `global_limit_layer SHARES`: a layer over the noted latch, with one permit.

use crate::beside::{Beside, Permits};
use futures::task::Poll;
use scripted::party::Party;
use scripted::report::Report;
use scripted::script::{Numbers, Script};
use std::alloc::AllocError;
use std::cell::Cell;
use std::fmt::{Debug, Display};
use std::sync::Wait;
use tests_support::future::After;
use tests_support::latch::Noting;
use tests_support::log::Log;
use tests_support::run::polled;
use tests_support::service::Scripted;
use tower_base::layer::Layer;
use tower_base::service::Service;
use tower_latch::held::Viewed;
use tower_latch::{Guarded, Latch};
use tower_limit::limit::concurrency::{LineCore, Semaphore};
use tower_limit::limit::{ConcurrencyLimit, ConcurrencyLimitLayer, GlobalConcurrencyLimitLayer};
use tower_ware::filter::{AsyncFilter, AsyncPredicateFn};

/// A line of permits, behind a latch whose steps are noted.
pub fn noting<'a, L: Latch<LineCore>>(
    log: &'a Log,
    shares: &'a Cell<u8>,
    latch: L,
    permits: usize,
) -> Semaphore<Noting<'a, L>> {
    Semaphore::with_latch(Noting::new(log, shares, latch), permits)
}

/// How many shares there are, by the number at this place.
pub fn shares_at(script: &Script<'_>, place: usize) -> Cell<u8> {
    let shares = script.number(place).unwrap_or(255);
    Cell::new(if shares < 255 { shares as u8 } else { 255 })
}

pub fn play<R: Wait + Copy>(
    rt: R,
    script: &Script<'_>,
    report: &mut Report<'_>,
) -> Result<(), AllocError> {
    let Some(permits) = script.number(0) else {
        return script.unread(report);
    };
    let permits = permits as usize;
    let shares = shares_at(script, 1);
    match Guarded::new(rt, script.alloc(), LineCore::new(script.alloc(), permits)) {
        Ok(latch) => watched(
            script,
            report,
            noting(script.stage().log, &shares, latch, permits),
        ),
        Err(AllocError) => script.over(report, "out of memory"),
    }
}

// Keeps a share of the semaphore for a script that watches it.
fn watched<L: Latch<LineCore>>(
    script: &Script<'_>,
    report: &mut Report<'_>,
    semaphore: Semaphore<L>,
) -> Result<(), AllocError> {
    let mut permits = Permits {
        alloc: script.alloc(),
        log: script.stage().log,
        share: None,
    };
    if script.has("watched") {
        permits.share = Some(semaphore.share()?);
    }
    let service = ConcurrencyLimit::with_semaphore(script.service('s'), semaphore);
    if script.has("checked") {
        return checked(script, report, service);
    }
    lent(script, report, service, &mut permits)
}

// The inner service is changed, or given back.
fn lent<'a, L: Latch<LineCore>>(
    script: &Script<'a>,
    report: &mut Report<'_>,
    mut service: ConcurrencyLimit<Scripted<'a>, L>,
    permits: &mut Permits<'a, L>,
) -> Result<(), AllocError> {
    if script.has("get_mut") {
        *service.get_mut() = script.service('t');
        drop(service.get_ref().clone()?);
    }
    if script.has("into_inner") {
        if let Poll::Ready(Err(_)) = polled::<u8, _>(script.solo(), &mut service) {
            drop(service);
            return script.over(report, "out of memory");
        }
        drop(service.into_inner());
        return script.play_party(report, permits);
    }
    with_party(script, report, service, permits)
}

// Plays by a service with a party.
fn with_party<L: Latch<LineCore>, P: Party>(
    script: &Script<'_>,
    report: &mut Report<'_>,
    service: ConcurrencyLimit<Scripted<'_>, L>,
    party: &mut P,
) -> Result<(), AllocError> {
    script.play_with(report, service, &Numbers, party)
}

// Behind a check that waits.
fn checked<S>(script: &Script<'_>, report: &mut Report<'_>, inner: S) -> Result<(), AllocError>
where
    S: Service<u8> + Clone,
    S::Response: Display,
    S::Error: Debug + Display,
    requires inner { S.sound inner }
    requires clones { (x y : S) → S.is_clone x y → S.sound x → S.sound y }
{
    let log = script.stage().log;
    let check = |request: u8| {
        let checked: Result<u8, u8> = Ok(request);
        After::new(log, 'c', 1, checked)
    };
    let filter = AsyncFilter::new(inner, AsyncPredicateFn::new(check));
    script.play_alone(report, filter, &Numbers)
}

type Locked<'a, R> = ConcurrencyLimit<Scripted<'a>, Guarded<LineCore, R>>;

// The service, and a second one if there are two.
fn made<'a, R: Wait + Copy>(
    rt: R,
    script: &Script<'a>,
    permits: usize,
) -> Result<(Locked<'a, R>, Option<Locked<'a, R>>), AllocError> {
    let (alloc, service) = (script.alloc(), script.service('s'));
    if script.has("layer") {
        let layer = ConcurrencyLimitLayer::new(rt, alloc, permits);
        return layered(layer, service, second(script));
    }
    if script.has("global") {
        let layer = GlobalConcurrencyLimitLayer::new(rt, alloc, permits)?;
        return layered(layer, service, second(script));
    }
    Ok((ConcurrencyLimit::new(rt, alloc, service, permits)?, None))
}

// The inner service of the second one, if there are two.
fn second<'a>(script: &Script<'a>) -> Option<Scripted<'a>> {
    if script.has("two") {
        return Some(script.service('t'));
    }
    None
}

// What the layer makes of the first, and its clone of the second.
fn layered<S: Drop, M: Layer<S> + Clone + Drop>(
    layer: M,
    first: S,
    second: Option<S>,
) -> Result<(M::Service, Option<M::Service>), AllocError>
where
    M::Service: Drop,
    requires can_layer { (layer : M) (service : S) → M.can_layer layer service }
{
    let first = layer.layer(first)?;
    let Some(second) = second else {
        return Ok((first, None));
    };
    let second = layer.clone()?.layer(second)?;
    Ok((first, Some(second)))
}

pub fn play_locked<R: Wait + Copy>(
    rt: R,
    script: &Script<'_>,
    report: &mut Report<'_>,
) -> Result<(), AllocError> {
    let Some(permits) = script.number(0) else {
        return script.unread(report);
    };
    match made(rt, script, permits as usize) {
        Ok((service, other)) => played(script, report, service, other),
        Err(AllocError) => script.over(report, "out of memory"),
    }
}

// Plays by a service, beside a second one if there is one.
fn played<S>(
    script: &Script<'_>,
    report: &mut Report<'_>,
    service: S,
    other: Option<S>,
) -> Result<(), AllocError>
where
    S: Service<u8> + Clone,
    S::Response: Display,
    S::Error: Debug + Display,
    requires sound { (service : S) → S.sound service }
{
    let other = match other {
        Some(service) => Some(Viewed::new(service)),
        None => None,
    };
    let mut party = Beside {
        alloc: script.alloc(),
        solo: script.solo(),
        other,
    };
    script.play_with(report, service, &Numbers, &mut party)
}

pub fn play_layer<R: Wait + Copy>(
    rt: R,
    script: &Script<'_>,
    report: &mut Report<'_>,
) -> Result<(), AllocError> {
    let shares = shares_at(script, 0);
    match Guarded::new(rt, script.alloc(), LineCore::new(script.alloc(), 1)) {
        Ok(latch) => {
            let semaphore = noting(script.stage().log, &shares, latch, 1);
            let layer = GlobalConcurrencyLimitLayer::with_semaphore(semaphore);
            played_layer(script, report, layer)
        }
        Err(AllocError) => script.over(report, "out of memory"),
    }
}

// A layer is cloned and dropped, and `layer` makes a service, which is dropped.
#[derive(Drop)]
struct Layers<'s, 'a, L: Latch<LineCore>> {
    script: &'s Script<'a>,
    layer: Option<GlobalConcurrencyLimitLayer<L>>,
}

impl<'s, 'a, L: Latch<LineCore>> Party for Layers<'s, 'a, L> {
    fn act(&mut self, words: &str) -> Result<Option<String>, AllocError> {
        let Some(layer) = &self.layer else {
            return Ok(None);
        };
        let is_made = match words {
            "clone" => layer.clone().is_ok(),
            "layer" => layer.layer(self.script.service('s')).is_ok(),
            _ => return Ok(None),
        };
        let answer = if is_made { "dropped" } else { "out of memory" };
        Ok(Some(answer.to_string(self.script.alloc())?))
    }

    fn end(&mut self) {
        self.layer = None;
    }
}

fn played_layer<L: Latch<LineCore>>(
    script: &Script<'_>,
    report: &mut Report<'_>,
    layer: GlobalConcurrencyLimitLayer<L>,
) -> Result<(), AllocError> {
    let mut layers = Layers {
        script,
        layer: Some(layer),
    };
    script.play_party(report, &mut layers)
}
