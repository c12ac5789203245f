//! `constant LOAD`: a service with this load. `pending_requests`: behind a latch whose steps are noted.
//!
//! `load` answers the load, and `shares N` says how many shares of the latch there are before they are refused.

use scripted::party::{Nobody, Party, Reader};
use scripted::report::Report;
use scripted::script::{Numbers, Script};
use std::alloc::{AllocError, Global};
use std::cell::Cell;
use std::fmt::{Debug, Display};
use std::sync::Wait;
use tests_support::latch::Noting;
use tower_base::service::Service;
use tower_latch::{Guarded, Latch};
use tower_limit::load::pending_requests::CountCore;
use tower_limit::load::{CompleteOnResponse, Constant, Load, PendingRequests};

// Reads a load.
#[derive(Drop)]
struct Loads {
    alloc: Global,
}

impl<S: Load> Reader<S> for Loads
where
    S::Metric: Debug,
{
    fn read(&self, service: &S, words: &str) -> Result<Option<String>, AllocError> {
        if words != "load" {
            return Ok(None);
        }
        let load = service.load();
        Ok(Some(format!(in self.alloc; "{load:?}")?))
    }
}

fn played<S, P>(
    script: &Script<'_>,
    report: &mut Report<'_>,
    service: S,
    party: P,
) -> Result<(), AllocError>
where
    S: Service<u8> + Load,
    S::Response: Display,
    S::Error: Debug + Display,
    S::Metric: Debug,
    P: Party + Drop,
    requires { S.sound service }
{
    let loads = Loads {
        alloc: script.alloc(),
    };
    let mut party = party;
    script.play_read_with(report, service, &Numbers, &loads, &mut party)
}

pub fn play_constant(script: &Script<'_>, report: &mut Report<'_>) -> Result<(), AllocError> {
    let Some(load) = script.number(0) else {
        return script.unread(report);
    };
    played(
        script,
        report,
        Constant::new(script.service('s'), load),
        Nobody,
    )
}

// How many shares of the latch there are.
#[derive(Drop)]
struct Shares<'s> {
    alloc: Global,
    shares: &'s Cell<u8>,
}

impl<'s> Party for Shares<'s> {
    fn act(&mut self, words: &str) -> Result<Option<String>, AllocError> {
        let Some(shares) = words.strip_prefix("shares ") else {
            return Ok(None);
        };
        match shares.parse() {
            Ok(shares) => self.shares.set(shares),
            Err(_) => return Ok(None),
        }
        Ok(Some(String::new(self.alloc)))
    }

    fn end(&mut self) {}
}

fn over_latch<S, L>(
    script: &Script<'_>,
    report: &mut Report<'_>,
    service: S,
    latch: L,
    shares: &Cell<u8>,
) -> Result<(), AllocError>
where
    S: Service<u8>,
    S::Response: Display,
    S::Error: Debug + Display,
    L: Latch<CountCore>,
    requires { S.sound service }
{
    let alloc = script.alloc();
    let requests = PendingRequests::with_latch(service, CompleteOnResponse, latch);
    played(script, report, requests, Shares { alloc, shares })
}

pub fn play_pending_requests<R: Wait + Copy>(
    rt: R,
    script: &Script<'_>,
    report: &mut Report<'_>,
) -> Result<(), AllocError> {
    let shares = Cell::new(u8::MAX);
    let Ok(latch) = Guarded::new(rt, script.alloc(), CountCore::new()) else {
        return script.over(report, "out of memory");
    };
    let latch = Noting::new(script.stage().log, &shares, latch);
    over_latch(script, report, script.service('s'), latch, &shares)
}
