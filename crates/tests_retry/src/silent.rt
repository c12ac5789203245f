//! Policies and budgets of one's own without a ghost line.

use futures::future::{Ready, ready};
use std::test::Fail;
use tests_support::checks::Checks;
use tests_support::log::Log;
use tests_support::run::{fire, task};
use tests_support::script::{Reply, Script};
use tests_support::service::Scripted;
use tower_limit::hedge::Record;
use tower_retry::hedge;
use tower_retry::hedge::{delay, select};
use tower_retry::retry::budget::Budget;
use tower_retry::retry::{Policy, Retry};

// Pays for one retry.
#[derive(Clone, Copy)]
struct One {
    left: bool,
}

impl Budget for One {
    fn deposit(&mut self) {}

    fn withdraw(&mut self) -> bool {
        let left = self.left;
        self.left = false;
        left
    }
}

// Retries errors while the budget pays.
#[derive(Clone, Copy)]
struct Again<B> {
    budget: B,
}

impl<B: Budget> Policy<u8, u8, u8> for Again<B> {
    type Future = Ready<()>;

    fn retry(&mut self, _request: &mut u8, outcome: &mut Result<u8, u8>) -> Option<Ready<()>> {
        if outcome.is_err() && self.budget.withdraw() {
            return Some(ready(()));
        }
        None
    }

    fn clone_request(&mut self, request: &u8) -> Option<u8> {
        Some(*request)
    }
}

#[test]
fn policy_that_says_nothing_is_asked(rt: HostRuntime) -> Result<(), Fail> {
    let log = Log::new(rt.alloc())?;
    let script = Script::new(&log);
    let solo = task(&rt)?;
    script.replies(&[Reply::Fail(0), Reply::Echo(0)]);
    let policy = Again {
        budget: One { left: true },
    };
    let retry = Retry::new(policy, Scripted::new(&script, 's'));
    assert_eq!(rt; fire(&solo, retry, 6), Some(Ok(6)));
    Ok(())
}

// Says the same to all three policies of hedging, and keeps the last latency.
#[derive(Drop)]
struct Twice {
    last: u64,
}

impl hedge::Policy<u8> for Twice {
    fn clone_request(&self, request: &u8) -> Option<u8> {
        Some(*request)
    }

    fn can_retry(&self, _request: &u8) -> bool {
        true
    }
}

impl delay::Policy<u8> for Twice {
    fn delay(&mut self, _request: &u8) -> u64 {
        self.last
    }
}

impl select::Policy<u8> for Twice {
    fn clone_request(&mut self, request: &u8) -> Option<u8> {
        Some(*request)
    }
}

impl Record for Twice {
    fn record(&mut self, latency: u64) {
        self.last = latency;
    }
}

#[test]
fn policies_of_hedging_that_say_nothing_are_asked(rt: HostRuntime) -> Result<(), Fail> {
    let checks = Checks::new(rt.alloc());
    let mut twice = Twice { last: 0 };
    twice.record(9);
    checks.same(&delay::Policy::delay(&mut twice, &6), &9);
    checks.same(&select::Policy::clone_request(&mut twice, &6), &Some(6));
    checks.same(&hedge::Policy::clone_request(&twice, &6), &Some(6));
    checks.holds(hedge::Policy::<u8>::can_retry(&twice, &6));
    checks.verdict()
}
