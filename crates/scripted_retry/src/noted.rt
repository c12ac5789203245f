//! A policy of second requests, and what records latencies, both noted.
ghost use Rattle.std.specs.Prelude.{⊤};

use scripted::script::Script;
use std::alloc::AllocError;
use tests_support::log::Log;
use tests_support::service::Target;
use tower_retry::hedge::latency::Record;
use tower_retry::hedge::{Policy, delay, select};

/// This request can't be copied.
const NO_COPY: u8 = 90;

/// This request may not be made again.
const ONCE: u8 = 91;

/// Copies each request but `NO_COPY`, and lets each be made again but `ONCE`. It notes what it is asked, its
/// clones and its drop; they follow the second plan.
#[derive(Clone, Drop)]
pub struct Twice<'a> {
    log: &'a Log,
    part: Target<'a>,
}

impl<'a> Twice<'a> {
    pub fn new(script: &Script<'a>) -> Twice<'a> {
        let stage = script.stage();
        Twice {
            log: stage.log,
            part: Target::new(&stage.others, 'p', 0),
        }
    }

    // The copy of a request.
    fn copy(&self, request: u8) -> Option<u8> {
        if request == NO_COPY {
            self.log.note(format_args!("left {request}"));
            return None;
        }
        self.log.note(format_args!("copied {request}"));
        Some(request)
    }
}

impl<'a> Policy<u8> for Twice<'a> {
    ghost cloned = { λ _ _ _. ⊤ };

    ghost allowed = { λ _ _ _. ⊤ };

    fn clone_request(&self, request: &u8) -> Option<u8> {
        self.copy(*request)
    }

    fn can_retry(&self, request: &u8) -> bool {
        let is_allowed = *request != ONCE;
        self.log
            .note(format_args!("allowed {request} {is_allowed}"));
        is_allowed
    }
}

impl<'a> select::Policy<u8> for Twice<'a> {
    ghost cloned = { λ _ _ _ _. ⊤ };

    fn clone_request(&mut self, request: &u8) -> Option<u8> {
        self.copy(*request)
    }
}

/// As many nanoseconds as the request says.
impl<'a> delay::Policy<u8> for Twice<'a> {
    ghost delayed = { λ _ _ _ _. ⊤ };

    fn delay(&mut self, request: &u8) -> u64 {
        self.log.note(format_args!("delay {request}"));
        u64::from(*request)
    }
}

/// The longest delay.
#[derive(Drop)]
pub struct Longest;

impl delay::Policy<u8> for Longest {
    fn delay(&mut self, _request: &u8) -> u64 {
        u64::MAX
    }
}

/// Notes each latency, its clones and its drop; they follow the second plan.
#[derive(Clone, Drop)]
pub struct Noted<'a> {
    log: &'a Log,
    part: Target<'a>,
}

impl<'a> Noted<'a> {
    pub fn new(script: &Script<'a>) -> Noted<'a> {
        let stage = script.stage();
        Noted {
            log: stage.log,
            part: Target::new(&stage.others, 'n', 0),
        }
    }
}

impl<'a> Record for Noted<'a> {
    ghost recorded = { λ _ _ _. ⊤ };

    fn record(&mut self, latency: u64) {
        self.log.note(format_args!("recorded {latency}"));
    }
}
