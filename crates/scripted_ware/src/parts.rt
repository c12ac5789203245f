//! A predicate and a picker, whose clones and drops are noted as a place's of the other script.

use scripted::script::Script;
use std::alloc::AllocError;
use tests_support::future::After;
use tests_support::log::Log;
use tests_support::service::Target;
use tower_ware::filter::{AsyncPredicate, Predicate};
use tower_ware::steer::Picker;

/// Refuses requests from 100 on, and doubles the others, at once or after so many polls.
#[derive(Clone, Drop)]
pub struct Doubling<'a> {
    log: &'a Log,
    part: Target<'a>,
    polls: u8,
}

impl<'a> Doubling<'a> {
    pub fn new(script: &Script<'a>, polls: u8) -> Doubling<'a> {
        let stage = script.stage();
        Doubling {
            log: stage.log,
            part: Target::new(&stage.others, 'p', 0),
            polls,
        }
    }
}

fn doubled(log: &Log, request: u8) -> Result<u8, u8> {
    log.note(format_args!("checked {request}"));
    if request < 100 {
        Ok(request * 2)
    } else {
        Err(request)
    }
}

impl<'a> Predicate<u8> for Doubling<'a> {
    type Request = u8;

    type Error = u8;

    fn check(&mut self, request: u8) -> Result<u8, u8> {
        doubled(self.log, request)
    }
}

impl<'a> AsyncPredicate<u8> for Doubling<'a> {
    type Request = u8;

    type Error = u8;

    type Future = After<'a, Result<u8, u8>>;

    fn check(&mut self, request: u8) -> After<'a, Result<u8, u8>> {
        After::new(self.log, 'c', self.polls, doubled(self.log, request))
    }
}

/// Picks the service at this place, or the first where there is none. If it turns, its next place is the one after that.
#[derive(Clone, Drop)]
pub struct Picking<'a> {
    log: &'a Log,
    part: Target<'a>,
    place: usize,
    turns: bool,
}

impl<'a> Picking<'a> {
    pub fn new(script: &Script<'a>, place: usize) -> Picking<'a> {
        let stage = script.stage();
        Picking {
            log: stage.log,
            part: Target::new(&stage.others, 'p', 0),
            place,
            turns: script.has("turning"),
        }
    }
}

impl<'a, S> Picker<S, u8> for Picking<'a> {
    fn pick(&mut self, request: &u8, services: &[S]) -> usize {
        let count = services.len();
        self.log
            .note(format_args!("picked for {request} of {count}"));
        let place = if self.place < count { self.place } else { 0 };
        if self.turns {
            self.place = place.saturating_add(1);
        }
        place
    }
}
