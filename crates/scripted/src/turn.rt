//! What a script changes around a service.

use crate::command::{Directive, Side, readiness_list, replies_list};
use std::alloc::{AllocError, Global};
use tests_support::script::Script;
use tests_support::story::Stage;

/// What came of a change.
#[derive(Clone, Copy, Debug, PartialEq, Eq)]
pub(crate) enum Turned {
    Done,
    /// There is no such call, or it has its answer.
    Skipped,
    /// Its words can't be read.
    Unread,
}

fn readiness(alloc: Global, plan: &Script<'_>, text: &str) -> Result<Turned, AllocError> {
    match readiness_list(alloc, text)? {
        Some(list) => {
            plan.readiness(list.as_slice());
            Ok(Turned::Done)
        }
        None => Ok(Turned::Unread),
    }
}

fn replies(alloc: Global, plan: &Script<'_>, text: &str) -> Result<Turned, AllocError> {
    match replies_list(alloc, text)? {
        Some(list) => {
            plan.replies(list.as_slice());
            Ok(Turned::Done)
        }
        None => Ok(Turned::Unread),
    }
}

fn plan_of<'s, 'a>(stage: &'s Stage<'a>, side: Side) -> &'s Script<'a> {
    match side {
        Side::Services => &stage.script,
        Side::Others => &stage.others,
    }
}

/// Makes the change.
pub(crate) fn turn(
    alloc: Global,
    stage: &Stage<'_>,
    turn: Directive<'_>,
) -> Result<Turned, AllocError> {
    match turn {
        Directive::Quiet => stage.log.hush(),
        Directive::Stirs => stage.log.stir(),
        Directive::At(moment) => stage.moment.set(moment),
        Directive::Clones(side, clones) => plan_of(stage, side).clones(clones),
        Directive::Answer(side, call, answer) => {
            if !plan_of(stage, side).answer(call, answer) {
                return Ok(Turned::Skipped);
            }
        }
        Directive::Readiness(side, text) => return readiness(alloc, plan_of(stage, side), text),
        Directive::Replies(side, text) => return replies(alloc, plan_of(stage, side), text),
    }
    Ok(Turned::Done)
}
