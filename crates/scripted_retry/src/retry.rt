//! `retry [uncopied] [layer] [get_mut] [into_inner]`: with a policy `r`, which says what `policy WORDS` told it to say next: `done` (the
//! result is the answer), `again [POLLS]`, `change REQUEST [POLLS]`, `answer ok N`, `answer err N`, or `always` (again, now and each time after).
//! The wait `w` of a retry is pending so many times. If it is `uncopied`, the policy copies no request.
//!
//! `retry_limited`: over a limit of one permit, with a policy that retries one error.

use crate::policy::{Rule, Speaker, Stubborn, Words};
use scripted::report::Report;
use scripted::script::{Numbers, Script};
use std::alloc::AllocError;
use std::sync::Wait;
use tests_support::service::Scripted;
use tower_base::layer::Layer;
use tower_latch::Latch;
use tower_limit::limit::ConcurrencyLimit;
use tower_limit::limit::concurrency::LineCore;
use tower_retry::retry::{Retry, RetryLayer};

fn made<'w, 'a>(
    script: &Script<'a>,
    rule: Rule<'w, 'a>,
) -> Result<Retry<Rule<'w, 'a>, Scripted<'a>>, AllocError> {
    if script.has("layer") {
        let layer = RetryLayer::new(rule).clone()?;
        return layer.layer(script.service('s'));
    }
    let mut service = Retry::new(rule, script.service('s'));
    if script.has("get_mut") {
        *service.get_mut() = script.service('t');
        drop(service.get_ref().clone()?);
    }
    Ok(service)
}

pub fn play(script: &Script<'_>, report: &mut Report<'_>) -> Result<(), AllocError> {
    let words = Words::new(script.alloc());
    played(script, report, &words)
}

fn played(script: &Script<'_>, report: &mut Report<'_>, words: &Words) -> Result<(), AllocError> {
    let rule = Rule::new(&script.stage().script, words, !script.has("uncopied"));
    let Ok(service) = made(script, rule) else {
        return script.over(report, "out of memory");
    };
    if script.has("into_inner") {
        drop(service.into_inner());
        return script.over(report, "");
    }
    let mut speaker = Speaker { words };
    script.play_with(report, service, &Numbers, &mut speaker)
}

pub fn play_limited<R: Wait + Copy>(
    rt: R,
    script: &Script<'_>,
    report: &mut Report<'_>,
) -> Result<(), AllocError> {
    match ConcurrencyLimit::new(rt, script.alloc(), script.service('s'), 1) {
        Ok(inner) => limited(script, report, inner),
        Err(AllocError) => script.over(report, "out of memory"),
    }
}

fn limited<L: Latch<LineCore>>(
    script: &Script<'_>,
    report: &mut Report<'_>,
    inner: ConcurrencyLimit<Scripted<'_>, L>,
) -> Result<(), AllocError> {
    let retry = Retry::new(Stubborn { left: 1 }, inner);
    script.play_alone(report, retry, &Numbers)
}
