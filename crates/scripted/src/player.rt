//! A text of scripts, separated by blank lines.

use crate::report::Report;
use crate::script::Script;
use crate::step::Step;
use futures::task::Solo;
use std::alloc::{AllocError, AllocGlobal, Global};
use std::random::RandomSource;
use tests_support::log::Log;
use tests_support::run::task;
use tests_support::story::Stage;

/// The services that a program plays scripts by.
pub trait Services {
    /// Plays the script by the service that its first line names, or reports that line as unread.
    fn play(&self, script: &Script<'_>, report: &mut Report<'_>) -> Result<(), AllocError>;
}

// The text with the notes of each line in that line: a line that begins with `|` goes on with those of the line before, after a tab.
fn joined(alloc: Global, text: &str) -> Result<String, AllocError> {
    let mut whole = String::new(alloc);
    for (number, line) in text.lines().enumerate() {
        match line.trim_start().strip_prefix("|") {
            Some(notes) => {
                whole.push('\t')?;
                whole.push_str(notes)?;
            }
            None => {
                if number > 0 {
                    whole.push('\n')?;
                }
                whole.push_str(line)?;
            }
        }
    }
    Ok(whole)
}

/// Plays all scripts of the text.
pub fn play<R, W>(
    rt: &R,
    services: &W,
    text: &str,
    report: &mut Report<'_>,
) -> Result<(), AllocError>
where
    R: RandomSource + AllocGlobal,
    W: Services,
{
    let alloc = rt.alloc();
    let solo = task(rt).map_err(|_| AllocError)?;
    let text = joined(alloc, text)?;
    let mut steps = Vec::new(alloc);
    let mut number = 1usize;
    for text in text.as_str().lines() {
        let text = text.trim();
        if text.is_empty() {
            play_one(alloc, &solo, services, steps.as_slice(), report)?;
            steps.clear();
            report.aside(text)?;
        } else if !text.starts_with('#') {
            steps.push(Step::new(number, text))?;
        } else if steps.is_empty() {
            report.aside(text)?;
        } else {
            steps.push(Step::comment(number, text))?;
        }
        number = number.saturating_add(text.split('\t').count());
    }
    play_one(alloc, &solo, services, steps.as_slice(), report)
}

fn play_one<W: Services>(
    alloc: Global,
    solo: &Solo,
    services: &W,
    steps: &[Step<'_>],
    report: &mut Report<'_>,
) -> Result<(), AllocError> {
    let Some((first, rest)) = steps.split_first() else {
        return Ok(());
    };
    let log = Log::new(alloc)?;
    make_room(alloc, &log)?;
    let stage = Stage::new(&log);
    let script = Script {
        alloc,
        solo,
        stage: &stage,
        first: *first,
        rest,
    };
    report.begin();
    ends_once(steps, report)?;
    script.set_up(report)?;
    services.play(&script, report)
}

// Room for the notes of one line, made before any: a note that found none would be lost without a word.
fn make_room(alloc: Global, log: &Log) -> Result<(), AllocError> {
    for _ in 0..1000u32 {
        log.note("sixty-four bytes for each of a thousand of notes in one line");
    }
    log.told(alloc)?;
    Ok(())
}

// A script has one `end`, its last line: after a lost blank line another script would follow.
fn ends_once(steps: &[Step<'_>], report: &mut Report<'_>) -> Result<(), AllocError> {
    let Some((last, before)) = steps.split_last() else {
        return Ok(());
    };
    for step in before {
        if step.asked == "end" {
            report.refuse(step, "a line follows the end")?;
        }
    }
    if last.asked != "end" {
        report.refuse(last, "no end follows")?;
    }
    Ok(())
}
