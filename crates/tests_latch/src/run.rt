//! Runs of any core behind a logged latch: by threads, and step by step.
ghost use Rattle.std.specs.Prelude.{◌≡◌, Some, IfSome};

use crate::fixtures::{Told, compare, told};
use std::alloc::{AllocError, Global};
use std::process::Abort;
use std::sync::Wait;
use std::sync::ledger::Blank;
use std::test::Fail;
use tower_latch::{Core, History, Log, LogTable, Logged, Pass};

/// What a run leaves: the history, with which the receipts of all passes agree.
#[derive(Drop)]
pub struct Run<S, R> {
    pub history: History<S, R>,
    pub told: Told<S, R>,
}

fn numbered<T: Drop>(alloc: Global, items: Vec<T>) -> Result<Vec<(u64, T)>, AllocError> {
    let mut all = Vec::new(alloc);
    for (number, item) in items.into_iter().enumerate() {
        all.push((number as u64, item))?;
    }
    Ok(all)
}

fn gathered<T: Drop>(
    alloc: Global,
    answers: Vec<Result<T, AllocError>>,
) -> Result<Vec<T>, AllocError> {
    let mut all = Vec::new(alloc);
    for answer in answers {
        all.push(answer?)?;
    }
    Ok(all)
}

/// Closes the log, and compares the receipts with its history.
pub fn closed<C, K, R>(
    alloc: Global,
    log: Logged<C, K, R>,
    passes: Vec<Pass<C, K>>,
) -> Result<Run<C::Step, C::Reply>, Fail>
where
    C: Core,
    C::Step: Copy + PartialEq,
    C::Reply: Copy + PartialEq,
    K: Log<C>,
    R: Wait + Drop,
{
    let told = told(alloc, &passes)?;
    let history = log.close(passes).map_err(|_| "a pass is missing")?;
    compare(alloc, history.entries(), &told)?;
    Ok(Run { history, told })
}

/// The last pass, and the others with their numbers.
pub fn last_apart<T: Drop>(
    alloc: Global,
    mut passes: Vec<T>,
) -> Result<(T, Vec<(u64, T)>), AllocError> {
    let last = passes.pop().ok_or(AllocError)?;
    Ok((last, numbered(alloc, passes)?))
}

/// Once the threads have given their passes back, the last pass makes this step, if there is one, and the log is closed.
pub fn ended<C, K, R>(
    alloc: Global,
    log: Logged<C, K, R>,
    answers: Vec<Result<Pass<C, K>, AllocError>>,
    mut last: Pass<C, K>,
    step: Option<C::Step>,
) -> Result<Run<C::Step, C::Reply>, Fail>
where
    C: Core,
    C::Step: Copy + PartialEq,
    C::Reply: Copy + PartialEq,
    K: Log<C>,
    R: Wait + Drop,
    requires { IfSome step C.admits }
{
    let mut back = gathered(alloc, answers)?;
    if let Some(step) = step {
        log.step(&mut last, step)?;
    }
    back.push(last)?;
    closed(alloc, log, back)
}

/// A step that the pass of this number makes, and its reply.
pub type Served<S, R> = (usize, S, R);

// Makes these steps, of which each has its place and its reply.
fn turned<C, K, R>(
    log: &Logged<C, K, R>,
    passes: &mut Vec<Pass<C, K>>,
    turns: &[Served<C::Step, C::Reply>],
) -> Result<bool, AllocError>
where
    C: Core,
    C::Step: Copy,
    C::Reply: Copy + PartialEq,
    K: Log<C>,
    R: Wait + Drop,
    requires { (step : C.Step) → C.admits step }
{
    for (place, (number, step, reply)) in turns.iter().enumerate() {
        let Some(pass) = passes.get_mut(*number) else {
            return Ok(false);
        };
        let receipt = log.step(pass, *step)?;
        if receipt.place != place || receipt.reply != *reply {
            return Ok(false);
        }
    }
    Ok(true)
}

fn are_turns<S: PartialEq, R: PartialEq>(entries: &[(S, R)], turns: &[Served<S, R>]) -> bool {
    let mut both = entries.iter().zip(turns);
    entries.len() == turns.len() && both.all(|(entry, turn)| entry.0 == turn.1 && entry.1 == turn.2)
}

/// These steps of two passes, which come back. They are the history.
pub fn two_passes_run<C, K, R>(
    rt: R,
    alloc: Global,
    blank: Blank,
    table: LogTable<C::Step, C::Reply>,
    core: C,
    turns: &[Served<C::Step, C::Reply>],
) -> Result<Run<C::Step, C::Reply>, Fail>
where
    C: Core,
    C::Step: Copy + PartialEq,
    C::Reply: Copy + PartialEq,
    K: Log<C>,
    R: Wait + Abort + Copy,
    requires name { blank.name ≡ K.name }
    requires parts { (blank.parts ≡ K.parts) × (blank.parts ≡ 2) }
    requires opening { K.opening ≡ Some core }
    requires opens { C.opens core }
    requires admits { (step : C.Step) → C.admits step }
    requires table { table ≡ K.table }
{
    let (log, mut passes) = Logged::<C, K, R>::open(rt, alloc, blank, table, core, 2)?;
    if !turned(&log, &mut passes, turns)? {
        return Err("a step has another place or reply".into());
    }
    let run = closed(alloc, log, passes)?;
    if !are_turns(run.history.entries(), turns) {
        return Err("the history has other steps".into());
    }
    Ok(run)
}

/// These steps of two passes, of which one doesn't come back: the log says so.
pub fn one_pass_is_missing<C, K, R>(
    rt: R,
    alloc: Global,
    blank: Blank,
    table: LogTable<C::Step, C::Reply>,
    core: C,
    turns: &[Served<C::Step, C::Reply>],
) -> Result<(), Fail>
where
    C: Core,
    C::Step: Copy,
    C::Reply: Copy + PartialEq,
    K: Log<C>,
    R: Wait + Abort + Copy,
    requires name { blank.name ≡ K.name }
    requires parts { (blank.parts ≡ K.parts) × (blank.parts ≡ 2) }
    requires opening { K.opening ≡ Some core }
    requires opens { C.opens core }
    requires admits { (step : C.Step) → C.admits step }
    requires table { table ≡ K.table }
{
    let (log, mut passes) = Logged::<C, K, R>::open(rt, alloc, blank, table, core, 2)?;
    let is_turned = turned(&log, &mut passes, turns)?;
    let _lost = passes.pop();
    let missing = log.close(passes).err().ok_or("closed without a pass")?;
    if !is_turned || format!(in alloc; "{missing}")?.as_str() != "pass is missing" {
        return Err("another reply, or another error".into());
    }
    Ok(())
}
