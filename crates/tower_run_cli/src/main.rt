//! `tower-run`: the program over the library `tower_run`.
#![tactic(auto)]

use std::process::ExitCode;
use tower_run::{report, run, words_of};

fn main(rt: HostRuntime) -> ExitCode {
    let status = match words_of(&rt) {
        Ok(words) => run(&rt, &words, rt.stdin(), rt.stdout(), rt.stderr()),
        Err(fault) => report(fault, rt.stderr()),
    };
    ExitCode::from(status)
}
