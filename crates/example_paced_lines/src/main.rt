//! `example_paced_lines N P`: copies lines, at most N in any P milliseconds. While a line has to wait, the
//! thread sleeps: its clock is one of timers, whose thread wakes it.
#![tactic(auto)]

mod fault;
mod lines;
mod pace;
mod paced;
mod writing;

use fault::Fault;
use paced::{Console, report, run};
use std::env;
use std::io::{Error, ErrorKind, IsTerminal};
use std::process::ExitCode;
use tower_time::Timers;

fn main(rt: HostRuntime) -> ExitCode {
    let Ok(args) = env::args(&rt) else {
        return ExitCode::from(report(Fault::Usage, rt.stderr()));
    };
    let Ok(words) = args.skip(1).collect::<Vec<String>>(rt.alloc()) else {
        return ExitCode::from(report(Fault::Memory, rt.stderr()));
    };
    let timers = match Timers::new(rt, rt.alloc()) {
        Ok(timers) => timers,
        Err(error) => return ExitCode::from(report(fault_of(&error), rt.stderr())),
    };
    let console = Console {
        reader: rt.stdin(),
        out: rt.stdout(),
        err: rt.stderr(),
        shows_progress: rt.stderr().is_terminal(),
    };
    ExitCode::from(timers.beside(&rt, || run(&rt, &words, console, timers.clock())))
}

// The fault if there are no timers: there is no memory, or the machine's clock can't be read.
fn fault_of(error: &Error) -> Fault {
    match error.kind() {
        ErrorKind::OutOfMemory => Fault::Memory,
        _ => Fault::CannotRead,
    }
}
