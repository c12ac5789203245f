//! `tower-bench`: rounds of small stacks, to be counted.
#![tactic(auto)]

mod balances;
mod buffers;
mod fault;
mod flights;
mod hedges;
mod inner;
mod late;
mod lines;
mod maps;
mod retries;
mod rounds;
mod sizes;
mod stacks;
mod waits;

use fault::Fault;
use futures::task::{Context, Doorbell, Solo};
use stacks::Stack;
use std::alloc::AllocGlobal;
use std::env;
use std::io::{ErrorKind, Write};
use std::process::ExitCode;
use std::random::RandomSource;
use std::rt::Env;
use std::sync::Wait;

fn main(rt: HostRuntime) -> ExitCode {
    match words_of(&rt).and_then(|words| run(rt, &words, rt.stdout())) {
        Ok(()) => ExitCode::SUCCESS,
        Err(fault) => {
            let mut err = rt.stderr();
            let _ = writeln!(err, "{fault}");
            ExitCode::from(fault.status())
        }
    }
}

// The arguments after the program's name. One that isn't text is a wrong one.
fn words_of<R: Env + AllocGlobal>(rt: &R) -> Result<Vec<String>, Fault> {
    match env::args(rt) {
        Ok(args) => args.skip(1).collect(rt.alloc()).map_err(|_| Fault::Memory),
        Err(error) if error.kind() == ErrorKind::OutOfMemory => Err(Fault::Memory),
        Err(_) => Err(Fault::Usage),
    }
}

fn run<R, O>(rt: R, words: &[String], mut out: O) -> Result<(), Fault>
where
    R: Wait + RandomSource + AllocGlobal + Copy,
    O: Write + Drop,
{
    let solo = Solo::new(&rt, Doorbell::spinning()).map_err(|_| Fault::Memory)?;
    let mut cx = solo.begin();
    let ended = match words {
        [name] if name.as_str() == "sizes" => sizes::write(rt, &mut cx, &mut out),
        [name, number] => rounds_of(rt, &mut cx, name.as_str(), number.as_str(), &mut out),
        _ => Err(Fault::Usage),
    };
    cx.cancel();
    ended
}

// The rounds of this name, and their sum.
fn rounds_of<R, O>(
    rt: R,
    cx: &mut Context<'_>,
    name: &str,
    number: &str,
    out: &mut O,
) -> Result<(), Fault>
where
    R: Wait + RandomSource + AllocGlobal + Copy,
    O: Write,
{
    let stack = Stack::named(name).ok_or(Fault::Usage)?;
    let Ok(count) = number.parse::<u64>() else {
        return Err(Fault::Usage);
    };
    let sum = stack.sum(rt, cx, count).map_err(|_| Fault::Memory)?;
    writeln!(out, "{name} {count} sum {sum}").map_err(|_| Fault::CannotWrite)
}
