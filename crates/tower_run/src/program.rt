//! The program, from its arguments and its script to its output.
ghost use Rattle.std.specs.Prelude.{◌≡◌};
ghost use Rattle.tower_run.specs.Fault.{status_of};
ghost use Rattle.tower_run.specs.Words.{AskFor};

use crate::fault::Fault;
use crate::script;
use crate::script::MAX_BYTES;
use crate::storm::Open;
use crate::words::Task;
use std::alloc::{AllocGlobal, Global};
use std::env;
use std::io::{ErrorKind, Read, Write};
use std::random::RandomSource;
use std::rt::Env;
use std::sync::Wait;
use std::thread::Threads;

/// Runs the program. `words` are the arguments after its name. Returns the status: 0 on success; 1 if
/// allocation failed; 2 for wrong arguments, a bad line or a script that is too long; 3 if reading or
/// writing failed, or a thread couldn't be started.
///
/// The whole script is read before anything runs, and the whole output is built before the first write.
pub fn run<H, R, O, E>(rt: &H, words: &[String], reader: R, out: O, err: E) -> u8
where
    H: Threads + Wait + RandomSource + AllocGlobal + Copy + Send + Drop + 'static,
    R: Read + Drop,
    O: Write + Drop,
    E: Write + Drop,
    ensures { ((task : Task) → ¬ AskFor words.now task) → result ≡ 2 }
{
    let Some(task) = Task::of(words) else {
        return report(Fault::Usage, err);
    };
    match perform(rt, task, reader).and_then(|text| write(out, text.as_str())) {
        Ok(()) => 0,
        Err(fault) => report(fault, err),
    }
}

/// Writes the fault's line, and returns its status even if the line can't be written.
pub fn report<E: Write + Drop>(fault: Fault, mut err: E) -> u8
    ensures { result ≡ status_of fault }
{
    let _ = writeln!(err, "{fault}");
    let _ = err.flush();
    fault.status()
}

// Performs the task, and returns what is to be printed.
fn perform<H, R>(rt: &H, task: Task, reader: R) -> Result<String, Fault>
where
    H: Threads + Wait + RandomSource + AllocGlobal + Copy + Send + Drop + 'static,
    R: Read + Drop,
{
    match task {
        Task::Storm(storm) => {
            let report = storm.run(rt, &Open)?;
            format!(in rt.alloc(); "{report}\n").map_err(|_| Fault::Memory)
        }
        Task::Script(stack) => {
            let script = read(rt.alloc(), reader)?;
            let commands = script::parse(rt.alloc(), &script)?;
            stack.play(rt, commands).map_err(|_| Fault::Memory)
        }
    }
}

// Reads the whole script, and no byte after the first one that is too many.
fn read<R: Read + Drop>(alloc: Global, mut reader: R) -> Result<Vec<u8>, Fault> {
    let mut script = Vec::new(alloc);
    let mut chunk = [0; 4096];
    for _ in 0..u64::MAX {
        let room = chunk
            .len()
            .min((MAX_BYTES + 1).saturating_sub(script.len()));
        match reader.read(&mut chunk[..room]) {
            Ok(0) => return Ok(script),
            Ok(count) => script
                .extend_from_slice(&chunk[..count])
                .map_err(|_| Fault::Memory)?,
            Err(error) if error.kind() == ErrorKind::Interrupted => {}
            Err(_) => return Err(Fault::CannotRead),
        }
        if script.len() > MAX_BYTES {
            return Err(Fault::TooLong);
        }
    }
    Err(Fault::CannotRead)
}

fn write<O: Write + Drop>(mut out: O, text: &str) -> Result<(), Fault> {
    out.write_all(text.as_bytes())
        .and_then(|()| out.flush())
        .map_err(|_| Fault::CannotWrite)
}

/// Returns the arguments after the program's name. If one isn't text, the fault is `Usage`.
pub fn words_of<H: Env + AllocGlobal>(rt: &H) -> Result<Vec<String>, Fault> {
    match env::args(rt) {
        Ok(args) => args.skip(1).collect(rt.alloc()).map_err(|_| Fault::Memory),
        Err(error) => Err(Fault::of_words(error.kind())),
    }
}
