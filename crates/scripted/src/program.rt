//! The program over files of scripts.

use crate::player::{Services, play};
use crate::report::{Mode, Report};
use std::alloc::AllocGlobal;
use std::random::RandomSource;
use std::rt::{Env, Files};
use std::{env, fs, io};

/// Plays all scripts of the files that the arguments name, prints each line that isn't as expected, and then how many scripts and wrong lines there are.
///
/// After `--write` it prints the scripts with what came in place of what is expected.
pub fn run<R, W>(rt: &R, services: &W) -> io::Result<()>
where
    R: AllocGlobal + Env + Files + Print + RandomSource,
    W: Services,
{
    let mut mode = Mode::Compare;
    let (mut scripts, mut wrong) = (0usize, 0usize);
    for name in env::args(rt)?.skip(1) {
        match name.as_str() {
            "--write" => mode = Mode::Write,
            name => {
                let text = fs::read_to_string(rt, name)?;
                let mut report = Report::new(rt.alloc(), name, mode);
                play(rt, services, text.as_str(), &mut report)?;
                let text = report.text();
                print!(rt; "{text}")?;
                scripts = scripts.saturating_add(report.scripts());
                wrong = wrong.saturating_add(report.wrong());
            }
        }
    }
    match mode {
        Mode::Compare => println!(rt; "{scripts} scripts, {wrong} lines wrong"),
        Mode::Write => Ok(()),
    }
}
