//! A script's reader and the two writers, of which a call of some number fails.

use std::alloc::{AllocGlobal, Global};
use std::cell::Cell;
use std::io;
use std::io::{ErrorKind, Read, Write};
use std::random::RandomSource;
use std::sync::Wait;
use std::test::Fail;
use std::thread::Threads;
use tower_run::run;

const SCRIPT: &[u8] = b"poll\nat 1\n";

const PRINTED: &[u8] = b"poll ready\nat 1\ninner polls 1 calls 0\n";

// The most bytes that a call takes.
const TAKES: usize = 4;

// How a run ends: its status, both texts, and how many calls the reader and the output had.
#[derive(Clone, Copy)]
struct Ends {
    status: u8,
    out: &'static [u8],
    err: &'static [u8],
    reads: u64,
    writes: u64,
}

// Counts the calls of a file, and has one fail: that of this number, counted from 1.
#[derive(Drop)]
struct Calls {
    fails: u64,
    made: Cell<u64>,
}

impl Calls {
    fn new(fails: u64) -> Calls {
        Calls {
            fails,
            made: Cell::new(0),
        }
    }

    fn next(&self) -> io::Result<()> {
        let made = self.made.get().saturating_add(1);
        self.made.set(made);
        if made == self.fails {
            return Err(io::Error::from(ErrorKind::Other));
        }
        Ok(())
    }
}

// A script that is read four bytes at a time.
#[derive(Drop)]
struct Tape<'a> {
    rest: &'static [u8],
    calls: &'a Calls,
}

impl Read for Tape<'_> {
    fn read(&mut self, buf: &mut [u8]) -> io::Result<usize> {
        self.calls.next()?;
        let room = buf.len().min(TAKES);
        self.rest.read(&mut buf[..room])
    }
}

// A page that is written four bytes at a time. A flush is a call too.
#[derive(Drop)]
struct Page<'a> {
    calls: &'a Calls,
    written: Vec<u8>,
}

impl<'a> Page<'a> {
    fn new(alloc: Global, calls: &'a Calls) -> Page<'a> {
        Page {
            calls,
            written: Vec::new(alloc),
        }
    }
}

impl Write for Page<'_> {
    fn write(&mut self, buf: &[u8]) -> io::Result<usize> {
        self.calls.next()?;
        let count = buf.len().min(TAKES);
        self.written.extend_from_slice(&buf[..count])?;
        Ok(count)
    }

    fn flush(&mut self) -> io::Result<()> {
        self.calls.next()
    }
}

// Runs the script while the call of this number fails, of the reader, of the output and of the faults: 0 is none.
// Fails, with what fails, if the run ends in another way.
fn run_failing<H>(rt: &H, what: &str, fails: [u64; 3], ends: Ends) -> Result<(), Fail>
where
    H: Threads + Wait + RandomSource + AllocGlobal + Copy + Send + Drop + 'static,
{
    let alloc = rt.alloc();
    let words = [String::from_str(alloc, "timeout")?];
    let reads = Calls::new(fails[0]);
    let writes = Calls::new(fails[1]);
    let tells = Calls::new(fails[2]);
    let script = Tape {
        rest: SCRIPT,
        calls: &reads,
    };
    let mut out = Page::new(alloc, &writes);
    let mut err = Page::new(alloc, &tells);
    let status = run(rt, &words, script, &mut out, &mut err);
    let is_told = out.written.as_slice() == ends.out && err.written.as_slice() == ends.err;
    let is_counted = reads.made.get() == ends.reads && writes.made.get() == ends.writes;
    if status == ends.status && is_told && is_counted {
        return Ok(());
    }
    Err(Fail::new(what))
}

// The end of a run whose script can't be read: the read of this number failed.
fn unread(read: u64) -> Ends {
    Ends {
        status: 3,
        out: b"",
        err: b"cannot read\n",
        reads: read,
        writes: 0,
    }
}

// The end of a run whose output can't be written: the write of this number failed, or the flush.
fn unwritten(write: u64) -> Ends {
    let written = TAKES
        .saturating_mul(write.saturating_sub(1) as usize)
        .min(PRINTED.len());
    Ends {
        status: 3,
        out: &PRINTED[..written],
        err: b"cannot write\n",
        reads: 4,
        writes: write,
    }
}

// The script is read by four calls. The output is written by ten, and an eleventh flushes it.
#[test]
fn each_call_of_a_file_fails(rt: HostRuntime) -> Result<(), Fail> {
    for read in 1..=4 {
        run_failing(&rt, "a read", [read, 0, 0], unread(read))?;
    }
    for write in 1..=11 {
        run_failing(&rt, "a write", [0, write, 0], unwritten(write))?;
    }
    let whole = Ends {
        status: 0,
        out: PRINTED,
        err: b"",
        reads: 4,
        writes: 11,
    };
    run_failing(&rt, "nothing", [5, 12, 1], whole)?;
    let untold = Ends {
        err: b"cann",
        ..unread(2)
    };
    run_failing(&rt, "a read and the fault", [2, 0, 2], untold)
}
