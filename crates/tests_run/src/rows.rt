//! The program's rows: what the words and the script print, and the status.

use std::alloc::AllocGlobal;
use std::random::RandomSource;
use std::sync::Wait;
use std::test::Fail;
use std::thread::Threads;
use tower_run::run;

// A run: its words, with a space between two, its script, its status, and what it prints: at 0 to its output, else to
// the other writer.
type Row = (&'static str, &'static str, u8, &'static str);

const USAGE: &str = "usage: tower-run STACK | tower-run storm T N M\n";

const TIMED: &str = "poll\ncall a\nat 9\nfut 0\nat 10\nfut 0\n";

const TIMED_OUT: &str =
    "poll ready\ncall 0\nat 9\nfut 0 pending\nat 10\nfut 0 error request timed out\ninner polls 1 calls 1\n";

const ANSWERED: &str = "poll\ncall a\nat 9\nfut 0\nat 10\nanswer 0 ok b\nfut 0\n";

const ANSWERED_OUT: &str =
    "poll ready\ncall 0\nat 9\nfut 0 pending\nat 10\nanswer 0\nfut 0 ok b\ninner polls 1 calls 1\n";

const RATED: &str = "poll\ncall a\npoll\ncall b\nat 9\npoll\nat 10\npoll\n";

const RATED_OUT: &str =
    "poll ready\ncall 0\npoll ready\ncall 1\nat 9\npoll pending\nat 10\npoll ready\ninner polls 3 calls 2\n";

const LIMITED: &str = "poll\ncall a\npoll\nanswer 0 ok x\nfut 0\npoll\ndrop 0\npoll\n";

const LIMITED_OUT: &str =
    "poll ready\ncall 0\npoll pending\nanswer 0\nfut 0 ok x\npoll pending\ndrop 0\npoll ready\ninner polls 2 calls 1\n";

const SHED: &str =
    "allow 0\npoll\ncall a\nfut 0\nallow 1\npoll\ncall b\nanswer 0 err no\nfut 1\ncall c\n";

const SHED_OUT: &str =
    "allow 0\npoll ready\ncall 0\nfut 0 error service overloaded\nallow 1\npoll ready\ncall 1\nanswer 0\nfut 1 error no\nskipped\ninner polls 2 calls 1\n";

const ALL: &str =
    "poll\ncall a\npoll\ncall b\nfut 1\nat 10\nfut 0\ndrop 0\npoll\ncall c\nanswer 1 ok z\nfut 2\nfut 9\n";

const ALL_OUT: &str =
    "poll ready\ncall 0\npoll ready\ncall 1\nfut 1 error service overloaded\nat 10\nfut 0 error request timed out\ndrop 0\npoll ready\ncall 2\nanswer 1\nfut 2 ok z\nskipped\ninner polls 2 calls 2\n";

const ROWS: [Row; 19] = [
    ("timeout", TIMED, 0, TIMED_OUT),
    ("timeout", ANSWERED, 0, ANSWERED_OUT),
    ("rate", RATED, 0, RATED_OUT),
    ("limit", LIMITED, 0, LIMITED_OUT),
    ("shed", SHED, 0, SHED_OUT),
    ("all", ALL, 0, ALL_OUT),
    ("all", "", 0, "inner polls 0 calls 0\n"),
    ("timeout", "poll\n\npoll\n", 2, "line 2: bad line\n"),
    (
        "timeout",
        "poll\nanswer 0 maybe x\n",
        2,
        "line 2: bad line\n",
    ),
    ("", "", 2, USAGE),
    ("Timeout", "", 2, USAGE),
    ("timeout timeout", "", 2, USAGE),
    ("storm 65 1 1", "", 2, USAGE),
    ("storm 1 1 0", "", 2, USAGE),
    ("storm 1 1 1000001", "", 2, USAGE),
    (
        "storm 4 1000 2",
        "",
        0,
        "threads 4 rounds 4000 free 2 of 2\n",
    ),
    (
        "storm 8 10000 3",
        "",
        0,
        "threads 8 rounds 80000 free 3 of 3\n",
    ),
    ("storm 1 0 1", "", 0, "threads 1 rounds 0 free 1 of 1\n"),
    (
        "storm 64 1 1000000",
        "",
        0,
        "threads 64 rounds 64 free 1000000 of 1000000\n",
    ),
];

// Runs a row. Fails, with its words, if its status or a writer differs.
fn play<H>(rt: &H, row: Row) -> Result<(), Fail>
where
    H: Threads + Wait + RandomSource + AllocGlobal + Copy + Send + Drop + 'static,
{
    let (line, script, wanted, text) = row;
    let alloc = rt.alloc();
    let mut words = Vec::new(alloc);
    for word in line.split_terminator(' ') {
        words.push(String::from_str(alloc, word)?)?;
    }
    let (mut out, mut err) = (Vec::new(alloc), Vec::new(alloc));
    let status = run(rt, &words, script.as_bytes(), &mut out, &mut err);
    let (printed, silent) = if wanted == 0 { (out, err) } else { (err, out) };
    if status == wanted && printed.as_slice() == text.as_bytes() && silent.is_empty() {
        return Ok(());
    }
    Err(Fail::new(line))
}

#[test]
fn rows_of_the_program(rt: HostRuntime) -> Result<(), Fail> {
    for row in ROWS {
        play(&rt, row)?;
    }
    Ok(())
}
