//! Tests of meters, and three readings in one text: of nothing, of all that is counted, and with names and bounds that put the format to
//! the test. What is printed has to be `stdout`, which `scripts/exposition.py` reads by the rules of Prometheus' format.
#![tactic(auto)]

mod counted;
mod traced;

use std::alloc::{AllocError, Global};
use std::io;
use tower_latch::Latch;
use tower_meter::{Bounds, Meter, MeterCore, MeterStep, Named, Reading, Text};

const BOUNDS: [u64; 16] = [
    0,
    1,
    10,
    999,
    1_000,
    250_000_000,
    999_999_999,
    1_000_000_000,
    1_000_000_001,
    2_000_000_000,
    10_500_000_000,
    60_000_000_000,
    3_600_000_000_000,
    1_000_000_000_000_000,
    18_446_744_073_709_551_614,
    18_446_744_073_709_551_615,
];

// Calls, each of which is answered at once: whether by `Ok`, with its kind and time.
fn answers<L: Latch<MeterCore>>(latch: &L, answers: &[(bool, u64, u64)]) {
    for (is_ok, kind, nanos) in answers {
        latch.step(MeterStep::Call);
        latch.step(MeterStep::Answer(*is_ok, *kind, *nanos));
    }
}

fn count_all<L: Latch<MeterCore>>(latch: &L) {
    answers(
        latch,
        &[
            (true, 0, 100_000),
            (true, 0, 100_001),
            (false, 1, 20_000_000_000),
            (false, 15, 7),
            (false, 99, 0),
        ],
    );
    latch.step(MeterStep::Call);
    latch.step(MeterStep::Call);
    latch.step(MeterStep::Abandon);
    latch.step(MeterStep::Unready(1_500_000_000));
    latch.step(MeterStep::Unready(u64::MAX));
    latch.step(MeterStep::Uncounted);
}

fn count_odd<L: Latch<MeterCore>>(latch: &L) {
    answers(
        latch,
        &[
            (true, 0, 0),
            (true, 1, 1),
            (true, 2, 2),
            (true, 3, u64::MAX),
            (true, 3, u64::MAX),
        ],
    );
}

// The readings of three meters: of nothing, of all that is counted, and of the odd bounds.
fn readings<L: Latch<MeterCore>>(
    alloc: Global,
    idle: &Meter<L>,
    busy: &Meter<L>,
    odd: &Meter<L>,
) -> Result<[Reading; 3], AllocError> {
    count_all(&busy.share()?.into_latch());
    count_odd(&odd.share()?.into_latch());
    Ok([idle.read(alloc)?, busy.read(alloc)?, odd.read(alloc)?])
}

fn named(readings: [Reading; 3]) -> [Named; 3] {
    let [idle, busy, odd] = readings;
    [
        Named {
            service: "idle",
            kinds: &[],
            reading: idle,
        },
        Named {
            service: "busy",
            kinds: &["ok", "own"],
            reading: busy,
        },
        Named {
            service: "a \"name\"\nof {a,b} \\n",
            kinds: &["\"", "\\", "é\n", "} 1"],
            reading: odd,
        },
    ]
}

fn main(rt: HostRuntime) -> io::Result<()> {
    let alloc = rt.alloc();
    let bounds = Bounds::new(BOUNDS).unwrap_or(Bounds::standard());
    let (idle, busy) = (Meter::new(rt, alloc)?, Meter::new(rt, alloc)?);
    let odd = Meter::with_bounds(rt, alloc, bounds)?;
    let meters = named(readings(alloc, &idle, &busy, &odd)?);
    print!(rt; "{}", Text::new(&meters))
}
