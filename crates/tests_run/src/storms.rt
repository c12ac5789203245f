//! Storms behind a gate: that two threads hold a permit at once, and that a refused storm ends after its threads.

use std::alloc::{AllocError, AllocGlobal, Global};
use std::random::RandomSource;
use std::sync::atomic::{AtomicU64, Ordering};
use std::sync::{Arc, Wait};
use std::test::Fail;
use std::thread;
use std::thread::Threads;
use tower_run::Fault;
use tower_run::storm::{Gate, Storm};

const TURNS: u32 = 1_000_000;

// What happened at the gate.
#[derive(Drop)]
struct Stage {
    // How many more threads may have the gate.
    left: AtomicU64,
    came: AtomicU64,
    met: AtomicU64,
    passed: AtomicU64,
}

// Holds thread 0 in its first round until thread 1 has come, for so many turns.
#[derive(Drop)]
struct Meeting(Arc<Stage, Global>);

impl Clone for Meeting {
    fn clone(&self) -> Result<Meeting, AllocError> {
        if self.0.left.load(Ordering::SeqCst) == 0 {
            return Err(AllocError);
        }
        self.0.left.fetch_sub(1, Ordering::SeqCst);
        Ok(Meeting(Arc::try_clone(&self.0)?))
    }
}

impl Gate for Meeting {
    fn enter(&self, thread: u64, round: u64) {
        let stage = &self.0;
        if thread == 1 {
            stage.came.store(1, Ordering::SeqCst);
        }
        if thread == 0 && round == 0 {
            meet(stage);
        }
        stage.passed.fetch_add(1, Ordering::SeqCst);
    }
}

fn meet(stage: &Stage) {
    for _ in 0..TURNS {
        if stage.came.load(Ordering::SeqCst) == 1 {
            stage.met.store(1, Ordering::SeqCst);
            return;
        }
        thread::yield_now();
    }
}

// A storm of 2 threads with 10 rounds each over 2 permits, behind a gate that so many threads may have. Returns how many
// rounds passed the gate once it had ended, whether the two met, and how many permits were free, or `None` if memory was refused.
fn storm<H>(rt: &H, gates: u64) -> Result<(u64, u64, Option<usize>), Fail>
where
    H: Threads + Wait + RandomSource + AllocGlobal + Copy + Send + Drop + 'static,
{
    let stage = Arc::new(
        rt.alloc(),
        Stage {
            left: AtomicU64::new(gates),
            came: AtomicU64::new(0),
            met: AtomicU64::new(0),
            passed: AtomicU64::new(0),
        },
    )?;
    let meeting = Meeting(Arc::try_clone(&stage)?);
    let storm = Storm::parse("2", "10", "2").ok_or("three numbers")?;
    let free = match storm.run(rt, &meeting) {
        Ok(report) => Some(report.free),
        Err(Fault::Memory) => None,
        Err(_) => return Err(Fail::new("another fault")),
    };
    let passed = stage.passed.load(Ordering::SeqCst);
    Ok((passed, stage.met.load(Ordering::SeqCst), free))
}

#[test]
fn storm_meets(rt: HostRuntime) -> Result<(), Fail> {
    assert_eq!(rt; storm(&rt, 2)?, (20, 1, Some(2)));
    Ok(())
}

// The second thread isn't started, since its gate is refused. The first makes its rounds nevertheless.
#[test]
fn refused_storm_ends_after_its_threads(rt: HostRuntime) -> Result<(), Fail> {
    assert_eq!(rt; storm(&rt, 1)?, (10, 0, None));
    Ok(())
}
