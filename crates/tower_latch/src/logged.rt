//! A lock around a core, with the whole history of its steps.
ghost use Rattle.std.specs.Prelude.{◌≡◌, ◌≢◌, ◌<◌, List, [], ◌∷◌, ◌++◌, length, Some, IfOk, OnOk, OnErr, vec_len};
ghost use Rattle.std.specs.List.{sum_by, AllByRecursion};
ghost use Rattle.tower_latch.specs.History.{IsLegal, EachFits, HaveOneEach, Weighs};

mod log;
mod passes;
mod rule;
mod tokens;

use crate::Core;
use crate::logged::passes::Held;
use crate::logged::rule::Cell;
pub use log::{Log, LogTable};
pub use passes::{Pass, Receipt};
use std::alloc::{AllocError, Global};
use std::marker::{Model, PhantomData};
use std::sync::ledger::{Blank, Ledger};
use std::sync::{Mutex, Wait};

/// The error of `Logged::close` if not all passes of the log came back.
#[derive(Clone, Copy, Debug, Drop, PartialEq, Eq, thiserror::Error)]
#[error("pass is missing")]
pub struct Missing;

/// The steps that were made at a log, with their replies, in order.
#[derive(Drop)]
pub struct History<S, R> {
    entries: Vec<(S, R)>,
}

impl<S, R> Model for History<S, R> {
    ghost Value = { List (S × R) };

    ghost view = { λ h. h.entries.items };
}

impl<S, R> History<S, R> {
    /// Returns the steps with their replies.
    pub fn entries(&self) -> &[(S, R)]
        ensures { result.now ≡ self.now }
    {
        self.entries.as_slice()
    }
}

// The number of passes that a log has.
#[derive(Drop)]
struct Parts<K: Ledger> {
    count: usize,
    of: PhantomData<K>,
    ghost all: { count ≡ K.parts },
}

/// A core under one lock, with the history of its steps. `K` names the log.
///
/// Each thread makes its steps with a pass of its own, which keeps a receipt of each step.
#[derive(Drop)]
pub struct Logged<C: Core, K: Log<C>, W> {
    held: Mutex<Held<C, K>>,
    cell: Cell<C::Step, C::Reply>,
    parts: Parts<K>,
    rt: W,
    ghost same: { cell.table.shared.table_id ≡ K.table },
}

impl<C: Core, K: Log<C>, W: Wait + Drop> Logged<C, K, W>
where
    C::Step: Copy,
    C::Reply: Copy,
{
    /// Opens a log around the core, with `count` passes that have no receipts. Returns an error if
    /// allocation fails; the core is dropped then.
    pub fn open(
        rt: W,
        alloc: Global,
        blank: Blank,
        table: LogTable<C::Step, C::Reply>,
        core: C,
        count: usize,
    ) -> Result<(Logged<C, K, W>, Vec<Pass<C, K>>), AllocError>
        requires name { blank.name ≡ K.name }
        requires parts { (blank.parts ≡ K.parts) × (blank.parts ≡ count) }
        requires some { 0 < count }
        requires opening { K.opening ≡ Some core }
        requires opens { C.opens core }
        requires table { table ≡ K.table }
        ensures { IfOk result
            (λ r. (vec_len r.1 ≡ count) × AllByRecursion (λ p. p ≡ []) r.1.items) }
    {
        let (cell, keeper) = table.into_parts();
        let (held, passes) = Held::open(alloc, blank, &cell, keeper, core, count)?;
        let logged = Logged {
            held: Mutex::new(held),
            cell,
            parts: Parts {
                count,
                of: PhantomData,
            },
            rt,
        };
        Ok((logged, passes))
    }

    /// Makes one step of the core, for which the pass keeps a receipt. Returns an error if the history
    /// or the pass can't grow; then no step is made.
    pub fn step(
        &self,
        pass: &mut Pass<C, K>,
        step: C::Step,
    ) -> Result<Receipt<C::Reply>, AllocError>
        requires { C.admits step }
        ensures ok { IfOk result (λ r. pass.new ≡ pass.old ++ (r.place, step, r.reply) ∷ []) }
        ensures err { OnErr result (pass.new ≡ pass.old) }
    {
        self.held
            .lock(&self.rt)
            .step(&self.rt, &self.cell, pass, step)
    }

    /// Closes the log and returns its history, if all passes have come back. Returns `Missing` if the
    /// number of passes isn't the one that the log opened with; everything is dropped then.
    pub fn close(self, passes: Vec<Pass<C, K>>) -> Result<History<C::Step, C::Reply>, Missing>
        ensures all { OnOk result (vec_len passes ≡ K.parts) }
        ensures missing { OnErr result (vec_len passes ≢ K.parts) }
        ensures legal { IfOk result (λ h. IsLegal C.opens C.steps K.opening h) }
        ensures count { IfOk result (λ h. length h ≡ sum_by length passes.items) }
        ensures stand { IfOk result (λ h. EachFits h passes.items) }
        ensures each { IfOk result (λ h. HaveOneEach h passes.items) }
        ensures weighs { IfOk result (λ h. Weighs h passes.items) }
    {
        if passes.len() != self.parts.count {
            return Err(Missing);
        }
        let Logged {
            held,
            cell,
            parts: _,
            rt,
        } = self;
        let entries = held.into_inner().into_history(&rt, &cell, passes);
        Ok(History { entries })
    }
}
