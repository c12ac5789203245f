//! The contents of a log's lock, and the passes with which threads make steps.
ghost use Rattle.std.specs.Prelude.{◌≡◌, ℕ, ◌+◌, ◌<◌, List, [], ◌∷◌, ◌++◌, length, Some, IfOk, OnErr, vec_len};
ghost use Rattle.std.specs.List.{sum_by, AllByRecursion};
ghost use Rattle.crossbeam_utils.specs.Seq.{cell_view};
ghost use Rattle.tower_latch.specs.History.{LeadsTo, IsLegal, Rises, EachFits, HaveOneEach, Weighs};
ghost use Rattle.tower_latch.specs.Tokens.{knower, claimer};

use crate::Core;
use crate::logged::log::Log;
use crate::logged::rule::{Cell, Claims, PassToken};
use crate::logged::tokens::{compare, gather, stamp};
use std::alloc::{AllocError, Global};
use std::marker::{Model, PhantomData};
use std::sync::Wait;
use std::sync::ledger::{Blank, Book, Share};

/// What a step returns: its place in the history, counted from 0, and its reply.
#[derive(Clone, Copy, Debug, Drop, PartialEq, Eq)]
pub struct Receipt<R> {
    pub place: usize,
    pub reply: R,
}

/// A pass, with which a thread makes steps. Contracts see the receipts of its steps: place, step and reply.
#[derive(Drop)]
pub struct Pass<C: Core, K: Log<C>> {
    receipts: Vec<(usize, C::Step, C::Reply)>,
    token: PassToken<C::Step, C::Reply>,
    share: Share<K>,
    of: PhantomData<C>,
}

impl<C: Core, K: Log<C>> Model for Pass<C, K> {
    ghost Value = { List (ℕ × C.Step × C.Reply) };

    // The view leaves out `token` and `share`: the invariant tells both.
    ghost view = { λ p. p.receipts.items };

    ghost invariant = { λ p. (p.share.parts ≡ 1) × (p.share.amount ≡ length p.receipts.items)
        × (p.token.table_id ≡ K.table) × (cell_view p.token ≡ claimer p.receipts.items)
        × Rises p.receipts.items };
}

impl<C: Core, K: Log<C>> Pass<C, K> {
    /// Returns the receipts: the place, the step and the reply of each step that was made with this pass.
    pub fn receipts(&self) -> &[(usize, C::Step, C::Reply)]
        ensures same { result.now ≡ self.now }
        ensures rises { Rises self.now }
    {
        self.receipts.as_slice()
    }
}

/// The core, with the history that leads to it.
#[derive(Drop)]
pub struct Held<C: Core, K: Log<C>> {
    core: C,
    history: Vec<(C::Step, C::Reply)>,
    book: Book<K>,
    rest: Share<K>,
    keeper: PassToken<C::Step, C::Reply>,
}

impl<C: Core, K: Log<C>> Model for Held<C, K> {
    ghost Value = { List (C.Step × C.Reply) };

    // The view leaves out `core`, `book`, `rest` and `keeper`: the invariant tells of each.
    ghost view = { λ h. h.history.items };

    ghost invariant = { λ h. LeadsTo C.opens C.steps K.opening h.history.items h.core
        × (h.book.total ≡ length h.history.items) × (h.keeper.table_id ≡ K.table)
        × (cell_view h.keeper ≡ knower h.history.items) × (h.rest.parts ≡ 0)
        × (h.rest.amount ≡ 0) };
}

impl<C: Core, K: Log<C>> Held<C, K>
where
    C::Step: Copy,
    C::Reply: Copy,
{
    /// Makes one step of the core, and enters it in the history and in the pass. Returns an error if
    /// allocation fails; then no step was made.
    pub fn step<W: Wait>(
        &mut self,
        rt: &W,
        cell: &Cell<C::Step, C::Reply>,
        pass: &mut Pass<C, K>,
        step: C::Step,
    ) -> Result<Receipt<C::Reply>, AllocError>
        requires cell { cell.now.table.shared.table_id ≡ K.table }
        requires admits { C.admits step }
        ensures place { IfOk result (λ r. r.place ≡ length self.old) }
        ensures history { IfOk result (λ r. self.new ≡ self.old ++ (step, r.reply) ∷ []) }
        ensures pass { IfOk result (λ r. pass.new ≡ pass.old ++ (r.place, step, r.reply) ∷ []) }
        ensures err { OnErr result ((self.new ≡ self.old) × (pass.new ≡ pass.old)) }
    {
        self.history.reserve(1)?;
        pass.receipts.reserve(1)?;
        let place = self.history.len();
        let (reply, _) = self.core.step(step);
        stamp(rt, cell, &mut self.keeper, &mut pass.token, step, reply);
        self.book.add(&mut pass.share, 1);
        self.history.push_reserved((step, reply));
        pass.receipts.push_reserved((place, step, reply));
        Ok(Receipt { place, reply })
    }
}

impl<C: Core, K: Log<C>> Held<C, K>
where
    C::Step: Copy,
    C::Reply: Copy,
{
    /// Returns the history, after the receipts of all passes were compared with it.
    pub fn into_history<W: Wait>(
        self,
        rt: &W,
        cell: &Cell<C::Step, C::Reply>,
        mut passes: Vec<Pass<C, K>>,
    ) -> Vec<(C::Step, C::Reply)>
        requires cell { cell.now.table.shared.table_id ≡ K.table }
        requires all { vec_len passes ≡ K.parts }
        ensures same { result.items ≡ self }
        ensures legal { IsLegal C.opens C.steps K.opening result.items }
        ensures count { length result.items ≡ sum_by length passes.items }
        ensures stand { EachFits result.items passes.items }
        ensures weighs { Weighs result.items passes.items }
        ensures each { HaveOneEach result.items passes.items }
    {
        let Held {
            core: _,
            history,
            mut book,
            mut rest,
            mut keeper,
        } = self;
        while let Some(pass) = passes.pop() {
            let Pass {
                receipts: _,
                token,
                share,
                of: _,
            } = pass;
            rest.merge(share);
            gather(cell, &mut keeper, token);
        }
        compare(rt, cell, &mut keeper);
        book.audit(&mut rest);
        history
    }
}

impl<C: Core, K: Log<C>> Held<C, K>
where
    C::Step: Copy,
    C::Reply: Copy,
{
    /// Creates a `Held` of the core with an empty history, and `count` passes. Returns an error if
    /// allocation fails.
    pub(crate) fn open(
        alloc: Global,
        blank: Blank,
        cell: &Cell<C::Step, C::Reply>,
        mut keeper: PassToken<C::Step, C::Reply>,
        core: C,
        count: usize,
    ) -> Result<(Held<C, K>, Vec<Pass<C, K>>), AllocError>
        requires name { blank.name ≡ K.name }
        requires parts { (blank.parts ≡ K.parts) × (blank.parts ≡ count) }
        requires some { 0 < count }
        requires opening { K.opening ≡ Some core }
        requires opens { C.opens core }
        requires table { cell.now.table.shared.table_id ≡ K.table }
        requires keeper { (keeper.table_id ≡ K.table) × (cell_view keeper ≡ knower []) }
        ensures { IfOk result
            (λ r. (r.0 ≡ []) × (vec_len r.1 ≡ count) × AllByRecursion (λ p. p ≡ []) r.1.items) }
    {
        let (book, mut rest) = blank.open::<K>();
        let mut passes = Vec::new(alloc);
        for _ in 0..count {
            let token = cell.split_pass::<Claims>(&mut keeper);
            let share = rest.split_off(1, 0);
            passes.push(Pass {
                receipts: Vec::new(alloc),
                token,
                share,
                of: PhantomData,
            })?;
        }
        let held = Held {
            core,
            history: Vec::new(alloc),
            book,
            rest,
            keeper,
        };
        Ok((held, passes))
    }
}
