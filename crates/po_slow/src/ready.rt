//! The pair that is ready within a block: the last instruction that is done, and the next one.
ghost use Rattle.std.specs.Prelude.{ℕ, ◌≡◌, ◌<◌, ◌≤◌, ◌+◌, ◌-◌, ◌^◌, length, reverse, take, drop, Some, IfOk, OnOk};
ghost use Rattle.std.specs.Prelude.{OnErr, slice_set, slice_index_or, get_or, [], IfSome};
ghost use Rattle.po_term.specs.Moves.{instrs_of};
ghost use Rattle.po_live.specs.Parts.{tells, HasParts};
ghost use Rattle.po_model.specs.Pairs.{pair_of};
ghost use Rattle.po_model.specs.Combined.{combination_of};
ghost use Rattle.po_model.specs.Scanned.{instrs_ahead, ready};
ghost use Rattle.po_recog.specs.Indexes.{IsIndexOf};
ghost use Rattle.po_slow.specs.States.{stand_at, IsAnswer, IsTriedIn};
ghost use Rattle.po_slow.specs.Marks.{AreTrue, Fits};

use crate::block::{Standing, settle};
use crate::live::pair_live;
use crate::mark::{Mark, is_marked, mark_of};
use crate::pair::combine_two;
use po_live::LiveList;
use po_model::{Machine, Outcome, Pair, Steps};
use po_recog::Index;
use po_term::{Instr, copy_instr};
use po_word::OutOfMemory;
use std::alloc::Global;
use std::sync::ledger::Ledger;

/// A copy of the pair that is ready.
pub fn copy_pair(
    alloc: Global,
    xs: &[Instr],
    lives: &LiveList,
    b: usize,
    at: Standing,
) -> Result<Pair, OutOfMemory>
    requires some { 0 < at.done }
    requires order { at.done ≤ at.next }
    requires inside { at.next < length xs.now }
    requires lives { HasParts lives.now b (length xs.now) }
    ensures { IfOk result (λ p. ready (reverse (take at.done (instrs_of xs.now)))
        (instrs_ahead (tells lives.now b) at.next (drop at.next (instrs_of xs.now))) ≡ Some (pair_of p)) }
{
    let last = &xs[at.done - 1];
    let next = &xs[at.next];
    let live = pair_live(alloc, last, next, lives.at(b, at.next))?;
    let a = copy_instr(alloc, last)?;
    let b = copy_instr(alloc, next)?;
    Ok(Pair { a, b, live })
}

/// What becomes of the pair that is ready, which is joined where it stands. A step is counted.
fn outcome<L: Ledger>(
    alloc: Global,
    m: &Machine,
    index: &Index,
    xs: &[Instr],
    lives: &LiveList,
    b: usize,
    at: Standing,
    steps: &mut Steps<L>,
) -> Result<Outcome, OutOfMemory>
    requires entries { length m.now.entries < 2 ^ 32 }
    requires index { IsIndexOf m.now index.now }
    requires some { 0 < at.done }
    requires order { at.done ≤ at.next }
    requires inside { at.next < length xs.now }
    requires lives { HasParts lives.now b (length xs.now) }
    ensures answer { IfOk result (λ o. IsAnswer m.now (ready (reverse (take at.done (instrs_of xs.now)))
        (instrs_ahead (tells lives.now b) at.next (drop at.next (instrs_of xs.now)))) (combination_of o)) }
    ensures counted { IfOk result (λ o. steps.new ≡ steps.old + 1) }
{
    steps.tick();
    let live = lives.at(b, at.next);
    let outcome = combine_two(
        alloc,
        m,
        index,
        &xs[at.done - 1],
        &xs[at.next],
        live.regs,
        live.cc,
    )?;
    Ok(outcome)
}

/// The mark for the pair that is ready as it is.
fn mark_here(xs: &[Instr], lives: &LiveList, b: usize, at: Standing) -> Option<Mark>
    requires some { 0 < at.done }
    requires order { at.done ≤ at.next }
    requires inside { at.next < length xs.now }
    requires lives { HasParts lives.now b (length xs.now) }
    ensures { IfSome result (λ k. Fits k (tells lives.now b at.next) (get_or (instrs_of xs.now) (at.done - 1) [])
        (get_or (instrs_of xs.now) at.next [])) }
{
    mark_of(&xs[at.done - 1], &xs[at.next], lives.at(b, at.next))
}

/// What becomes of the pair that is ready: it stays where it has its mark, and else it is joined. A step is counted.
fn answer<L: Ledger>(
    alloc: Global,
    m: &Machine,
    index: &Index,
    xs: &[Instr],
    marks: &[Option<Mark>],
    lives: &LiveList,
    b: usize,
    at: Standing,
    mark: Option<Mark>,
    steps: &mut Steps<L>,
) -> Result<Outcome, OutOfMemory>
    requires entries { length m.now.entries < 2 ^ 32 }
    requires index { IsIndexOf m.now index.now }
    requires some { 0 < at.done }
    requires order { at.done ≤ at.next }
    requires inside { at.next < length xs.now }
    requires lives { HasParts lives.now b (length xs.now) }
    requires fits { IfSome mark (λ k. Fits k (tells lives.now b at.next) (get_or (instrs_of xs.now) (at.done - 1) [])
        (get_or (instrs_of xs.now) at.next [])) }
    requires marks { AreTrue m.now (instrs_of xs.now) marks.now at.done at.next }
    ensures answer { IfOk result (λ o. IsAnswer m.now (ready (reverse (take at.done (instrs_of xs.now)))
        (instrs_ahead (tells lives.now b) at.next (drop at.next (instrs_of xs.now)))) (combination_of o)) }
    ensures counted { IfOk result (λ o. steps.new ≡ steps.old + 1) }
{
    if is_marked(marks, at.next, mark) {
        steps.tick();
        Ok(Outcome::Keep)
    } else {
        outcome(alloc, m, index, xs, lives, b, at, steps)
    }
}

/// Tries the pair that is ready, and goes on from it. A step is counted.
pub fn try_pair<L: Ledger>(
    alloc: Global,
    m: &Machine,
    index: &Index,
    xs: &mut [Instr],
    marks: &mut [Option<Mark>],
    lives: &LiveList,
    b: usize,
    at: &mut Standing,
    steps: &mut Steps<L>,
) -> Result<(), OutOfMemory>
    requires entries { length m.now.entries < 2 ^ 32 }
    requires index { IsIndexOf m.now index.now }
    requires some { 0 < at.old.done }
    requires order { at.old.done ≤ at.old.next }
    requires inside { at.old.next < length xs.old }
    requires lives { HasParts lives.now b (length xs.old) }
    requires marks { AreTrue m.now (instrs_of xs.old) marks.old at.old.done at.old.next }
    ensures tried { OnOk result (IsTriedIn m.now
        (stand_at (instrs_of xs.old) (tells lives.now b) at.old.done at.old.next at.old.changed)
        (stand_at (instrs_of xs.new) (tells lives.now b) at.new.done at.new.next at.new.changed)) }
    ensures order { at.new.done ≤ at.new.next }
    ensures inside { at.new.next ≤ length xs.new }
    ensures marks { OnOk result (AreTrue m.now (instrs_of xs.new) marks.new at.new.done at.new.next) }
    ensures counted { OnOk result (steps.new ≡ steps.old + 1) }
{
    let mark = mark_here(xs, lives, b, *at);
    let o = answer(alloc, m, index, xs, marks, lives, b, *at, mark, steps)?;
    settle(alloc, xs, marks, lives, b, at, o, mark);
    Ok(())
}
