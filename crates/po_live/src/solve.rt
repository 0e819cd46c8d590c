//! What is live at the ends of blocks. What is live at the start of a block is due to be passed on to the blocks
//! before it; each register and `cc` is passed on from a block once or twice, and when nothing is due any more the
//! sets are complete.
ghost use Rattle.std.specs.Prelude.{◌≡◌, ◌==◌, ◌<◌, ◌≤◌, ◌+◌, ℕ, OnOk, IfOk, not, true, false, ◌||◌, ◌&&◌, List, ◌++◌};
ghost use Rattle.std.specs.Prelude.{◌∷◌, [], map, length, nat_lt, ◌↔◌};
ghost use Rattle.po_term.specs.Moves.{instrs_of, PlainInstr};
ghost use Rattle.po_model.specs.declared.var.Var.{Var as Variable};
ghost use Rattle.po_model.specs.Blocks.{block_of, instrs_at};
ghost use Rattle.po_model.specs.LiveAfter.{IsRead};
ghost use Rattle.po_live.specs.Sets.{var_eq, back, nothing, sets_any, holds, holds_at};
ghost use Rattle.po_live.specs.Due.{is_due, is_in, is_among, in_regs, missing_below};

use crate::graph::predecessors;
use crate::sets::{LiveVars, empty, insert};
use crate::uses::{some_sets, walk};
use po_model::{Block, Var};
use po_term::{Instr, Reg};
use po_word::OutOfMemory;
use std::alloc::Global;

/// A register or `cc` that is live at the start of a block.
#[derive(Clone, Copy, Debug, PartialEq, Eq)]
struct Due {
    block: usize,
    var: Var,
}

fn push_due(work: &mut Vec<Due>, block: usize, var: Var) -> Result<(), OutOfMemory>
    ensures items { OnOk result (work.new.items ≡ work.old.items ++ (record { block = block; var = var }) ∷ []) }
    ensures due { OnOk result ((c : ℕ) (q : Variable)
        → is_due work.new.items c q ≡ ((block == c && var_eq var q) || is_due work.old.items c q)) }
{
    match work.push(Due { block, var }) {
        Ok(()) => Ok(()),
        Err(_) => Err(OutOfMemory),
    }
}

/// Puts v into the set at p, and says whether it is new there.
fn insert_at(out: &mut [LiveVars], p: usize, v: Var) -> Result<bool, OutOfMemory>
    requires { p < length out.old }
    ensures all { OnOk result
        ((b : ℕ) (q : Variable) → holds_at out.new b q ≡ ((p == b && var_eq v q) || holds_at out.old b q)) }
    ensures new { IfOk result (λ new. new ≡ not (holds_at out.old p v)) }
{
    insert(&mut out[p], v)
}

/// Whether the block p sets v.
fn sets_at(blocks: &[Block], p: usize, v: Var) -> bool
    requires { p < length blocks.now }
    ensures { result ≡ sets_any (instrs_at (map block_of blocks.now) p) v }
{
    some_sets(&blocks[p].instrs, v)
}

/// v is live at the end of the block p: where that is new and the block doesn't set v, it is due at the block's start.
fn arrive(
    p: usize,
    v: Var,
    blocks: &[Block],
    out: &mut [LiveVars],
    work: &mut Vec<Due>,
) -> Result<(), OutOfMemory>
    requires here { p < length out.old }
    requires blocks { length blocks.now ≡ length out.old }
    ensures out { OnOk result
        ((b : ℕ) (q : Variable) → holds_at out.new b q ≡ ((p == b && var_eq v q) || holds_at out.old b q)) }
    ensures work { OnOk result ((b : ℕ) (q : Variable) → is_due work.new.items b q
        ≡ (((p == b && var_eq v q)
        && (not (holds_at out.old p v) && not (sets_any (instrs_at (map block_of blocks.now) p) v)))
        || is_due work.old.items b q)) }
    ensures fuel { OnOk result ((us : List Variable) → is_among us v ≡ true
        → missing_below us (holds_at out.new) (length out.old) + length work.new.items
        ≤ missing_below us (holds_at out.old) (length out.old) + length work.old.items) }
{
    if insert_at(out, p, v)? && !sets_at(blocks, p, v) {
        push_due(work, p, v)?;
    }
    Ok(())
}

/// v is live at the ends of the blocks ps.
fn spread(
    v: Var,
    ps: &[usize],
    blocks: &[Block],
    out: &mut [LiveVars],
    work: &mut Vec<Due>,
) -> Result<(), OutOfMemory>
    requires here { (p : ℕ) → is_in ps.now p ≡ true → p < length out.old }
    requires blocks { length blocks.now ≡ length out.old }
    ensures out { OnOk result
        ((b : ℕ) (q : Variable) → holds_at out.new b q ≡ ((is_in ps.now b && var_eq v q) || holds_at out.old b q)) }
    ensures work { OnOk result ((b : ℕ) (q : Variable) → is_due work.new.items b q
        ≡ (((is_in ps.now b && var_eq v q)
        && (not (holds_at out.old b v) && not (sets_any (instrs_at (map block_of blocks.now) b) v)))
        || is_due work.old.items b q)) }
    ensures fuel { OnOk result ((us : List Variable) → is_among us v ≡ true
        → missing_below us (holds_at out.new) (length out.old) + length work.new.items
        ≤ missing_below us (holds_at out.old) (length out.old) + length work.old.items) }
{
    for p in ps {
        arrive(*p, v, blocks, out, work)?;
    }
    Ok(())
}

fn push_regs(work: &mut Vec<Due>, b: usize, regs: &[Reg]) -> Result<(), OutOfMemory>
    ensures { OnOk result ((c : ℕ) (q : Variable)
        → is_due work.new.items c q ≡ ((b == c && in_regs regs.now q) || is_due work.old.items c q)) }
{
    for r in regs {
        push_due(work, b, Var::Reg(*r))?;
    }
    Ok(())
}

fn push_cc(work: &mut Vec<Due>, b: usize, cc: bool) -> Result<(), OutOfMemory>
    ensures { OnOk result ((c : ℕ) (q : Variable)
        → is_due work.new.items c q ≡ ((b == c && (cc && var_eq Var.Cc q)) || is_due work.old.items c q)) }
{
    if cc {
        push_due(work, b, Var::Cc)?;
    }
    Ok(())
}

/// All of a set are live at the start of the block b.
fn push_live(work: &mut Vec<Due>, b: usize, live: &LiveVars) -> Result<(), OutOfMemory>
    ensures { OnOk result ((c : ℕ) (q : Variable)
        → is_due work.new.items c q ≡ ((b == c && holds live.now q) || is_due work.old.items c q)) }
{
    push_regs(work, b, &live.regs)?;
    push_cc(work, b, live.cc)
}

/// What a block reads before it sets it.
fn start(alloc: Global, xs: &[Instr]) -> Result<LiveVars, OutOfMemory>
    ensures { IfOk result (λ live. (q : Variable) → holds live q ≡ back (instrs_of xs.now) nothing q) }
{
    let mut live = empty(alloc);
    walk(&mut live, xs)?;
    Ok(live)
}

/// What each block reads before it sets it.
fn starts(alloc: Global, blocks: &[Block]) -> Result<Vec<Due>, OutOfMemory>
    ensures { IfOk result (λ work. (c : ℕ) (q : Variable) → is_due work.items c q
        ≡ (nat_lt c (length blocks.now) && back (instrs_at (map block_of blocks.now) c) nothing q)) }
{
    let mut work = Vec::new(alloc);
    for b in 0..blocks.len() {
        let live = start(alloc, &blocks[b].instrs)?;
        push_live(&mut work, b, &live)?;
    }
    Ok(work)
}

fn push_set(sets: &mut Vec<LiveVars>, live: LiveVars) -> Result<(), OutOfMemory>
    ensures { OnOk result (sets.new.items ≡ sets.old.items ++ live ∷ []) }
{
    match sets.push(live) {
        Ok(()) => Ok(()),
        Err(_) => Err(OutOfMemory),
    }
}

/// n empty sets.
fn empty_sets(alloc: Global, n: usize) -> Result<Vec<LiveVars>, OutOfMemory>
    ensures len { IfOk result (λ out. length out.items ≡ n) }
    ensures empty { IfOk result (λ out. (b : ℕ) (q : Variable) → holds_at out.items b q ≡ false) }
{
    let mut out = Vec::new(alloc);
    for made in 0..n {
        push_set(&mut out, empty(alloc))?;
    }
    Ok(out)
}

/// What is live at the end of each block: what is read on some path from there, with nothing before that sets it.
pub fn live_out(alloc: Global, blocks: &[Block]) -> Result<Vec<LiveVars>, OutOfMemory>
    ensures len { IfOk result (λ out. length out.items ≡ length blocks.now) }
    ensures live { IfOk result (λ out. (b : ℕ) (xs : List PlainInstr) (q : Variable) →
        (back xs (holds_at out.items b) q ≡ true)
        ↔ IsRead (map block_of blocks.now) q (record { block = b; rest = xs })) }
{
    let preds = predecessors(alloc, blocks)?;
    let mut work = starts(alloc, blocks)?;
    let mut out = empty_sets(alloc, blocks.len())?;
    'passing: while let Some(due) = work.pop() {
        spread(due.var, &preds[due.block], blocks, &mut out, &mut work)?;
    }
    Ok(out)
}
