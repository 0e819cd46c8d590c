//! What is live after each instruction of a block, from what is live at its end.
ghost use Rattle.std.specs.Prelude.{◌≡◌, ◌<◌, ◌||◌, ◌&&◌, not, ℕ, OnOk, IfOk, ◌++◌, ◌∷◌, [], map, length};
ghost use Rattle.po_term.specs.Moves.{instr_of, instrs_of};
ghost use Rattle.po_model.specs.declared.var.Var.{Var as Variable};
ghost use Rattle.po_model.specs.Blocks.{block_of, instrs_at};
ghost use Rattle.po_model.specs.LiveSets.{holds as in_set, lives_at};
ghost use Rattle.po_term.specs.Simplified.{reg_eq};
ghost use Rattle.po_term.specs.declared.term.Reg.{Reg as Register};
ghost use Rattle.std.specs.List.{list_any};
ghost use Rattle.po_live.specs.Sets.{holds, holds_at, has_reg, AreAfter};

use crate::sets::{LiveVars, empty};
use crate::uses::{begin, step_with_fp};
use po_model::{Block, Live};
use po_term::{Instr, Reg};
use po_word::OutOfMemory;
use std::alloc::Global;
use std::collections::BTreeSet;

fn push_live(after: &mut Vec<Live>, live: Live) -> Result<(), OutOfMemory>
    ensures { OnOk result (after.new.items ≡ after.old.items ++ live ∷ []) }
{
    match after.push(live) {
        Ok(()) => Ok(()),
        Err(_) => Err(OutOfMemory),
    }
}

fn put(regs: &mut BTreeSet<Reg>, r: Reg) -> Result<(), OutOfMemory>
    ensures { OnOk result
        ((q : Register) → list_any (reg_eq q) regs.new.keys ≡ (reg_eq r q || list_any (reg_eq q) regs.old.keys)) }
{
    match regs.insert(r) {
        Ok(_) => Ok(()),
        Err(_) => Err(OutOfMemory),
    }
}

fn keys_of(alloc: Global, regs: &[Reg]) -> Result<BTreeSet<Reg>, OutOfMemory>
    ensures { IfOk result (λ set. (q : Register) → list_any (reg_eq q) set.keys ≡ has_reg regs.now q) }
{
    let mut set = BTreeSet::new(alloc);
    for r in regs {
        put(&mut set, *r)?;
    }
    Ok(set)
}

/// What is live, as a set.
fn set_of(alloc: Global, live: &LiveVars) -> Result<Live, OutOfMemory>
    ensures { IfOk result (λ l. (q : Variable) → in_set l q ≡ holds live.now q) }
{
    let regs = keys_of(alloc, &live.regs)?;
    Ok(Live { regs, cc: live.cc })
}

/// What is live after each of these instructions.
fn block_after(alloc: Global, xs: &[Instr], out: &LiveVars) -> Result<Vec<Live>, OutOfMemory>
    ensures { IfOk result (λ after. AreAfter (instrs_of xs.now) (holds out.now) after.items) }
{
    let mut live = empty(alloc);
    begin(&mut live, out)?;
    let mut after = Vec::with_capacity(alloc, xs.len())?;
    let mut i = xs.len();
    while i > 0 {
        i -= 1;
        push_live(&mut after, set_of(alloc, &live)?)?;
        step_with_fp(&mut live, &xs[i])?;
    }
    after.reverse();
    Ok(after)
}

fn push_block(after: &mut Vec<Vec<Live>>, lives: Vec<Live>) -> Result<(), OutOfMemory>
    ensures { OnOk result (after.new.items ≡ after.old.items ++ lives ∷ []) }
{
    match after.push(lives) {
        Ok(()) => Ok(()),
        Err(_) => Err(OutOfMemory),
    }
}

/// What is live after each instruction of each block.
pub fn blocks_after(
    alloc: Global,
    blocks: &[Block],
    out: &[LiveVars],
) -> Result<Vec<Vec<Live>>, OutOfMemory>
    requires { length out.now ≡ length blocks.now }
    ensures len { IfOk result (λ after. length after.items ≡ length blocks.now) }
    ensures after { IfOk result (λ after. (b : ℕ) → b < length blocks.now
        → AreAfter (instrs_at (map block_of blocks.now) b) (holds_at out.now b) (lives_at after.items b)) }
{
    let mut after = Vec::new(alloc);
    for b in 0..blocks.len() {
        let lives = block_after(alloc, &blocks[b].instrs, &out[b])?;
        push_block(&mut after, lives)?;
    }
    Ok(after)
}
