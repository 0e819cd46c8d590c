//! Whether `cc` is live after each instruction, with one flag for each and no sets of registers. Where no block reads
//! `cc` before it sets it, as in naive code, `cc` is live at the end of no block, and two walks back through each
//! block are all the work.
ghost use Rattle.std.specs.Prelude.{◌≡◌, ◌<◌, ◌↔◌, ◌||◌, ◌&&◌, not, true, false, ℕ, List, IfOk, OnOk, map, length};
ghost use Rattle.std.specs.Prelude.{◌++◌, ◌∷◌, []};
ghost use Rattle.std.specs.List.{list_any};
ghost use Rattle.po_term.specs.Moves.{move_of, moves_of, instr_of, instrs_of, PlainInstr};
ghost use Rattle.po_model.specs.declared.var.Var.TheVariants.{Cc};
ghost use Rattle.po_model.specs.Blocks.{block_of, instrs_at};
ghost use Rattle.po_model.specs.LiveAfter.{move_reads, move_sets, reads, sets, IsRead};
ghost use Rattle.po_live.specs.Flags.{cc_before, cc_after, flag_at, flags_at};

use crate::sets::LiveVars;
use crate::solve::live_out;
use po_model::Block;
use po_term::{Cond, Instr, Transfer};
use po_word::OutOfMemory;
use std::alloc::Global;

#[tactic(auto, using(crate::proofs::Flags::term_unread))]
fn transfer_reads(t: &Transfer) -> bool
    ensures { result ≡ move_reads (move_of t.now) Cc }
{
    matches!(t, Transfer::If(Cond::Cc, _, _))
}

fn transfer_sets(t: &Transfer) -> bool
    ensures { result ≡ move_sets (move_of t.now) Cc }
{
    matches!(t, Transfer::Cc(_, _) | Transfer::Call(_, _))
}

fn instr_reads(xs: &[Transfer]) -> bool
    ensures { result ≡ list_any (λ t. move_reads (move_of t) Cc) xs.now }
{
    xs.iter().any(|t| transfer_reads(t))
}

fn instr_sets(xs: &[Transfer]) -> bool
    ensures { result ≡ list_any (λ t. move_sets (move_of t) Cc) xs.now }
{
    xs.iter().any(|t| transfer_sets(t))
}

/// Back through an instruction.
#[tactic(auto, using(crate::proofs::Moved::any_move))]
fn before(x: &Instr, live: bool) -> bool
    ensures { result ≡ (reads (instr_of x.now) Cc || (not (sets (instr_of x.now) Cc) && live)) }
{
    instr_reads(&x.xs) || (!instr_sets(&x.xs) && live)
}

/// Whether instructions read `cc` before they set it.
fn reads_first(xs: &[Instr]) -> bool
    ensures { result ≡ cc_before (instrs_of xs.now) false }
{
    let mut live = false;
    let mut i = xs.len();
    while i > 0 {
        i -= 1;
        live = before(&xs[i], live);
    }
    live
}

/// Whether some block reads `cc` before it sets it.
fn some_reads_first(blocks: &[Block]) -> bool
    ensures { result ≡ list_any (λ b. cc_before (instrs_of b.instrs.items) false) blocks.now }
{
    blocks.iter().any(|b| reads_first(&b.instrs))
}

/// Which of these sets have `cc`.
fn flags_of(alloc: Global, sets: &[LiveVars]) -> Result<Vec<bool>, OutOfMemory>
    ensures { IfOk result (λ flags. flags.items ≡ map (λ l. l.cc) sets.now) }
{
    let mut flags = Vec::with_capacity(alloc, sets.len())?;
    for live in sets {
        flags.push(live.cc)?;
    }
    Ok(flags)
}

/// No flag is up.
fn none(alloc: Global, n: usize) -> Result<Vec<bool>, OutOfMemory>
    ensures len { IfOk result (λ flags. length flags.items ≡ n) }
    ensures none { IfOk result (λ flags. (b : ℕ) → flag_at flags.items b ≡ false) }
{
    let flags = vec![in alloc; false; n]?;
    Ok(flags)
}

/// Whether `cc` is live at the end of each block.
pub fn cc_ends(alloc: Global, blocks: &[Block]) -> Result<Vec<bool>, OutOfMemory>
    ensures len { IfOk result (λ out. length out.items ≡ length blocks.now) }
    ensures live { IfOk result (λ out. (b : ℕ) (xs : List PlainInstr) →
        (cc_before xs (flag_at out.items b) ≡ true)
        ↔ IsRead (map block_of blocks.now) Cc (record { block = b; rest = xs })) }
{
    if some_reads_first(blocks) {
        let sets = live_out(alloc, blocks)?;
        flags_of(alloc, &sets)
    } else {
        none(alloc, blocks.len())
    }
}

/// Whether `cc` is live after each of these instructions.
fn block_after(alloc: Global, xs: &[Instr], out: bool) -> Result<Vec<bool>, OutOfMemory>
    ensures { IfOk result (λ after. after.items ≡ cc_after (instrs_of xs.now) out) }
{
    let mut live = out;
    let mut after = Vec::with_capacity(alloc, xs.len())?;
    let mut i = xs.len();
    while i > 0 {
        i -= 1;
        after.push(live)?;
        live = before(&xs[i], live);
    }
    after.reverse();
    Ok(after)
}

fn push_flags(after: &mut Vec<Vec<bool>>, flags: Vec<bool>) -> Result<(), OutOfMemory>
    ensures { OnOk result (after.new.items ≡ after.old.items ++ flags ∷ []) }
{
    match after.push(flags) {
        Ok(()) => Ok(()),
        Err(_) => Err(OutOfMemory),
    }
}

/// Whether `cc` is live after each instruction of each block, from whether it is at the ends of the blocks.
pub fn flags_after(
    alloc: Global,
    blocks: &[Block],
    out: &[bool],
) -> Result<Vec<Vec<bool>>, OutOfMemory>
    requires { length out.now ≡ length blocks.now }
    ensures len { IfOk result (λ after. length after.items ≡ length blocks.now) }
    ensures after { IfOk result (λ after. (b : ℕ) → b < length blocks.now
        → flags_at after.items b ≡ cc_after (instrs_at (map block_of blocks.now) b) (flag_at out.now b)) }
{
    let mut after = Vec::new(alloc);
    for b in 0..blocks.len() {
        let flags = block_after(alloc, &blocks[b].instrs, out[b])?;
        push_flags(&mut after, flags)?;
    }
    Ok(after)
}
