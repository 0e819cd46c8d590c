//! What is live after each instruction of a code, as one list of registers for the whole code: each instruction has a
//! part of it.
//!
//! Each block is walked back through once, from an end where nothing is live. Where something turns out to be live at
//! the start of a block, what is live at the ends of the blocks has to be found first (`solve`), and each block is
//! walked back through from there.
ghost use Rattle.std.specs.Prelude.{◌≡◌, ◌<◌, ◌≤◌, ◌-◌, ◌++◌, ◌∷◌, [], ◌||◌, not, ℕ, suc, OnOk, IfOk, IfSome, length};
ghost use Rattle.std.specs.Prelude.{map, slice_index_or};
ghost use Rattle.std.specs.List.{list_any};
ghost use Rattle.po_term.specs.Moves.{instrs_of};
ghost use Rattle.po_term.specs.Simplified.{reg_eq};
ghost use Rattle.po_term.specs.declared.term.Reg.TheVariants.{Fp};
ghost use Rattle.po_model.specs.declared.var.Var.{Var as Variable};
ghost use Rattle.po_model.specs.Blocks.{block_of, instrs_at};
ghost use Rattle.po_live.specs.Sets.{holds, holds_at, has_reg, back, nothing, is_fp};
ghost use Rattle.po_live.specs.Parts.{live_in, part_tells, tells, blocks_in, parts_in, IsLiveList, IsGrown, IsListTo};
ghost use Rattle.po_live.specs.Parts.{NoneCross};

use crate::sets::{LiveVars, empty, has_reg};
use crate::uses::{begin, step_with_fp};
use po_model::Block;
use po_term::{Instr, Reg};
use po_word::OutOfMemory;
use std::alloc::Global;

/// The part of an instruction: from one place of the list to another, and whether `cc` is live.
#[derive(Clone, Copy, Debug)]
struct Part {
    from: usize,
    to: usize,
    has_cc: bool,
}

/// What is live after each instruction of a code (docs/OPTIMISER.md, "Liveness").
#[derive(Drop)]
pub struct LiveList {
    regs: Vec<Reg>,
    /// The parts, block after block, and in a block that of the last instruction first.
    parts: Vec<Part>,
    /// Where the parts of each block end.
    ends: Vec<usize>,
}

/// What is live at a place: these registers, `fp` among them, and whether `cc` is (docs/OPTIMISER.md, "Liveness").
#[derive(Clone, Copy, Debug)]
pub struct LiveAt<'a> {
    pub regs: &'a [Reg],
    pub cc: bool,
}

impl LiveAt<'_> {
    /// Whether the register is live.
    pub fn has(&self, r: Reg) -> bool
        ensures { result ≡ has_reg self.now.regs.now r }
    {
        has_reg(self.regs, r)
    }
}

/// The part that stands so many places before the end of the parts of a block.
fn part_before(parts: &[Part], end: usize, i: usize) -> Part
    requires instr { i < end }
    requires end { end ≤ length parts.now }
    ensures { result ≡ slice_index_or parts.now (end - suc i) result }
{
    parts[end - 1 - i]
}

/// The registers of a part.
fn live_at(regs: &[Reg], part: Part) -> LiveAt<'_>
    requires order { part.from ≤ part.to }
    requires inside { part.to ≤ length regs.now }
    ensures { live_in result ≡ part_tells regs.now part }
{
    LiveAt {
        regs: &regs[part.from..part.to],
        cc: part.has_cc,
    }
}

impl LiveList {
    /// What is live after the i-th instruction of the b-th block, which has so many.
    pub fn at(&self, b: usize, i: usize) -> LiveAt<'_>
        requires list { IsLiveList self.now }
        requires block { b < blocks_in self.now }
        requires instr { i < parts_in self.now b }
        ensures { live_in result ≡ tells self.now b i }
    {
        let part = part_before(&self.parts, self.ends[b], i);
        live_at(&self.regs, part)
    }
}

/// The part of one more instruction.
fn put_part(list: &mut LiveList, live: &LiveVars) -> Result<(), OutOfMemory>
    ensures regs { OnOk result (list.new.regs.items ≡ list.old.regs.items ++ live.now.regs.items) }
    ensures parts { OnOk result (list.new.parts.items
        ≡ list.old.parts.items
        ++ (record { from = length list.old.regs.items; to = length list.new.regs.items; has_cc = live.now.cc })
        ∷ []) }
    ensures ends { OnOk result (list.new.ends.items ≡ list.old.ends.items) }
{
    let from = list.regs.len();
    list.regs.extend_from_slice(&live.regs)?;
    let to = list.regs.len();
    list.parts.push(Part {
        from,
        to,
        has_cc: live.cc,
    })?;
    Ok(())
}

/// The parts of these instructions, the last one's first. In the end `live` is what is live before them.
fn put_parts(
    list: &mut LiveList,
    live: &mut LiveVars,
    xs: &[Instr],
    out: &LiveVars,
) -> Result<(), OutOfMemory>
    requires { IsLiveList list.old }
    ensures live { OnOk result ((q : Variable) → holds live.new q
        ≡ (is_fp q || back (instrs_of xs.now) (holds out.now) q)) }
    ensures grown { OnOk result (IsGrown list.old.regs.items list.old.parts.items
        list.new.regs.items list.new.parts.items
        (instrs_of xs.now) (holds out.now)) }
    ensures ends { OnOk result (list.new.ends.items ≡ list.old.ends.items) }
{
    begin(live, out)?;
    let mut i = xs.len();
    while i > 0 {
        i -= 1;
        put_part(list, live)?;
        step_with_fp(live, &xs[i])?;
    }
    Ok(())
}

/// The parts of one more block. In the end `live` is what is live at the block's start.
fn put_block(
    list: &mut LiveList,
    live: &mut LiveVars,
    xs: &[Instr],
    out: &LiveVars,
) -> Result<(), OutOfMemory>
    requires { IsLiveList list.old }
    ensures live { OnOk result ((q : Variable) → holds live.new q
        ≡ (is_fp q || back (instrs_of xs.now) (holds out.now) q)) }
    ensures grown { OnOk result (IsGrown list.old.regs.items list.old.parts.items
        list.new.regs.items list.new.parts.items
        (instrs_of xs.now) (holds out.now)) }
    ensures ends { OnOk result (list.new.ends.items ≡ list.old.ends.items ++ (length list.new.parts.items) ∷ []) }
{
    put_parts(list, live, xs, out)?;
    list.ends.push(list.parts.len())?;
    Ok(())
}

/// A list without parts, with room for those of these blocks.
fn no_parts(alloc: Global, blocks: &[Block]) -> Result<LiveList, OutOfMemory>
    ensures regs { IfOk result (λ l. l.regs.items ≡ []) }
    ensures parts { IfOk result (λ l. l.parts.items ≡ []) }
    ensures ends { IfOk result (λ l. l.ends.items ≡ []) }
{
    let mut count = 0usize;
    for block in blocks {
        count = count.saturating_add(block.instrs.len());
    }
    Ok(LiveList {
        regs: Vec::with_capacity(alloc, count)?,
        parts: Vec::with_capacity(alloc, count)?,
        ends: Vec::with_capacity(alloc, blocks.len())?,
    })
}

fn some_but_fp(regs: &[Reg]) -> bool
    ensures { result ≡ list_any (λ r. not (reg_eq r Fp)) regs.now }
{
    regs.iter().any(|r| *r != Reg::Fp)
}

/// Whether something is live besides `fp`.
fn has_more(live: &LiveVars) -> bool
    ensures { result ≡ (live.now.cc || list_any (λ r. not (reg_eq r Fp)) live.now.regs.items) }
{
    live.cc || some_but_fp(&live.regs)
}

/// What is live in blocks of which nothing goes on to others; None where something is live at the start of a block.
pub fn alone(alloc: Global, blocks: &[Block]) -> Result<Option<LiveList>, OutOfMemory>
    ensures list { IfOk result (λ o. IfSome o (λ l.
        IsListTo (map block_of blocks.now) (λ b. nothing) l (length blocks.now))) }
    ensures none_cross { IfOk result (λ o. IfSome o (λ l. NoneCross (map block_of blocks.now) (length blocks.now))) }
{
    let nothing = empty(alloc);
    let mut live = empty(alloc);
    let mut list = no_parts(alloc, blocks)?;
    for b in 0..blocks.len() {
        put_block(&mut list, &mut live, &blocks[b].instrs, &nothing)?;
        if has_more(&live) {
            return Ok(None);
        }
    }
    Ok(Some(list))
}

/// What is live, from what is live at the ends of the blocks.
pub fn from_ends(alloc: Global, blocks: &[Block], out: &[LiveVars]) -> Result<LiveList, OutOfMemory>
    requires { length out.now ≡ length blocks.now }
    ensures { IfOk result (λ l. IsListTo (map block_of blocks.now) (holds_at out.now) l (length blocks.now)) }
{
    let mut live = empty(alloc);
    let mut list = no_parts(alloc, blocks)?;
    for b in 0..blocks.len() {
        put_block(&mut list, &mut live, &blocks[b].instrs, &out[b])?;
    }
    Ok(list)
}
