//! Whether a machine has an instruction for each one of a code: blocks in order, and in each its instructions in
//! order.

ghost use Rattle.std.specs.Prelude.{◌≡◌, ◌<◌, ◌^◌, ℕ, length, map, is_some};
ghost use Rattle.po_term.specs.Moves.{instr_of, instrs_of};
ghost use Rattle.po_model.specs.Blocks.{block_of, code_of, instrs_at, IsCode};
ghost use Rattle.po_model.specs.Fit.{fit};
ghost use Rattle.po_model.specs.UnitCodes.{flat};
ghost use Rattle.po_live.specs.Flags.{flags_at};
ghost use Rattle.po_recog.specs.Indexes.{IsIndexOf};
ghost use Rattle.po_expand.specs.Checks.{Checks, ChecksBlock, ChecksBlocks};

use crate::refusal::CheckRefusal;
use po_live::cc_live_after;
use po_model::{Block, Machine, UnitCode};
use po_recog::{Index, is_recognised_by};
use po_term::Instr;
use std::alloc::Global;

/// Whether an entry fits an instruction, where `cc` is live after it or not.
fn fits(m: &Machine, index: &Index, instr: &Instr, cc_live: bool) -> bool
    requires entries { length m.now.entries < 2 ^ 32 }
    requires index { IsIndexOf m.now index.now }
    ensures { result ≡ is_some (fit m.now cc_live (instr_of instr.now)) }
{
    is_recognised_by(m, index, &instr.xs, cc_live)
}

/// Whether an entry fits each instruction of a block.
fn check_block(
    m: &Machine,
    index: &Index,
    block: u32,
    instrs: &[Instr],
    lives: &[bool],
) -> Result<(), CheckRefusal>
    requires entries { length m.now.entries < 2 ^ 32 }
    requires index { IsIndexOf m.now index.now }
    requires lengths { length lives.now ≡ length instrs.now }
    requires few { length instrs.now < 2 ^ 32 }
    ensures { ChecksBlock m.now lives.now (instrs_of instrs.now) block result }
{
    for i in 0..instrs.len() {
        if !fits(m, index, &instrs[i], lives[i]) {
            return Err(CheckRefusal::Unrecognised {
                block,
                index: i as u32,
            });
        }
    }
    Ok(())
}

/// Whether an entry fits each instruction of these blocks.
fn check_blocks(
    m: &Machine,
    index: &Index,
    blocks: &[Block],
    lives: &[Vec<bool>],
) -> Result<(), CheckRefusal>
    requires entries { length m.now.entries < 2 ^ 32 }
    requires index { IsIndexOf m.now index.now }
    requires blocks { length lives.now ≡ length blocks.now }
    requires lengths { (b : ℕ) → length (flags_at lives.now b) ≡ length (instrs_at (map block_of blocks.now) b) }
    requires few_blocks { length blocks.now < 2 ^ 32 }
    requires few_instrs { (b : ℕ) → length (instrs_at (map block_of blocks.now) b) < 2 ^ 32 }
    ensures { ChecksBlocks m.now lives.now (map block_of blocks.now) result }
{
    for b in 0..blocks.len() {
        match check_block(m, index, b as u32, &blocks[b].instrs, &lives[b]) {
            Ok(()) => {}
            Err(refusal) => return Err(refusal),
        }
    }
    Ok(())
}

/// `check` by an index of the machine, made once for many codes (docs/DESCRIPTION.md, "What fits").
pub fn check_by(alloc: Global, m: &Machine, index: &Index, u: &UnitCode) -> Result<(), CheckRefusal>
    requires entries { length m.now.entries < 2 ^ 32 }
    requires index { IsIndexOf m.now index.now }
    requires code { IsCode (code_of u.now.code) }
    requires few_instrs { length (flat (code_of u.now.code)) < 2 ^ 29 }
    requires few_blocks { length (code_of u.now.code) < 2 ^ 32 }
    ensures { Checks m.now (code_of u.now.code) result }
{
    let lives = match cc_live_after(alloc, &u.code) {
        Ok(lives) => lives,
        Err(_) => return Err(CheckRefusal::OutOfMemory),
    };
    check_blocks(m, index, &u.code.blocks, &lives.after)
}

/// Whether a machine has an entry for each instruction of a code, with what is live after it in that code:
/// Unrecognised at the first one that no entry fits (docs/DESCRIPTION.md, "What fits"). The machine has fewer than
/// 2^32 entries. The code has fewer than 2^29 instructions and fewer than 2^32 blocks, and a control transfer stands
/// only in the last instruction of a block.
pub fn check(alloc: Global, m: &Machine, u: &UnitCode) -> Result<(), CheckRefusal>
    requires entries { length m.now.entries < 2 ^ 32 }
    requires code { IsCode (code_of u.now.code) }
    requires few_instrs { length (flat (code_of u.now.code)) < 2 ^ 29 }
    requires few_blocks { length (code_of u.now.code) < 2 ^ 32 }
    ensures { Checks m.now (code_of u.now.code) result }
{
    let index = match Index::new(alloc, m) {
        Ok(index) => index,
        Err(_) => return Err(CheckRefusal::OutOfMemory),
    };
    check_by(alloc, m, &index, u)
}
