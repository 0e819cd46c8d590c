//! A copy of a code.
ghost use Rattle.std.specs.Prelude.{◌≡◌, ◌++◌, ◌∷◌, [], map, IfOk, OnOk};
ghost use Rattle.po_term.specs.Moves.{instr_of, instrs_of};
ghost use Rattle.po_model.specs.Blocks.{block_of, code_of};

use crate::{Block, Code};
use po_term::{Instr, copy_instr};
use po_word::{OutOfMemory, push};
use std::alloc::Global;

/// A code that equals c (docs/LANGUAGE.md, "Naive code"), or want of memory.
pub fn copy_code(alloc: Global, c: &Code) -> Result<Code, OutOfMemory>
    ensures { IfOk result (λ d. code_of d ≡ code_of c.now) }
{
    let mut blocks = Vec::new(alloc);
    for b in &c.blocks {
        add_block(alloc, &mut blocks, b)?;
    }
    Ok(Code { blocks })
}

fn add_block(alloc: Global, blocks: &mut Vec<Block>, b: &Block) -> Result<(), OutOfMemory>
    ensures { OnOk result (map block_of blocks.new.items ≡ map block_of blocks.old.items ++ block_of b.now ∷ []) }
{
    let copy = copy_block(alloc, b)?;
    push(blocks, copy)
}

fn copy_block(alloc: Global, b: &Block) -> Result<Block, OutOfMemory>
    ensures { IfOk result (λ d. block_of d ≡ block_of b.now) }
{
    let instrs = copy_instrs(alloc, b.instrs.as_slice())?;
    Ok(Block {
        label: b.label,
        instrs,
    })
}

fn copy_instrs(alloc: Global, is: &[Instr]) -> Result<Vec<Instr>, OutOfMemory>
    ensures { IfOk result (λ copies. instrs_of copies.items ≡ instrs_of is.now) }
{
    let mut instrs = Vec::new(alloc);
    for i in is {
        add_instr(alloc, &mut instrs, i)?;
    }
    Ok(instrs)
}

fn add_instr(alloc: Global, instrs: &mut Vec<Instr>, i: &Instr) -> Result<(), OutOfMemory>
    ensures { OnOk result (instrs_of instrs.new.items ≡ instrs_of instrs.old.items ++ instr_of i.now ∷ []) }
{
    let copy = copy_instr(alloc, i)?;
    push(instrs, copy)
}
