//! How the code is cut into blocks.

ghost use Rattle.std.specs.Prelude.{◌≡◌, ◌++◌, ◌∷◌, [], None, Some, map, OnOk, IfOk};
ghost use Rattle.po_term.specs.Moves.{move_of, instr_of};
ghost use Rattle.po_model.specs.Blocks.{block_of};
ghost use Rattle.po_model.specs.Naive.{unless_blank};
ghost use Rattle.po_expand.specs.Steps.{between, added, closed, marked, finished};

use crate::state::{Expansion, ROOM};
use po_model::Block;
use po_term::{Instr, Label, Transfer};
use po_word::OutOfMemory;
use std::alloc::Global;
use std::mem;

/// An instruction of one transfer.
fn single(alloc: Global, transfer: Transfer) -> Result<Instr, OutOfMemory>
    ensures { IfOk result (λ instr. instr_of instr ≡ move_of transfer ∷ []) }
{
    let mut xs = Vec::with_capacity(alloc, 1)?;
    xs.push(transfer)?;
    Ok(Instr { xs })
}

fn push_instr(instrs: &mut Vec<Instr>, instr: Instr) -> Result<(), OutOfMemory>
    ensures { OnOk result (instrs.new.items ≡ instrs.old.items ++ instr ∷ []) }
{
    match instrs.push(instr) {
        Ok(()) => Ok(()),
        Err(_) => Err(OutOfMemory),
    }
}

fn push_block(blocks: &mut Vec<Block>, block: Block) -> Result<(), OutOfMemory>
    ensures { OnOk result (blocks.new.items ≡ blocks.old.items ++ block ∷ []) }
{
    match blocks.push(block) {
        Ok(()) => Ok(()),
        Err(_) => Err(OutOfMemory),
    }
}

impl Expansion {
    /// One instruction more, of one transfer.
    pub fn add(&mut self, alloc: Global, transfer: Transfer) -> Result<(), OutOfMemory>
        ensures { OnOk result (between self.new ≡ added (move_of transfer) (between self.old)) }
    {
        push_instr(&mut self.instrs, single(alloc, transfer)?)
    }

    /// The block that has begun ends.
    pub fn close(&mut self, alloc: Global) -> Result<(), OutOfMemory>
        ensures { OnOk result (between self.new ≡ closed (between self.old)) }
    {
        let next = Vec::with_capacity(alloc, ROOM)?;
        let instrs = mem::replace(&mut self.instrs, next);
        let block = Block {
            label: self.label,
            instrs,
        };
        self.label = None;
        push_block(&mut self.ended, block)
    }

    /// The block that has begun ends, unless it has no label and no instruction.
    fn close_unless_blank(&mut self, alloc: Global) -> Result<(), OutOfMemory>
        ensures { OnOk result (between self.new ≡ finished (between self.old)) }
    {
        if self.label.is_none() && self.instrs.is_empty() {
            Ok(())
        } else {
            self.close(alloc)
        }
    }

    /// A block with this label begins.
    pub fn mark(&mut self, alloc: Global, label: Label) -> Result<(), OutOfMemory>
        ensures { OnOk result (between self.new ≡ marked label (between self.old)) }
    {
        self.close_unless_blank(alloc)?;
        self.label = Some(label);
        Ok(())
    }

    /// The blocks, the last one without a label and an instruction left out.
    pub fn finish(mut self, alloc: Global) -> Result<Vec<Block>, OutOfMemory>
        ensures { IfOk result (λ blocks. map block_of blocks.items
            ≡ (between self).ended ++ unless_blank (between self).label (between self).instrs) }
    {
        self.close_unless_blank(alloc)?;
        Ok(self.ended)
    }
}
