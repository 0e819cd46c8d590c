//! From a unit's code to its placement.
ghost use Rattle.std.specs.Prelude.{◌≡◌, ◌≤◌, ◌<◌, ◌^◌, ℕ, List, map, IfOk, IfErr, All, length};
ghost use Rattle.po_model.specs.Blocks.{block_of, code_of};
ghost use Rattle.po_model.specs.UnitCodes.{flat, IsPlaceable};
ghost use Rattle.po_model.specs.Placement.{intervals, registers, placement, IsUncrowded, AreApart};
ghost use Rattle.po_assign.specs.Refusals.{Refuses};
ghost use Rattle.po_assign.specs.Places.{Places};
ghost use Rattle.po_term.specs.Moves.{PlainInstr};

use crate::place::{Placing, place_spans};
use crate::reads::last_reads;
use crate::spans::spans_of;
use crate::{AssignRefusal, Placed};
use po_model::{Block, Machine, UnitCode};
use po_word::OutOfMemory;
use std::alloc::Global;

/// Places the virtual registers of a code on machine registers, 0 to `count` - 1.
pub(crate) fn place_code(
    alloc: Global,
    count: usize,
    blocks: &[Block],
) -> Result<Placing, OutOfMemory>
    requires few { count ≤ 64 }
    requires short { length (flat (map block_of blocks.now)) < 2 ^ 29 }
    requires each { All (λ i. length i ≤ 4) (flat (map block_of blocks.now)) }
    ensures { IfOk result (Places count (intervals (flat (map block_of blocks.now)))) }
{
    let last = last_reads(alloc, blocks)?;
    let spans = spans_of(alloc, &last, blocks)?;
    place_spans(alloc, count, &spans)
}

/// Gives each virtual register of a unit's code a machine register: the lowest that no earlier interval has at the
/// start of its own. `TooFew` comes exactly where some point lies in more intervals than there are machine registers;
/// it has the first such point and the number of intervals there (docs/LANGUAGE.md, "Placement").
///
/// The machine has at most 64 registers, and the code is as `expand` and the passes give it: its instructions are well
/// formed, and a control transfer stands only in the last one of a block; each virtual register is set at most once,
/// and read only by later instructions of the block that sets it; and there are fewer than 2^29 instructions and
/// fewer than 2^32 blocks. Its labels and symbols need no names.
pub fn assign(alloc: Global, m: &Machine, u: UnitCode) -> Result<Placed, AssignRefusal>
    requires code { IsPlaceable (code_of u.code) }
    requires few { length m.now.regs ≤ 64 }
    ensures unit { IfOk result (λ p. p.unit ≡ u) }
    ensures regs { IfOk result (λ p. p.regs.items ≡ registers (length m.now.regs) (flat (code_of u.code))) }
    ensures below { IfOk result (λ p. All (λ x. x.1 < length m.now.regs) p.regs.items) }
    ensures uncrowded { IfOk result (λ p. IsUncrowded (length m.now.regs) (intervals (flat (code_of u.code)))) }
    ensures refused { IfErr result (Refuses (length m.now.regs) (intervals (flat (code_of u.code)))) }
{
    match place_code(alloc, m.regs.len(), &u.code.blocks) {
        Err(OutOfMemory) => Err(AssignRefusal::OutOfMemory),
        Ok(Placing::Crowded { point, needed }) => Err(AssignRefusal::TooFew { point, needed }),
        Ok(Placing::Given(regs)) => Ok(Placed { unit: u, regs }),
    }
}

/// A law, and no work: where no point is crowded, two registers whose intervals share a point get different machine
/// registers.
pub fn never_shared()
    ensures { (n : ℕ) (code : List PlainInstr) → IsUncrowded n (intervals code) → AreApart (placement n code) }
{}
