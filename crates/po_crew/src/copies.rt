//! A copy of a pair.
ghost use Rattle.std.specs.Prelude.{◌≡◌, IfOk};
ghost use Rattle.po_model.specs.Pairs.{pair_of};

use po_model::{Live, Pair};
use po_term::{Reg, copy_instr};
use po_word::OutOfMemory;
use std::alloc::Global;
use std::collections::BTreeSet;

fn copy_regs(regs: &BTreeSet<Reg>) -> Result<BTreeSet<Reg>, OutOfMemory>
    ensures { IfOk result (λ copy. copy.keys ≡ regs.now.keys) }
{
    let copy = regs.clone()?;
    Ok(copy)
}

/// A pair that equals p (docs/LEARNING.md, "A worker's unit"). It fails only where memory is refused.
pub fn copy_pair(alloc: Global, p: &Pair) -> Result<Pair, OutOfMemory>
    ensures { IfOk result (λ copy. pair_of copy ≡ pair_of p.now) }
{
    let a = copy_instr(alloc, &p.a)?;
    let b = copy_instr(alloc, &p.b)?;
    let regs = copy_regs(&p.live.regs)?;
    let live = Live {
        regs,
        cc: p.live.cc,
    };
    Ok(Pair { a, b, live })
}
