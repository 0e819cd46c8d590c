//! A sample unit.
ghost use Rattle.std.specs.Prelude.{◌≡◌, ◌++◌, ◌∷◌, [], IfOk, OnOk};
ghost use Rattle.po_ir.specs.Units.{IsUnit};
ghost use Rattle.po_ir.specs.declared.unit.Op.TheVariants.{Adl, Lod, Ret};
ghost use Rattle.po_sample.specs.Sample as sample;

use crate::draws::Draws;
use crate::statement::{numbered, push, statement};
use po_ir::{Op, Unit};
use po_word::OutOfMemory;
use sqlite_items::Items;
use std::alloc::Global;

/// Eight statements.
fn statements(alloc: Global, ops: &mut Items<Op>, draws: &mut Draws) -> Result<(), OutOfMemory>
    ensures { OnOk result (ops.new ≡ ops.old ++ sample.statements 8 0 draws.old.0) }
{
    for j in 0..8 {
        statement(alloc, ops, j, draws)?;
    }
    Ok(())
}

/// The word at 1 is the result.
fn result(ops: &mut Items<Op>) -> Result<(), OutOfMemory>
    ensures { OnOk result (ops.new ≡ ops.old ++ Adl 1 ∷ Lod ∷ Ret ∷ []) }
{
    push(ops, Op::Adl(1))?;
    push(ops, Op::Lod)?;
    push(ops, Op::Ret)
}

/// Unit `k` of the sample units of a seed (docs/STACK.md, "Sample units"). It fails only where memory is refused.
pub fn sample_unit(alloc: Global, seed: u32, k: u32) -> Result<Unit, OutOfMemory>
    ensures is_it { IfOk result (λ unit. unit ≡ sample.sample seed k) }
    ensures allowed { IfOk result IsUnit }
{
    let mut draws = Draws::of_unit(seed, k);
    let mut ops = Items::new(alloc);
    statements(alloc, &mut ops, &mut draws)?;
    result(&mut ops)?;
    let name = numbered(alloc, b'u', k)?;
    Ok(Unit { name, ops })
}
