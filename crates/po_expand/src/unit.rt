//! The naive code of a unit: each operation in its turn.

ghost use Rattle.std.specs.Prelude.{◌≡◌, ◌≤◌, map, length, IfOk};
ghost use Rattle.po_ir.specs.Units.{IsUnit};
ghost use Rattle.po_model.specs.Blocks.{block_of};
ghost use Rattle.po_model.specs.Naive.{blocks_in, naive};
ghost use Rattle.po_model.specs.UnitCodes.{unit_of, IsUnitCode};
ghost use Rattle.po_expand.specs.Fits.{Fits};
ghost use Rattle.po_expand.specs.Steps.{between, nothing_yet};

use crate::names::{Numbered, labels, syms};
use crate::state::{Expansion, ROOM};
use po_ir::{Op, Unit};
use po_model::{Block, Code, UnitCode};
use po_word::OutOfMemory;
use std::alloc::Global;

fn start(alloc: Global) -> Result<Expansion, OutOfMemory>
    ensures { IfOk result (λ e. between e ≡ nothing_yet) }
{
    let instrs = Vec::with_capacity(alloc, ROOM)?;
    let stack = Vec::with_capacity(alloc, ROOM)?;
    Ok(Expansion {
        ended: Vec::new(alloc),
        label: None,
        instrs,
        stack,
        next: 0,
    })
}

/// The blocks of these operations.
fn blocks(
    alloc: Global,
    labels: &Numbered,
    syms: &Numbered,
    ops: &[Op],
) -> Result<Vec<Block>, OutOfMemory>
    requires fits { Fits 0 ops.now }
    requires short { length ops.now ≤ 65536 }
    requires labels { length labels.now.table ≤ 65536 }
    requires syms { length syms.now.table ≤ 65536 }
    ensures { IfOk result (λ blocks. map block_of blocks.items ≡ blocks_in labels.now.table syms.now.table ops.now) }
{
    let mut expansion = start(alloc)?;
    'ops: for op in ops {
        expansion.step(alloc, labels, syms, op)?;
    }
    expansion.finish(alloc)
}

/// The naive code of a unit that the language allows (docs/LANGUAGE.md, "Naive code"), or want of memory. The time is
/// linear in the unit.
#[tactic(auto, using(crate::proofs::Codes::unit_code))]
pub fn expand(alloc: Global, u: &Unit) -> Result<UnitCode, OutOfMemory>
    requires { IsUnit u.now }
    ensures naive { IfOk result (λ c. unit_of c ≡ naive u.now) }
    ensures formed { IfOk result (λ c. IsUnitCode (unit_of c)) }
{
    let ops = u.ops.as_slice();
    let labels = labels(alloc, ops)?;
    let syms = syms(alloc, ops)?;
    let blocks = blocks(alloc, &labels, &syms, ops)?;
    let name = u.name.copy(alloc)?;
    Ok(UnitCode {
        name,
        labels: labels.names,
        syms: syms.names,
        code: Code { blocks },
    })
}
