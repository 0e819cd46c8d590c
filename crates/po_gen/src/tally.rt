//! Instructions are counted before and after all passes over a unit.
ghost use Rattle.std.specs.Prelude.{◌≡◌, ◌<◌, ◌≤◌, ◌^◌, length, IfOk};
ghost use Rattle.po_ir.specs.Units.{IsUnit};
ghost use Rattle.po_model.specs.Blocks.{code_of};
ghost use Rattle.po_model.specs.Machines.{IsMachine};
ghost use Rattle.po_model.specs.Naive.{naive};
ghost use Rattle.po_model.specs.UnitCodes.{flat};
ghost use Rattle.po_table.specs.Tables.{rules_of};
ghost use Rattle.po_gen.specs.Passed.{IsCounted};

use crate::passes::pass_code;
use po_expand::expand;
use po_ir::Unit;
use po_model::{Code, Steps};
use po_table::RuleTable;
use po_word::OutOfMemory;
use std::alloc::Global;
use std::sync::ledger::Ledger;

/// How many instructions the units so far have.
#[derive(Clone, Copy)]
pub struct Tally {
    /// In naive code.
    pub before: u64,
    /// In what all passes make of it.
    pub after: u64,
}

/// How many instructions a code has.
fn instructions(code: &Code) -> u64
    requires { length (flat (code_of code.now)) < 2 ^ 29 }
    ensures { result ≡ length (flat (code_of code.now)) }
{
    let mut count = 0;
    for block in &code.blocks {
        count += block.instrs.len() as u64;
    }
    count
}

/// Counts the instructions of one more unit, whose rules are learned.
pub fn count_unit<L: Ledger>(
    alloc: Global,
    table: &mut RuleTable,
    unit: &Unit,
    tally: Tally,
    steps: &mut Steps<L>,
) -> Result<Tally, OutOfMemory>
    requires machine { IsMachine table.old.0 }
    requires unit { IsUnit unit.now }
    requires before { tally.before < 2 ^ 63 }
    requires after { tally.after < 2 ^ 63 }
    ensures machine { table.new.0 ≡ table.old.0 }
    ensures counted { IfOk result (λ t.
        IsCounted table.old.0 (naive unit.now).code tally t (rules_of table.old) (rules_of table.new)) }
{
    let naive = expand(alloc, unit)?;
    let before = instructions(&naive.code);
    let slowed = pass_code(alloc, table, naive.code, steps)?;
    let after = instructions(&slowed);
    Ok(Tally {
        before: tally.before + before,
        after: tally.after + after,
    })
}
