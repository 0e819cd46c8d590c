//! All passes over a code, by one table of rules, into which the rules of a block's misses go behind the block. What
//! was tried is let go with the block.
ghost use Rattle.std.specs.Prelude.{◌≡◌, IfOk, OnOk};
ghost use Rattle.po_model.specs.Blocks.{code_of};
ghost use Rattle.po_model.specs.Machines.{IsMachine};
ghost use Rattle.po_model.specs.UnitCodes.{IsFormedCode};
ghost use Rattle.po_slow.specs.States.{scan_of, IsFormedState, IsFinished};
ghost use Rattle.po_table.specs.Tables.{rules_of};
ghost use Rattle.po_gen.specs.Passed.{HasPassed, IsPassed};

use crate::learning::learn_all;
use po_fore::compile_block;
use po_model::{Code, Steps};
use po_slow::ScanState;
use po_table::RuleTable;
use po_word::OutOfMemory;
use std::alloc::Global;
use std::sync::ledger::Ledger;

/// Goes through the block at which a scan stands, and into the next one.
fn pass_block<L: Ledger>(
    alloc: Global,
    table: &mut RuleTable,
    s: &mut ScanState,
    steps: &mut Steps<L>,
) -> Result<(), OutOfMemory>
    requires machine { IsMachine table.old.0 }
    requires formed { IsFormedState s.old }
    requires going { IsFinished (scan_of s.old) → ⊥ }
    ensures machine { table.new.0 ≡ table.old.0 }
    ensures formed { IsFormedState s.new }
    ensures passed { OnOk result
        (HasPassed table.old.0 (scan_of s.old) (scan_of s.new) (rules_of table.old) (rules_of table.new)) }
{
    let report = compile_block(alloc, table.machine(), &*table, s, steps)?;
    learn_all(alloc, table, &report.misses, steps)?;
    s.next_block(alloc)
}

/// What all passes make of a code.
pub fn pass_code<L: Ledger>(
    alloc: Global,
    table: &mut RuleTable,
    code: Code,
    steps: &mut Steps<L>,
) -> Result<Code, OutOfMemory>
    requires machine { IsMachine table.old.0 }
    requires code { IsFormedCode (code_of code) }
    ensures machine { table.new.0 ≡ table.old.0 }
    ensures passed { IfOk result
        (λ v. IsPassed table.old.0 (code_of code) (code_of v) (rules_of table.old) (rules_of table.new)) }
{
    let mut s = ScanState::new(alloc, code)?;
    'scan: while !s.is_finished() {
        pass_block(alloc, table, &mut s, steps)?;
    }
    Ok(s.code())
}
