//! The rules of all pairs that were tried.
ghost use Rattle.std.specs.Prelude.{ℕ, ◌≡◌, ◌<◌, List, All, length, IfOk};
ghost use Rattle.std.specs.Arc.{arc_value};
ghost use Rattle.po_model.specs.Lookups.{AreCanonical};
ghost use Rattle.po_model.specs.Machines.{IsMachine};
ghost use Rattle.po_settle.specs.Lines.{rules_text};
ghost use Rattle.po_settle.specs.Reported.{HasFormedMisses};
ghost use Rattle.po_opt.specs.Rules.{AreWritten};

use po_fore::BlockReport;
use po_model::{Machine, Steps};
use po_rule::Lookup;
use po_settle::{rules_text, settle};
use po_word::OutOfMemory;
use std::alloc::Global;
use std::marker::Brand;
use std::sync::Arc;
use std::sync::ledger::{Blank, Ledger};

/// The lines of rules, and how many rules there are (docs/LEARNING.md, "Behind the join").
#[derive(Drop)]
pub struct Written {
    pub lines: Vec<u8>,
    pub count: u64,
}

/// The rules, over a count of its own.
fn counted<T: Lookup, L: Ledger>(
    alloc: Global,
    machine: &Arc<Machine>,
    table: &T,
    reports: Vec<BlockReport>,
    ledger: Blank,
) -> Result<Written, OutOfMemory>
    requires machine { IsMachine (arc_value machine.now) }
    requires canonical { AreCanonical (arc_value machine.now) (T.rules table.now) }
    requires formed { All HasFormedMisses reports.items }
    requires name { ledger.name ≡ L.name }
    requires parts { ledger.parts ≡ L.parts }
    requires some { 0 < ledger.parts }
    ensures { IfOk result (λ w. AreWritten (arc_value machine.now) reports.items w.lines.items w.count) }
{
    let mut steps = Steps::<L>::new(ledger);
    let texts = settle(alloc, machine, table, reports, &mut steps)?;
    let lines = rules_text(alloc, &texts)?;
    Ok(Written {
        lines,
        count: texts.len() as u64,
    })
}

/// The rules of all pairs that these reports tell of, each once, in lines, sorted by bytes. A miss is looked up in the
/// table, whose rules are canonical for the machine, and its rule is made where the table has none (docs/LEARNING.md,
/// "Behind the join"). It fails only where memory is refused.
pub fn write_rules<T: Lookup>(
    alloc: Global,
    machine: &Arc<Machine>,
    table: &T,
    reports: Vec<BlockReport>,
) -> Result<Written, OutOfMemory>
    requires machine { IsMachine (arc_value machine.now) }
    requires canonical { AreCanonical (arc_value machine.now) (T.rules table.now) }
    requires formed { All HasFormedMisses reports.items }
    ensures { IfOk result (λ w. AreWritten (arc_value machine.now) reports.items w.lines.items w.count) }
{
    counted::<T, Brand>(alloc, machine, table, reports, Blank::new(1))
}
