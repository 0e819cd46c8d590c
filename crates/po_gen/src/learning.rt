//! The rules of pairs are put into a table, each once.
ghost use Rattle.std.specs.Prelude.{◌≡◌, All, map, IfOk, OnOk};
ghost use Rattle.std.specs.Arc.{arc_value};
ghost use Rattle.po_model.specs.Generalised.{generalised};
ghost use Rattle.po_model.specs.Holed.{rule_of};
ghost use Rattle.po_model.specs.Machines.{IsMachine};
ghost use Rattle.po_model.specs.Pairs.{pair_of, WellFormedPair};
ghost use Rattle.po_table.specs.Tables.{rules_of};
ghost use Rattle.po_gen.specs.Learnt.{Learns, PutsIn};

use po_general::generalise;
use po_model::{Machine, Pair, Steps};
use po_rule::{AddRefusal, Learned};
use po_table::RuleTable;
use po_word::OutOfMemory;
use std::alloc::Global;
use std::sync::Arc;
use std::sync::ledger::Ledger;

/// The machine, shared once more.
fn share(machine: &Arc<Machine>) -> Result<Arc<Machine>, OutOfMemory>
    ensures { IfOk result (λ m. arc_value m ≡ arc_value machine.now) }
{
    let machine = machine.clone()?;
    Ok(machine)
}

/// Puts a rule of the table's machine into the table, where it isn't there yet.
fn add(table: &mut RuleTable, l: Learned) -> Result<(), OutOfMemory>
    requires { l.0 ≡ table.old.0 }
    ensures machine { table.new.0 ≡ table.old.0 }
    ensures put { OnOk result (PutsIn (rules_of table.old) (rule_of l.1) (rules_of table.new)) }
{
    match table.add(l) {
        Ok(()) => Ok(()),
        Err(refusal) => match refusal {
            AddRefusal::Known(_) => Ok(()),
            AddRefusal::OtherMachine => unreachable!(),
            AddRefusal::OutOfMemory => Err(OutOfMemory),
        },
    }
}

/// Puts the rule of a pair into the table, where it isn't there yet.
fn learn<L: Ledger>(
    alloc: Global,
    table: &mut RuleTable,
    p: &Pair,
    steps: &mut Steps<L>,
) -> Result<(), OutOfMemory>
    requires machine { IsMachine table.old.0 }
    requires pair { WellFormedPair (pair_of p.now) }
    ensures machine { table.new.0 ≡ table.old.0 }
    ensures put { OnOk result
        (PutsIn (rules_of table.old) (generalised table.old.0 (pair_of p.now)) (rules_of table.new)) }
{
    let machine = share(table.machine())?;
    let learned = generalise(alloc, machine, p, steps)?;
    add(table, learned)
}

/// Puts the rule of each of these pairs into the table.
pub fn learn_all<L: Ledger>(
    alloc: Global,
    table: &mut RuleTable,
    pairs: &[Pair],
    steps: &mut Steps<L>,
) -> Result<(), OutOfMemory>
    requires machine { IsMachine table.old.0 }
    requires pairs { All WellFormedPair (map pair_of pairs.now) }
    ensures machine { table.new.0 ≡ table.old.0 }
    ensures learnt { OnOk result
        (Learns table.old.0 (rules_of table.old) (rules_of table.new) (map pair_of pairs.now)) }
{
    for p in pairs {
        learn(alloc, table, p, steps)?;
    }
    Ok(())
}
