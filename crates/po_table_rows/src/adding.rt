//! Rules of `v3 := c | v4 := (v2 + v3)` on the machine `tiny`, added to a table one behind the other.
ghost use Rattle.std.specs.Prelude.{◌≡◌, ◌<◌, IfOk};
ghost use Rattle.std.specs.Arc.{arc_value};
ghost use Rattle.po_model.specs.Machines.{IsMachine};

use crate::learning::rule;
use po_mdread::{TINY, read_machine};
use po_model::{Live, Machine, Pair, Steps};
use po_rule::{AddRefusal, Learned};
use po_table::RuleTable;
use po_term::Reg::Virt;
use po_term::{Instr, Term, Transfer};
use po_word::Bin;
use std::alloc::Global;
use std::collections::BTreeSet;
use std::marker::Brand;
use std::sync::Arc;
use std::sync::ledger::{Blank, Ledger};
use std::test::Fail;

/// The constant of a pair, and why its rule isn't added.
const ROWS: [(u32, Option<AddRefusal>); 3] = [
    (127, None),
    // outside the range of `addi`
    (128, None),
    (127, Some(AddRefusal::Known(0))),
];

/// A machine without entries.
const OTHER: &str = "machine other\nframe fp\nresult rv\nargs a0 a1 a2 a3\nregs r0\nend\n";

/// `v3 := c | v4 := (v2 + v3)`, after which v4 is live.
fn sum(alloc: Global, c: u32) -> Result<Pair, Fail> {
    let left = Box::new(alloc, Term::Reg(Virt(2)))?;
    let right = Box::new(alloc, Term::Reg(Virt(3)))?;
    let mut regs = BTreeSet::new(alloc);
    regs.insert(Virt(4))?;
    let a = vec![in alloc; Transfer::Set(Virt(3), Term::Num(c))]?;
    let b = vec![in alloc; Transfer::Set(Virt(4), Term::Bin(Bin::Add, left, right))]?;
    Ok(Pair {
        a: Instr { xs: a },
        b: Instr { xs: b },
        live: Live { regs, cc: false },
    })
}

/// Why the rule isn't added.
fn refusal(table: &mut RuleTable, l: Learned) -> Option<AddRefusal> {
    match table.add(l) {
        Ok(()) => None,
        Err(refusal) => Some(refusal),
    }
}

fn adds<L: Ledger>(
    alloc: Global,
    machine: Arc<Machine>,
    other: Arc<Machine>,
    ledger: Blank,
) -> Result<bool, Fail>
    requires machine { IsMachine (arc_value machine) }
    requires name { ledger.name ≡ L.name }
    requires parts { ledger.parts ≡ L.parts }
    requires some { 0 < ledger.parts }
{
    let mut steps = Steps::<L>::new(ledger);
    let mut table = RuleTable::new(alloc, machine.clone()?)?;
    for (c, want) in ROWS {
        let learned = rule(alloc, &machine, &sum(alloc, c)?, &mut steps)?;
        if refusal(&mut table, learned) != want {
            return Ok(false);
        }
    }
    let learned = rule(alloc, &machine, &sum(alloc, 127)?, &mut steps)?;
    let mut others = RuleTable::new(alloc, other)?;
    let refused = refusal(&mut others, learned) == Some(AddRefusal::OtherMachine);
    Ok(refused && table.len() == 2)
}

/// The machine that a text begins with. Its text is any, so that no proof reads `tiny` word by word.
fn machine_of(alloc: Global, text: &str) -> Result<Arc<Machine>, Fail>
    ensures { IfOk result (λ m. IsMachine (arc_value m)) }
{
    let (machine, _) = read_machine(alloc, text.as_bytes())?;
    Ok(Arc::new(alloc, machine)?)
}

#[test]
fn adding(rt: HostRuntime) -> Result<(), Fail> {
    let alloc = rt.alloc();
    let machine = machine_of(alloc, TINY)?;
    let other = machine_of(alloc, OTHER)?;
    assert!(rt; adds::<Brand>(alloc, machine, other, Blank::new(1))?);
    Ok(())
}
