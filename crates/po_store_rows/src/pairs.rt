//! Pairs of naive code, and their rules, on the machine `tiny`.
ghost use Rattle.std.specs.Prelude.{◌≡◌, ◌<◌, IfOk};
ghost use Rattle.std.specs.Arc.{arc_value};
ghost use Rattle.po_term.specs.Form.{WellFormed};
ghost use Rattle.po_term.specs.Moves.{instr_of};
ghost use Rattle.po_model.specs.Agrees.{Instance};
ghost use Rattle.po_model.specs.Holed.{rule_of};
ghost use Rattle.po_model.specs.Machines.{IsMachine};
ghost use Rattle.po_model.specs.Pairs.{pair_of, WellFormedPair};
ghost use Rattle.po_model.specs.UnitCodes.{unit_of, IsUnitCode};

use po_expand::expand;
use po_general::generalise;
use po_ir::read_units;
use po_mdread::{TINY, read_machine};
use po_model::{Machine, Pair, Steps, UnitCode};
use po_rule::Learned;
use po_slow::{Ask, ScanState, combine, scan_step};
use po_text::Spot;
use std::alloc::Global;
use std::marker::Brand;
use std::sync::Arc;
use std::sync::ledger::{Blank, Ledger};
use std::test::Fail;

const START: Spot = Spot { offset: 0, line: 1 };

/// The machine that a text begins with. Its text is any, so that no proof reads `tiny` word by word.
fn machine_of(alloc: Global, text: &str) -> Result<Arc<Machine>, Fail>
    ensures { IfOk result (λ m. IsMachine (arc_value m)) }
{
    let (machine, _) = read_machine(alloc, text.as_bytes())?;
    Ok(Arc::new(alloc, machine)?)
}

/// The machine `tiny`.
pub(crate) fn tiny(alloc: Global) -> Result<Arc<Machine>, Fail>
    ensures { IfOk result (λ m. IsMachine (arc_value m)) }
{
    machine_of(alloc, TINY)
}

/// The second pair that is tried of a code, on a machine on which the first one stays.
fn second(alloc: Global, m: &Machine, unit: UnitCode) -> Result<Pair, Fail>
    requires machine { IsMachine m.now }
    requires code { IsUnitCode (unit_of unit) }
    ensures { IfOk result (λ p. WellFormedPair (pair_of p)) }
{
    let mut scan = ScanState::new(alloc, unit.code)?;
    let Ask::Pair(first) = scan.ask(alloc)? else {
        return Err(Fail::from("no pair"));
    };
    let outcome = combine(alloc, m, &first)?;
    scan_step(alloc, &mut scan, outcome)?;
    let Ask::Pair(pair) = scan.ask(alloc)? else {
        return Err(Fail::from("one pair"));
    };
    Ok(pair)
}

/// The second pair that is tried of the unit.
pub(crate) fn second_pair(alloc: Global, m: &Machine, unit: &str) -> Result<Pair, Fail>
    requires { IsMachine m.now }
    ensures { IfOk result (λ p. WellFormedPair (pair_of p)) }
{
    if unit.len() > 1000 {
        return Err(Fail::from("a long text"));
    }
    let units = read_units(alloc, unit.as_bytes(), START)?;
    let [unit] = units.as_slice() else {
        return Err(Fail::from("no unit"));
    };
    second(alloc, m, expand(alloc, unit)?)
}

fn counted<L: Ledger>(
    alloc: Global,
    machine: Arc<Machine>,
    pair: &Pair,
    ledger: Blank,
) -> Result<Learned, Fail>
    requires machine { IsMachine (arc_value machine) }
    requires first { WellFormed (instr_of pair.now.a) }
    requires second { WellFormed (instr_of pair.now.b) }
    requires name { ledger.name ≡ L.name }
    requires parts { ledger.parts ≡ L.parts }
    requires some { 0 < ledger.parts }
    ensures machine { IfOk result (λ l. l.0 ≡ arc_value machine) }
    ensures instance { IfOk result (λ l. Instance (rule_of l.1) (pair_of pair.now)) }
{
    let mut steps = Steps::<L>::new(ledger);
    Ok(generalise(alloc, machine, pair, &mut steps)?)
}

/// The rule of a pair.
pub(crate) fn rule(alloc: Global, machine: &Arc<Machine>, pair: &Pair) -> Result<Learned, Fail>
    requires machine { IsMachine (arc_value machine.now) }
    requires pair { WellFormedPair (pair_of pair.now) }
    ensures machine { IfOk result (λ l. l.0 ≡ arc_value machine.now) }
    ensures instance { IfOk result (λ l. Instance (rule_of l.1) (pair_of pair.now)) }
{
    let machine = Arc::try_clone(machine)?;
    counted::<Brand>(alloc, machine, pair, Blank::new(1))
}
