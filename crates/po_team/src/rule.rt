//! The rule of a pair that was missed.
ghost use Rattle.std.specs.Prelude.{◌≡◌, ◌<◌, IfOk};
ghost use Rattle.std.specs.Arc.{arc_value};
ghost use Rattle.po_model.specs.Agrees.{Instance};
ghost use Rattle.po_model.specs.Holed.{rule_of};
ghost use Rattle.po_model.specs.Machines.{IsMachine};
ghost use Rattle.po_model.specs.Pairs.{pair_of, WellFormedPair};

use po_general::generalise;
use po_model::{Machine, Pair, Steps};
use po_rule::Learned;
use po_word::OutOfMemory;
use std::alloc::Global;
use std::marker::Brand;
use std::sync::Arc;
use std::sync::ledger::{Blank, Ledger};

/// The machine, shared once more.
pub(crate) fn share(machine: &Arc<Machine>) -> Result<Arc<Machine>, OutOfMemory>
    ensures { IfOk result (λ m. arc_value m ≡ arc_value machine.now) }
{
    let machine = machine.clone()?;
    Ok(machine)
}

/// The rule of a pair, over a count of its own.
fn counted<S: Ledger>(
    alloc: Global,
    machine: Arc<Machine>,
    pair: &Pair,
    ledger: Blank,
) -> Result<Learned, OutOfMemory>
    requires machine { IsMachine (arc_value machine) }
    requires pair { WellFormedPair (pair_of pair.now) }
    requires name { ledger.name ≡ S.name }
    requires parts { ledger.parts ≡ S.parts }
    requires some { 0 < ledger.parts }
    ensures machine { IfOk result (λ l. l.0 ≡ arc_value machine) }
    ensures instance { IfOk result (λ l. Instance (rule_of l.1) (pair_of pair.now)) }
{
    let mut steps = Steps::<S>::new(ledger);
    generalise(alloc, machine, pair, &mut steps)
}

/// The rule of a pair (docs/RULES.md, "The rule of a pair"). It fails only where memory is refused.
pub fn make_rule(alloc: Global, machine: &Arc<Machine>, pair: &Pair) -> Result<Learned, OutOfMemory>
    requires machine { IsMachine (arc_value machine.now) }
    requires pair { WellFormedPair (pair_of pair.now) }
    ensures machine { IfOk result (λ l. l.0 ≡ arc_value machine.now) }
    ensures instance { IfOk result (λ l. Instance (rule_of l.1) (pair_of pair.now)) }
{
    counted::<Brand>(alloc, share(machine)?, pair, Blank::new(1))
}
