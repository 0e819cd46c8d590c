//! Rules of pairs.
ghost use Rattle.std.specs.Prelude.{◌≡◌};
ghost use Rattle.std.specs.Arc.{arc_value};
ghost use Rattle.po_model.specs.Machines.{IsMachine};

use po_general::generalise;
use po_model::{Machine, Pair, Steps};
use po_rule::Learned;
use po_term::well_formed;
use std::alloc::Global;
use std::sync::Arc;
use std::sync::ledger::Ledger;
use std::test::Fail;

/// The rule of a pair.
pub(crate) fn rule<L: Ledger>(
    alloc: Global,
    machine: &Arc<Machine>,
    p: &Pair,
    steps: &mut Steps<L>,
) -> Result<Learned, Fail>
    requires { IsMachine (arc_value machine.now) }
{
    let machine = machine.clone()?;
    if well_formed(&p.a) && well_formed(&p.b) {
        Ok(generalise(alloc, machine, p, steps)?)
    } else {
        Err(Fail::from("not well formed"))
    }
}
