//! The rule of a pair: slow combination read over the pair's shape, with the questions that it asks.
ghost use Rattle.std.specs.Prelude.{◌≡◌, ◌<◌, ◌+◌, ◌^◌, length, IfOk};
ghost use Rattle.std.specs.Arc.{arc_value};
ghost use Rattle.po_term.specs.Form.{WellFormed};
ghost use Rattle.po_term.specs.Moves.{instr_of};
ghost use Rattle.po_model.specs.Machines.{IsMachine};
ghost use Rattle.po_model.specs.Pairs.{pair_of};
ghost use Rattle.po_model.specs.Holed.{rule_of};
ghost use Rattle.po_model.specs.Agrees.{Instance};
ghost use Rattle.po_model.specs.Generalised.{generalised};
ghost use Rattle.po_model.specs.Canonical.{Canonical};

use po_model::{Machine, Pair, Rule, Steps};
use po_rule::Learned;
use po_skel::shape;
use po_trec::combine_p;
use po_tsimp::Path;
use po_word::OutOfMemory;
use std::alloc::Global;
use std::sync::Arc;
use std::sync::ledger::Ledger;

/// The rule, without the count.
fn rule_of_pair(alloc: Global, m: &Machine, p: &Pair) -> Result<Rule, OutOfMemory>
    requires first { WellFormed (instr_of p.now.a) }
    requires second { WellFormed (instr_of p.now.b) }
    requires few { length m.now.entries < 2 ^ 32 }
    ensures { IfOk result (λ r. rule_of r ≡ generalised m.now (pair_of p.now)) }
{
    let (shape, values) = shape(alloc, p)?;
    let mut path = Path {
        asked: Vec::new(alloc),
    };
    let result = combine_p(alloc, m, &shape, &values, &mut path)?;
    Ok(Rule {
        shape,
        asked: path.asked,
        result,
    })
}

/// The rule of a pair of well-formed instructions on a machine, which has the pair as an instance, and is right of
/// each of its instances and the rule of each (docs/RULES.md, "The rule of a pair"). It fails only where memory is
/// refused.
pub fn generalise<L: Ledger>(
    alloc: Global,
    m: Arc<Machine>,
    p: &Pair,
    steps: &mut Steps<L>,
) -> Result<Learned, OutOfMemory>
    requires machine { IsMachine (arc_value m) }
    requires first { WellFormed (instr_of p.now.a) }
    requires second { WellFormed (instr_of p.now.b) }
    ensures machine { IfOk result (λ l. l.0 ≡ arc_value m) }
    ensures rule { IfOk result (λ l. rule_of l.1 ≡ generalised (arc_value m) (pair_of p.now)) }
    ensures instance { IfOk result (λ l. Instance (rule_of l.1) (pair_of p.now)) }
    ensures canonical { IfOk result (λ l. Canonical (arc_value m) (rule_of l.1)) }
    ensures ticks { steps.new ≡ steps.old + 1 }
{
    steps.tick();
    let rule = rule_of_pair(alloc, &m, p)?;
    let rule = Arc::new(alloc, rule)?;
    Ok(Learned::new(m, rule))
}
