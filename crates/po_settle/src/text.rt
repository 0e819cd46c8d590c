//! The text of the rule of a pair.
ghost use Rattle.std.specs.Prelude.{ℕ, ◌≡◌, ◌∷◌, [], ◌+◌, IfOk, OnOk};
ghost use Rattle.std.specs.Arc.{arc_value};
ghost use Rattle.po_model.specs.Generalised.{generalised};
ghost use Rattle.po_model.specs.Lookups.{AreCanonical};
ghost use Rattle.po_model.specs.Machines.{IsMachine};
ghost use Rattle.po_model.specs.Pairs.{pair_of, WellFormedPair};
ghost use Rattle.po_model.specs.RuleText.{rule_text};
ghost use Rattle.po_settle.specs.Texts.{IsUnruled};

use po_general::generalise;
use po_model::{Machine, Pair, Steps};
use po_rule::{Lookup, print_rule};
use po_word::OutOfMemory;
use std::alloc::Global;
use std::sync::Arc;
use std::sync::ledger::Ledger;

/// The machine, shared once more.
fn share(m: &Arc<Machine>) -> Result<Arc<Machine>, OutOfMemory>
    ensures { IfOk result (λ n. arc_value n ≡ arc_value m.now) }
{
    let shared = m.clone()?;
    Ok(shared)
}

/// The text of the rule of a pair, which is generalised. A step is counted.
fn general_text<L: Ledger>(
    alloc: Global,
    m: &Arc<Machine>,
    p: &Pair,
    steps: &mut Steps<L>,
) -> Result<Vec<u8>, OutOfMemory>
    requires machine { IsMachine (arc_value m.now) }
    requires pair { WellFormedPair (pair_of p.now) }
    ensures text { IfOk result (λ t. t.items ≡ rule_text (generalised (arc_value m.now) (pair_of p.now))) }
    ensures ticks { OnOk result (steps.new ≡ steps.old + 1) }
{
    let l = generalise(alloc, share(m)?, p, steps)?;
    let text = print_rule(alloc, l.rule())?;
    Ok(text)
}

/// The text of the rule of a pair. The pair is generalised only where the list has no rule for it; then a step is
/// counted.
pub fn miss_text<R: Lookup, L: Ledger>(
    alloc: Global,
    m: &Arc<Machine>,
    rules: &R,
    p: &Pair,
    steps: &mut Steps<L>,
) -> Result<Vec<u8>, OutOfMemory>
    requires machine { IsMachine (arc_value m.now) }
    requires canonical { AreCanonical (arc_value m.now) (R.rules rules.now) }
    requires pair { WellFormedPair (pair_of p.now) }
    ensures text { IfOk result (λ t. t.items ≡ rule_text (generalised (arc_value m.now) (pair_of p.now))) }
    ensures ticks { OnOk result ((n : ℕ) × IsUnruled (R.rules rules.now) (pair_of p.now ∷ []) n
        × (steps.new ≡ steps.old + n)) }
{
    match rules.look(alloc, p)? {
        Some(rule) => print_rule(alloc, rule),
        None => general_text(alloc, m, p, steps),
    }
}
