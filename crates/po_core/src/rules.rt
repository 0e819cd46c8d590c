//! Rules that are learned: one behind the others, where it is none of them.
ghost use Rattle.std.specs.Prelude.{◌≡◌, ◌≤◌, ◌++◌, ◌∷◌, [], length, IfOk, OnOk, OnErr, IsTrue, ◌↔◌};
ghost use Rattle.std.specs.Arc.{arc_value};
ghost use Rattle.po_model.specs.Holed.{rule_of};
ghost use Rattle.po_model.specs.Agrees.{Instance};
ghost use Rattle.po_model.specs.Learning.{LearnsTo};
ghost use Rattle.po_model.specs.Pairs.{pair_of, WellFormedPair};
ghost use Rattle.po_table.specs.Tables.{shared};
ghost use Rattle.po_core.specs.Went.{Went};
ghost use Rattle.po_core.specs.Events.{HoldsOne, IsOneOrNone};
ghost use Rattle.po_core.specs.Parts.{HoldsFormed};
ghost use Rattle.po_core.specs.Views.{held_of};

use po_model::{Machine, Pair, Rule};
use po_rule::{AddRefusal, Learned};
use po_skel::pair_values;
use po_table::{is_instance, may_add};
use po_word::OutOfMemory;
use std::alloc::Global;
use std::sync::Arc;

/// A rule that is shared once more.
fn share(rule: &Arc<Rule>) -> Result<Arc<Rule>, OutOfMemory>
    ensures { IfOk result (λ r. arc_value r ≡ arc_value rule.now) }
{
    let shared = rule.clone()?;
    Ok(shared)
}

/// Puts a rule behind the others.
fn push_rule(rules: &mut Vec<Arc<Rule>>, rule: &Arc<Rule>) -> Result<(), OutOfMemory>
    ensures pushed { OnOk result (shared rules.new.items
        ≡ shared rules.old.items ++ rule_of (arc_value rule.now) ∷ []) }
    ensures unchanged { OnErr result (shared rules.new.items ≡ shared rules.old.items) }
    ensures longer { length rules.old.items ≤ length rules.new.items }
{
    let rule = share(rule)?;
    match rules.push(rule) {
        Ok(()) => Ok(()),
        Err(_) => Err(OutOfMemory),
    }
}

/// Puts a learned rule behind the others, where none of them is the same; false where it is for another machine.
pub fn add_rule(
    alloc: Global,
    machine: &Machine,
    rules: &mut Vec<Arc<Rule>>,
    l: &Learned,
) -> Result<bool, OutOfMemory>
    ensures went { Went result (l.now.0 ≡ machine.now)
        (IsOneOrNone (shared rules.old.items) (rule_of l.now.1)
        × LearnsTo [] (shared rules.old.items) (rule_of l.now.1) (shared rules.new.items))
        (shared rules.new.items ≡ shared rules.old.items) }
    ensures longer { length rules.old.items ≤ length rules.new.items }
{
    match may_add(machine, rules, l) {
        Ok(()) => {
            push_rule(rules, l.rule())?;
            Ok(true)
        }
        Err(AddRefusal::Known(_)) => Ok(true),
        Err(AddRefusal::OtherMachine) => Ok(false),
        Err(AddRefusal::OutOfMemory) => Err(OutOfMemory),
    }
}

/// Whether a pair is held that is an instance of the rule.
pub fn holds(alloc: Global, held: &Option<Pair>, rule: &Rule) -> Result<bool, OutOfMemory>
    requires formed { HoldsFormed (held_of held.now) }
    ensures { IfOk result (λ b. IsTrue b ↔ HoldsOne (held_of held.now) (rule_of rule.now)) }
{
    match held {
        Some(p) => is_instance_of(alloc, rule, p),
        None => Ok(false),
    }
}

fn is_instance_of(alloc: Global, rule: &Rule, p: &Pair) -> Result<bool, OutOfMemory>
    requires { WellFormedPair (pair_of p.now) }
    ensures { IfOk result (λ b. IsTrue b ↔ Instance (rule_of rule.now) (pair_of p.now)) }
{
    let v = pair_values(alloc, p)?;
    Ok(is_instance(&v, rule, p))
}
