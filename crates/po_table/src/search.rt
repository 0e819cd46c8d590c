//! Searches through a list of shared rules. A list may be the first rules of a longer one.
ghost use Rattle.std.specs.Prelude.{◌≡◌, ◌≢◌, All, IfOk, OnOk, IfErr, MatchOption, slice_get, Some};
ghost use Rattle.std.specs.Arc.{arc_value};
ghost use Rattle.po_term.specs.Form.{WellFormed};
ghost use Rattle.po_term.specs.Moves.{instr_of};
ghost use Rattle.po_model.specs.Holed.{rule_of, values_of};
ghost use Rattle.po_model.specs.Lookups.{NoneFits, FitsRule};
ghost use Rattle.po_model.specs.Pairs.{pair_of};
ghost use Rattle.po_model.specs.Shape.{pair_values};
ghost use Rattle.po_rule.specs.Adding.{Refused};
ghost use Rattle.po_table.specs.Tables.{shared, IsKnown};

use crate::instance::is_instance;
use po_model::{Machine, Pair, Rule, Values, same_machine};
use po_rule::{AddRefusal, Learned, same_rule};
use po_skel::pair_values;
use po_word::OutOfMemory;
use std::alloc::Global;
use std::sync::Arc;

/// The first rule that has the pair, whose values are `v`, as an instance.
fn first_fitting<'a>(v: &Values, rules: &'a [Arc<Rule>], p: &Pair) -> Option<&'a Arc<Rule>>
    requires first { WellFormed (instr_of p.now.a) }
    requires second { WellFormed (instr_of p.now.b) }
    requires values { values_of v.now ≡ pair_values (pair_of p.now) }
    ensures { MatchOption result (NoneFits (shared rules.now) (pair_of p.now))
        (λ r. FitsRule (shared rules.now) (pair_of p.now) (rule_of (arc_value r.now))) }
{
    for r in rules {
        if is_instance(v, r, p) {
            return Some(r);
        }
    }
    None
}

/// The first rule of a list that has this pair of well-formed instructions as an instance, and None exactly where none
/// has (docs/RULES.md, "Tables"). It fails only where memory is refused.
pub fn fitting<'a>(
    alloc: Global,
    rules: &'a [Arc<Rule>],
    p: &Pair,
) -> Result<Option<&'a Arc<Rule>>, OutOfMemory>
    requires first { WellFormed (instr_of p.now.a) }
    requires second { WellFormed (instr_of p.now.b) }
    ensures { IfOk result (λ o. MatchOption o (NoneFits (shared rules.now) (pair_of p.now))
        (λ r. FitsRule (shared rules.now) (pair_of p.now) (rule_of (arc_value r.now)))) }
{
    let v = pair_values(alloc, p)?;
    Ok(first_fitting(&v, rules, p))
}

/// The place of a rule in a list.
fn place_of(rules: &[Arc<Rule>], rule: &Rule) -> Option<usize>
    ensures { MatchOption result (All (λ s. s ≢ rule_of rule.now) (shared rules.now))
        (λ i. slice_get (shared rules.now) i ≡ Some (rule_of rule.now)) }
{
    for (i, r) in rules.iter().enumerate() {
        if same_rule(r, rule) {
            return Some(i);
        }
    }
    None
}

/// Whether a rule is none of these, and else its place.
fn is_new(rules: &[Arc<Rule>], rule: &Rule) -> Result<(), AddRefusal>
    ensures fresh { OnOk result (All (λ s. s ≢ rule_of rule.now) (shared rules.now)) }
    ensures known { IfErr result (IsKnown (shared rules.now) (rule_of rule.now)) }
{
    match place_of(rules, rule) {
        Some(place) => Err(AddRefusal::Known(place)),
        None => Ok(()),
    }
}

/// Whether a learned rule may stand behind these rules of a machine, and else why not (docs/RULES.md, "Tables"):
/// OtherMachine exactly where it is for another machine, Known exactly where the machines agree and it is one of
/// these, with its place. It takes no memory.
pub fn may_add(machine: &Machine, rules: &[Arc<Rule>], l: &Learned) -> Result<(), AddRefusal>
    ensures same { OnOk result (l.now.0 ≡ machine.now) }
    ensures fresh { OnOk result (All (λ s. s ≢ rule_of l.now.1) (shared rules.now)) }
    ensures refused { IfErr result (Refused machine.now (shared rules.now) l.now.0 (rule_of l.now.1)) }
    ensures memory { IfErr result (λ e. e ≢ AddRefusal.OutOfMemory) }
{
    if same_machine(l.machine(), machine) {
        is_new(rules, l.rule())
    } else {
        Err(AddRefusal::OtherMachine)
    }
}
