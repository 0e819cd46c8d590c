//! A rule beside the machine that it is a rule of.
ghost use Rattle.std.specs.Prelude.{◌≡◌};
ghost use Rattle.std.specs.Arc.{arc_value};
ghost use Rattle.po_model.specs.Holed.{rule_of};
ghost use Rattle.po_model.specs.Canonical.{Canonical};

use po_model::{Machine, Rule};
use std::marker::Model;
use std::sync::Arc;

/// A rule that is the rule of each of its instances on a machine (docs/RULES.md, "Learned rules"). Contracts see it as
/// the two.
#[derive(Drop)]
pub struct Learned {
    machine: Arc<Machine>,
    rule: Arc<Rule>,
}

impl Model for Learned {
    ghost use Rattle.std.specs.Arc.{arc_value};
    ghost use Rattle.std.specs.Coded.{codes};
    ghost use Rattle.po_word.specs.contracts.expression.CExpr as expr;
    ghost use Rattle.po_model.specs.contracts.machine.PatTerm as pat;
    ghost use Rattle.po_model.specs.contracts.hole.PTerm as term;
    ghost use Rattle.po_model.specs.declared.machine.Machine.{Machine as PlainMachine};
    ghost use Rattle.po_model.specs.declared.rule.Rule.{Rule as OneRule};
    ghost use Rattle.po_model.specs.Holed.{rule_of};
    ghost use Rattle.po_model.specs.Canonical.{Canonical};

    ghost Value = { PlainMachine × OneRule };

    ghost coded = { Prim.hlevel (codes, pat.the_row.coded, term.the_row.coded, expr.the_row.coded) };

    ghost view = { λ l. (arc_value l.machine, arc_value l.rule) };

    ghost invariant = { λ l. Canonical (arc_value l.machine) (rule_of (arc_value l.rule)) };
}

impl Learned {
    /// The rule beside its machine, of which the caller knows this (docs/RULES.md, "Learned rules").
    pub fn new(machine: Arc<Machine>, rule: Arc<Rule>) -> Learned
        requires { Canonical (arc_value machine) (rule_of (arc_value rule)) }
        ensures { result ≡ (arc_value machine, arc_value rule) }
    {
        Learned { machine, rule }
    }

    /// The machine (docs/RULES.md, "Learned rules").
    pub fn machine(&self) -> &Arc<Machine>
        ensures { arc_value result.now ≡ self.now.0 }
    {
        &self.machine
    }

    /// The rule (docs/RULES.md, "Learned rules").
    pub fn rule(&self) -> &Arc<Rule>
        ensures is_it { arc_value result.now ≡ self.now.1 }
        ensures canonical { Canonical self.now.0 (rule_of self.now.1) }
    {
        &self.rule
    }

    /// The rule, taken out (docs/RULES.md, "Learned rules").
    pub fn into_rule(self) -> Arc<Rule>
        ensures is_it { arc_value result ≡ self.1 }
        ensures canonical { Canonical self.0 (rule_of self.1) }
    {
        self.rule
    }
}
