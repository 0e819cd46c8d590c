//! What is asked of a list of rules, whatever holds it, and of a table that rules are put into.
ghost use Rattle.std.specs.Prelude.{◌≡◌, List, [], IfOk, OnOk, OnErr, IfErr, MatchOption};
ghost use Rattle.std.specs.Arc.{arc_value};
ghost use Rattle.po_term.specs.Form.{WellFormed};
ghost use Rattle.po_term.specs.Moves.{instr_of};
ghost use Rattle.po_model.specs.declared.machine.Machine.{Machine};
ghost use Rattle.po_model.specs.Pairs.{pair_of};
ghost use Rattle.po_model.specs.Holed.{PlainRule, rule_of};
ghost use Rattle.po_model.specs.Lookups.{NoneFits, FitsRule};
ghost use Rattle.po_rule.specs.Adding.{Added, Refused};

use crate::learned::Learned;
use crate::refusal::AddRefusal;
use po_model::{Machine, Pair, Rule};
use po_word::OutOfMemory;
use std::alloc::Global;
use std::sync::Arc;

/// A list of rules of a machine, in which the rule of a pair is looked up (docs/RULES.md, "Tables").
pub trait Lookup {
    ghost machine: { Self → Machine };

    ghost rules: { Self → List PlainRule };

    /// The machine whose rules these are (docs/RULES.md, "Tables").
    fn machine(&self) -> &Machine
        ensures { result.now ≡ machine self.now };

    /// A rule of the list that has this pair of well-formed instructions as an instance, and None exactly where none
    /// has (docs/RULES.md, "Tables"). It fails only where memory is refused.
    fn look(&self, alloc: Global, p: &Pair) -> Result<Option<&Arc<Rule>>, OutOfMemory>
        requires first { WellFormed (instr_of p.now.a) }
        requires second { WellFormed (instr_of p.now.b) }
        ensures { IfOk result (λ o. MatchOption o (NoneFits (rules self.now) (pair_of p.now))
            (λ r. FitsRule (rules self.now) (pair_of p.now) (rule_of (arc_value r.now)))) };
}

/// A list of rules of a machine, which grows (docs/RULES.md, "Tables").
pub trait Table: Lookup + Sized {
    /// A table of the machine without rules (docs/RULES.md, "Tables"). It fails only where memory is refused.
    fn open(alloc: Global, machine: Arc<Machine>) -> Result<Self, OutOfMemory>
        ensures machine { IfOk result (λ t. Self.machine t ≡ arc_value machine) }
        ensures rules { IfOk result (λ t. Self.rules t ≡ []) };

    /// Puts a rule behind the others (docs/RULES.md, "Tables"): OtherMachine exactly where it is for another machine,
    /// Known exactly where the machines agree and the table has it, with its place. A refusal leaves the table as it
    /// was.
    fn put(&mut self, l: Learned) -> Result<(), AddRefusal>
        ensures machine { Self.machine self.new ≡ Self.machine self.old }
        ensures added { OnOk result
            (Added (Self.machine self.old) (Self.rules self.old) l.0 (rule_of l.1) (Self.rules self.new)) }
        ensures refused { IfErr result (Refused (Self.machine self.old) (Self.rules self.old) l.0 (rule_of l.1)) }
        ensures unchanged { OnErr result (self.new ≡ self.old) };

    /// A new table that has this one's rules and the rule behind them (docs/RULES.md, "Tables"). It refuses as `put`
    /// does, and this table stays as it is.
    fn with(&self, alloc: Global, l: Learned) -> Result<Self, AddRefusal>
        ensures machine { IfOk result (λ t. Self.machine t ≡ Self.machine self.now) }
        ensures added { IfOk result
            (λ t. Added (Self.machine self.now) (Self.rules self.now) l.0 (rule_of l.1) (Self.rules t)) }
        ensures refused { IfErr result (Refused (Self.machine self.now) (Self.rules self.now) l.0 (rule_of l.1)) };
}
