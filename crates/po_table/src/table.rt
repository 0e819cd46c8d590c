//! A table of rules: a list of them, beside the machine whose rules they are.
ghost use Rattle.std.specs.Prelude.{◌≡◌, ◌≢◌, [], All, length, map, IfOk, OnOk, OnErr, IfErr, MatchOption};
ghost use Rattle.std.specs.Arc.{arc_value};
ghost use Rattle.po_term.specs.Form.{WellFormed};
ghost use Rattle.po_term.specs.Moves.{instr_of};
ghost use Rattle.po_model.specs.Holed.{rule_of};
ghost use Rattle.po_model.specs.Lookups.{AreCanonical, AreDistinct, NoneFits, FitsRule};
ghost use Rattle.po_model.specs.Pairs.{pair_of};
ghost use Rattle.po_rule.specs.Adding.{Added, Refused};
ghost use Rattle.po_table.specs.Tables.{rules_of};

use crate::search::{fitting, may_add};
use po_model::{Machine, Pair, Rule};
use po_rule::{AddRefusal, Learned, Lookup, Table};
use po_word::OutOfMemory;
use std::alloc::Global;
use std::marker::Model;
use std::sync::Arc;

/// Learned rules of a machine, each once, in the order in which they were added (docs/RULES.md, "Tables"). Contracts
/// see the machine and the list of rules.
#[derive(Drop)]
pub struct RuleTable {
    machine: Arc<Machine>,
    rules: Vec<Arc<Rule>>,
}

impl Model for RuleTable {
    ghost use Rattle.std.specs.Prelude.{List, map};
    ghost use Rattle.std.specs.Arc.{arc_value};
    ghost use Rattle.std.specs.Coded.{codes};
    ghost use Rattle.po_word.specs.contracts.expression.CExpr as expr;
    ghost use Rattle.po_model.specs.contracts.machine.PatTerm as pat;
    ghost use Rattle.po_model.specs.contracts.hole.PTerm as term;
    ghost use Rattle.po_model.specs.declared.machine.Machine.{Machine as PlainMachine};
    ghost use Rattle.po_model.specs.declared.rule.Rule.{Rule as OneRule};
    ghost use Rattle.po_table.specs.Tables.{IsTable};

    ghost Value = { PlainMachine × List OneRule };

    ghost coded = { Prim.hlevel (codes, pat.the_row.coded, term.the_row.coded, expr.the_row.coded) };

    ghost view = { λ t. (arc_value t.machine, map (λ r. arc_value r) t.rules.items) };

    ghost invariant = { λ t. IsTable (arc_value t.machine, map (λ r. arc_value r) t.rules.items) };
}

impl RuleTable {
    /// A table of a machine without rules (docs/RULES.md, "Tables"). It fails only where memory is refused.
    pub fn new(alloc: Global, machine: Arc<Machine>) -> Result<RuleTable, OutOfMemory>
        ensures machine { IfOk result (λ t. t.0 ≡ arc_value machine) }
        ensures rules { IfOk result (λ t. rules_of t ≡ []) }
    {
        Ok(RuleTable {
            machine,
            rules: Vec::new(alloc),
        })
    }

    /// The machine (docs/RULES.md, "Tables").
    pub fn machine(&self) -> &Arc<Machine>
        ensures is_it { arc_value result.now ≡ self.now.0 }
        ensures canonical { AreCanonical self.now.0 (rules_of self.now) }
        ensures distinct { AreDistinct (rules_of self.now) }
    {
        &self.machine
    }

    /// How many rules the table has (docs/RULES.md, "Tables").
    pub fn len(&self) -> usize
        ensures { result ≡ length (rules_of self.now) }
    {
        self.rules.len()
    }

    /// The rule of the table that has this pair of well-formed instructions as an instance, and None exactly where
    /// none has (docs/RULES.md, "Tables"). It fails only where memory is refused.
    pub fn find(&self, alloc: Global, p: &Pair) -> Result<Option<&Arc<Rule>>, OutOfMemory>
        requires first { WellFormed (instr_of p.now.a) }
        requires second { WellFormed (instr_of p.now.b) }
        ensures { IfOk result (λ o. MatchOption o (NoneFits (rules_of self.now) (pair_of p.now))
            (λ r. FitsRule (rules_of self.now) (pair_of p.now) (rule_of (arc_value r.now)))) }
    {
        fitting(alloc, &self.rules, p)
    }

    /// Puts a rule behind the others (docs/RULES.md, "Tables"): OtherMachine exactly where it is for another machine,
    /// Known exactly where the machines agree and the table has it, with its place. A refusal leaves the table as it
    /// was.
    pub fn add(&mut self, l: Learned) -> Result<(), AddRefusal>
        ensures machine { self.new.0 ≡ self.old.0 }
        ensures added { OnOk result (Added self.old.0 (rules_of self.old) l.0 (rule_of l.1) (rules_of self.new)) }
        ensures refused { IfErr result (Refused self.old.0 (rules_of self.old) l.0 (rule_of l.1)) }
        ensures unchanged { OnErr result (self.new ≡ self.old) }
    {
        match may_add(&self.machine, &self.rules, &l) {
            Ok(()) => self.push(l),
            Err(refusal) => Err(refusal),
        }
    }

    /// A new table that has this one's rules and the rule behind them (docs/RULES.md, "Tables"). It refuses as
    /// `add` does, and this table stays as it is.
    pub fn with(&self, alloc: Global, l: Learned) -> Result<RuleTable, AddRefusal>
        ensures machine { IfOk result (λ t. t.0 ≡ self.now.0) }
        ensures added { IfOk result
            (λ t. Added self.now.0 (rules_of self.now) l.0 (rule_of l.1) (rules_of t)) }
        ensures refused { IfErr result (Refused self.now.0 (rules_of self.now) l.0 (rule_of l.1)) }
    {
        match may_add(&self.machine, &self.rules, &l) {
            Ok(()) => self.longer(alloc, l),
            Err(refusal) => Err(refusal),
        }
    }

    /// A new table with a rule that this one doesn't have.
    fn longer(&self, alloc: Global, l: Learned) -> Result<RuleTable, AddRefusal>
        requires same { l.0 ≡ self.now.0 }
        requires fresh { All (λ s. s ≢ rule_of l.1) (rules_of self.now) }
        ensures machine { IfOk result (λ t. t.0 ≡ self.now.0) }
        ensures added { IfOk result
            (λ t. Added self.now.0 (rules_of self.now) l.0 (rule_of l.1) (rules_of t)) }
        ensures refused { IfErr result (λ r. r ≡ AddRefusal.OutOfMemory) }
    {
        let Ok(mut table) = self.again(alloc) else {
            return Err(AddRefusal::OutOfMemory);
        };
        match table.push(l) {
            Ok(()) => Ok(table),
            Err(refusal) => Err(refusal),
        }
    }

    /// The same table once more.
    fn again(&self, alloc: Global) -> Result<RuleTable, OutOfMemory>
        ensures { IfOk result (λ t. t ≡ self.now) }
    {
        let rules = shared_again(alloc, &self.rules)?;
        Ok(RuleTable {
            machine: Arc::try_clone(&self.machine)?,
            rules,
        })
    }

    /// Puts a rule that the table doesn't have behind the others.
    fn push(&mut self, l: Learned) -> Result<(), AddRefusal>
        requires same { l.0 ≡ self.old.0 }
        requires fresh { All (λ s. s ≢ rule_of l.1) (rules_of self.old) }
        ensures machine { self.new.0 ≡ self.old.0 }
        ensures added { OnOk result (Added self.old.0 (rules_of self.old) l.0 (rule_of l.1) (rules_of self.new)) }
        ensures refused { IfErr result (λ r. r ≡ AddRefusal.OutOfMemory) }
        ensures unchanged { OnErr result (self.new ≡ self.old) }
    {
        let rule = l.into_rule();
        match self.rules.push(rule) {
            Ok(()) => Ok(()),
            Err(_) => Err(AddRefusal::OutOfMemory),
        }
    }
}

/// The same rules once more, with room for another.
fn shared_again(alloc: Global, rules: &[Arc<Rule>]) -> Result<Vec<Arc<Rule>>, OutOfMemory>
    ensures { IfOk result (λ v. map (λ r. arc_value r) v.items ≡ map (λ r. arc_value r) rules.now) }
{
    let mut out = Vec::new(alloc);
    out.reserve(rules.len().saturating_add(1))?;
    for rule in rules {
        out.push(Arc::try_clone(rule)?)?;
    }
    Ok(out)
}

impl Lookup for RuleTable {
    ghost machine = { λ t. t.0 };

    ghost rules = { rules_of };

    fn machine(&self) -> &Machine {
        &self.machine
    }

    fn look(&self, alloc: Global, p: &Pair) -> Result<Option<&Arc<Rule>>, OutOfMemory> {
        self.find(alloc, p)
    }
}

impl Table for RuleTable {
    fn open(alloc: Global, machine: Arc<Machine>) -> Result<RuleTable, OutOfMemory> {
        RuleTable::new(alloc, machine)
    }

    fn put(&mut self, l: Learned) -> Result<(), AddRefusal> {
        self.add(l)
    }

    fn with(&self, alloc: Global, l: Learned) -> Result<RuleTable, AddRefusal> {
        RuleTable::with(self, alloc, l)
    }
}
