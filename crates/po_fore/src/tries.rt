//! One pair is tried: by a rule that has it as an instance, or by slow combination where there is none.
ghost use Rattle.std.specs.Prelude.{◌≡◌, ◌+◌, ◌∷◌, [], ◌++◌, map, Some, OnOk, OnErr, IfOk, MatchOption};
ghost use Rattle.std.specs.Arc.{arc_value};
ghost use Rattle.po_model.specs.Agrees.{Instance};
ghost use Rattle.po_model.specs.Canonical.{Canonical};
ghost use Rattle.po_model.specs.Combined.{combination};
ghost use Rattle.po_model.specs.Holed.{rule_of};
ghost use Rattle.po_model.specs.Learning.{Try};
ghost use Rattle.po_model.specs.Lookups.{gives, AreCanonical};
ghost use Rattle.po_model.specs.Machines.{IsMachine};
ghost use Rattle.po_model.specs.Pairs.{pair_of, WellFormedPair};
ghost use Rattle.po_model.specs.Scanned.{pair_ready, after_try, IsAtEnd};
ghost use Rattle.po_slow.specs.States.{scan_of, IsFormedState, IsFinished};
ghost use Rattle.po_fore.specs.Reports.{hit_of, Gains, IsTryOn};

use crate::report::{BlockReport, Hit};
use po_model::{Machine, Pair, Rule, Steps};
use po_rule::Lookup;
use po_slow::{Ask, ScanState, scan_step, slow_pair};
use po_table::outcome;
use po_word::{OutOfMemory, push};
use std::alloc::Global;
use std::sync::Arc;
use std::sync::ledger::Ledger;

/// The rule, shared once more.
fn share(rule: &Arc<Rule>) -> Result<Arc<Rule>, OutOfMemory>
    ensures { IfOk result (λ r. arc_value r ≡ arc_value rule.now) }
{
    let shared = rule.clone()?;
    Ok(shared)
}

/// Tries the pair that is ready by a rule that has it as an instance.
fn try_by_rule(
    alloc: Global,
    m: &Machine,
    s: &mut ScanState,
    p: Pair,
    rule: &Arc<Rule>,
    used: &mut Vec<Hit>,
) -> Result<(), OutOfMemory>
    requires machine { IsMachine m.now }
    requires formed { IsFormedState s.old }
    requires ready { pair_ready (scan_of s.old) ≡ Some (pair_of p) }
    requires pair { WellFormedPair (pair_of p) }
    requires canonical { Canonical m.now (rule_of (arc_value rule.now)) }
    requires instance { Instance (rule_of (arc_value rule.now)) (pair_of p) }
    ensures goes_on { OnOk result
        (scan_of s.new ≡ after_try (gives (rule_of (arc_value rule.now)) (pair_of p)) (scan_of s.old)) }
    ensures slowly { OnOk result (scan_of s.new ≡ after_try (combination m.now (pair_of p)) (scan_of s.old)) }
    ensures used { OnOk result (map hit_of used.new.items ≡ map hit_of used.old.items
        ++ record { pair = pair_of p; rule = rule_of (arc_value rule.now) } ∷ []) }
    ensures unchanged { OnErr result (scan_of s.new ≡ scan_of s.old) }
    ensures formed { IsFormedState s.new }
{
    let o = outcome(alloc, rule, &p)?;
    let rule = share(rule)?;
    push_hit(used, Hit { pair: p, rule })?;
    scan_step(alloc, s, o)
}

fn push_hit(used: &mut Vec<Hit>, hit: Hit) -> Result<(), OutOfMemory>
    ensures { OnOk result (used.new.items ≡ used.old.items ++ hit ∷ []) }
{
    push(used, hit)
}

/// Tries the pair that is ready by slow combination. A step is counted.
fn try_slowly<L: Ledger>(
    alloc: Global,
    m: &Machine,
    s: &mut ScanState,
    p: Pair,
    steps: &mut Steps<L>,
    misses: &mut Vec<Pair>,
) -> Result<(), OutOfMemory>
    requires machine { IsMachine m.now }
    requires formed { IsFormedState s.old }
    requires ready { pair_ready (scan_of s.old) ≡ Some (pair_of p) }
    ensures goes_on { OnOk result (scan_of s.new ≡ after_try (combination m.now (pair_of p)) (scan_of s.old)) }
    ensures missed { OnOk result (map pair_of misses.new.items ≡ map pair_of misses.old.items ++ pair_of p ∷ []) }
    ensures ticks { OnOk result (steps.new ≡ steps.old + 1) }
    ensures unchanged { OnErr result (scan_of s.new ≡ scan_of s.old) }
    ensures formed { IsFormedState s.new }
{
    let o = slow_pair(alloc, m, &p, steps)?;
    push_miss(misses, p)?;
    scan_step(alloc, s, o)
}

fn push_miss(misses: &mut Vec<Pair>, p: Pair) -> Result<(), OutOfMemory>
    ensures { OnOk result (misses.new.items ≡ misses.old.items ++ p ∷ []) }
{
    push(misses, p)
}

/// The pair that is ready, and None at the end of the block.
fn next_pair(alloc: Global, s: &ScanState) -> Result<Option<Pair>, OutOfMemory>
    requires formed { IsFormedState s.now }
    requires going { IsFinished (scan_of s.now) → ⊥ }
    ensures { IfOk result (λ o. MatchOption o (IsAtEnd (scan_of s.now))
        (λ p. (pair_ready (scan_of s.now) ≡ Some (pair_of p)) × WellFormedPair (pair_of p))) }
{
    match s.ask(alloc)? {
        Ask::Pair(p) => Ok(Some(p)),
        Ask::BlockEnd => Ok(None),
        Ask::Finished => unreachable!(),
    }
}

/// Tries the pair that is ready, and goes on from it.
fn try_pair<R: Lookup, L: Ledger>(
    alloc: Global,
    m: &Machine,
    rules: &R,
    s: &mut ScanState,
    p: Pair,
    steps: &mut Steps<L>,
    report: &mut BlockReport,
) -> Result<(), OutOfMemory>
    requires machine { IsMachine m.now }
    requires canonical { AreCanonical m.now (R.rules rules.now) }
    requires formed { IsFormedState s.old }
    requires ready { pair_ready (scan_of s.old) ≡ Some (pair_of p) }
    requires pair { WellFormedPair (pair_of p) }
    ensures tried { OnOk result ((x : Try) × Gains m.now (R.rules rules.now) (scan_of s.old) (scan_of s.new)
        report.old report.new steps.old steps.new (x ∷ [])) }
    ensures unchanged { OnErr result (scan_of s.new ≡ scan_of s.old) }
    ensures formed { IsFormedState s.new }
{
    match rules.look(alloc, &p)? {
        Some(rule) => try_by_rule(alloc, m, s, p, rule, &mut report.used),
        None => try_slowly(alloc, m, s, p, steps, &mut report.misses),
    }
}

/// One try; false at the end of the block.
pub fn step<R: Lookup, L: Ledger>(
    alloc: Global,
    m: &Machine,
    rules: &R,
    s: &mut ScanState,
    steps: &mut Steps<L>,
    report: &mut BlockReport,
) -> Result<bool, OutOfMemory>
    requires machine { IsMachine m.now }
    requires canonical { AreCanonical m.now (R.rules rules.now) }
    requires formed { IsFormedState s.old }
    requires going { IsFinished (scan_of s.old) → ⊥ }
    ensures tried { IfOk result (IsTryOn m.now (R.rules rules.now) (scan_of s.old) (scan_of s.new)
        report.old report.new steps.old steps.new) }
    ensures unchanged { OnErr result (scan_of s.new ≡ scan_of s.old) }
    ensures formed { IsFormedState s.new }
{
    let Some(p) = next_pair(alloc, s)? else {
        return Ok(false);
    };
    try_pair(alloc, m, rules, s, p, steps, report)?;
    Ok(true)
}
