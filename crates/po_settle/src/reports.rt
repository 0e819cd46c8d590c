//! The texts of the rules of all pairs that reports tell of.
ghost use Rattle.std.specs.Prelude.{ℕ, ◌≡◌, ◌∷◌, [], ◌++◌, ◌+◌, map, All, IfOk, OnOk};
ghost use Rattle.std.specs.Arc.{arc_value};
ghost use Rattle.po_model.specs.Lookups.{AreCanonical};
ghost use Rattle.po_model.specs.Machines.{IsMachine};
ghost use Rattle.po_model.specs.Pairs.{pair_of, WellFormedPair};
ghost use Rattle.po_settle.specs.Texts.{texts_of, AreSorted, IsUnruled};
ghost use Rattle.po_settle.specs.Reported.{hit_text, miss_text, report_texts, all_texts, all_misses, HasFormedMisses};

use crate::distinct::sorted_distinct;
use crate::text::miss_text;
use po_fore::{BlockReport, Hit};
use po_model::{Machine, Pair, Steps};
use po_rule::{Lookup, print_rule};
use po_word::{OutOfMemory, push};
use std::alloc::Global;
use std::sync::Arc;
use std::sync::ledger::Ledger;

fn push_text(texts: &mut Vec<Vec<u8>>, t: Vec<u8>) -> Result<(), OutOfMemory>
    ensures { OnOk result (texts_of texts.new.items ≡ texts_of texts.old.items ++ t.items ∷ []) }
{
    push(texts, t)
}

/// The texts of the rules that were used.
fn push_hits(alloc: Global, used: &[Hit], texts: &mut Vec<Vec<u8>>) -> Result<(), OutOfMemory>
    ensures { OnOk result (texts_of texts.new.items ≡ texts_of texts.old.items ++ map hit_text used.now) }
{
    for h in used {
        push_text(texts, print_rule(alloc, &h.rule)?)?;
    }
    Ok(())
}

/// The texts of the rules of the misses. A step is counted for each that has no rule in the list.
fn push_misses<R: Lookup, L: Ledger>(
    alloc: Global,
    m: &Arc<Machine>,
    rules: &R,
    misses: &[Pair],
    steps: &mut Steps<L>,
    texts: &mut Vec<Vec<u8>>,
) -> Result<(), OutOfMemory>
    requires machine { IsMachine (arc_value m.now) }
    requires canonical { AreCanonical (arc_value m.now) (R.rules rules.now) }
    requires pairs { All WellFormedPair (map pair_of misses.now) }
    ensures texts { OnOk result (texts_of texts.new.items
        ≡ texts_of texts.old.items ++ map (miss_text (arc_value m.now)) misses.now) }
    ensures ticks { OnOk result ((n : ℕ) × IsUnruled (R.rules rules.now) (map pair_of misses.now) n
        × (steps.new ≡ steps.old + n)) }
{
    for p in misses {
        push_text(texts, miss_text(alloc, m, rules, p, steps)?)?;
    }
    Ok(())
}

/// The texts of the rules that a report tells of.
fn push_report<R: Lookup, L: Ledger>(
    alloc: Global,
    m: &Arc<Machine>,
    rules: &R,
    r: &BlockReport,
    steps: &mut Steps<L>,
    texts: &mut Vec<Vec<u8>>,
) -> Result<(), OutOfMemory>
    requires machine { IsMachine (arc_value m.now) }
    requires canonical { AreCanonical (arc_value m.now) (R.rules rules.now) }
    requires formed { HasFormedMisses r.now }
    ensures texts { OnOk result (texts_of texts.new.items
        ≡ texts_of texts.old.items ++ report_texts (arc_value m.now) r.now) }
    ensures ticks { OnOk result ((n : ℕ) × IsUnruled (R.rules rules.now) (map pair_of r.now.misses.items) n
        × (steps.new ≡ steps.old + n)) }
{
    push_hits(alloc, &r.used, texts)?;
    push_misses(alloc, m, rules, &r.misses, steps, texts)
}

/// The texts of the rules that were used and of the rules of the misses, sorted by bytes, each once (docs/RULES.md,
/// "The rules of a run"). The list's rules are canonical for the machine, and the misses well formed. A step is
/// counted for each miss that has no rule in the list. It fails only where memory is refused.
pub fn settle<R: Lookup, L: Ledger>(
    alloc: Global,
    m: &Arc<Machine>,
    rules: &R,
    reports: Vec<BlockReport>,
    steps: &mut Steps<L>,
) -> Result<Vec<Vec<u8>>, OutOfMemory>
    requires machine { IsMachine (arc_value m.now) }
    requires canonical { AreCanonical (arc_value m.now) (R.rules rules.now) }
    requires formed { All HasFormedMisses reports.items }
    ensures texts { IfOk result (λ t. AreSorted (all_texts (arc_value m.now) reports.items) (texts_of t.items)) }
    ensures ticks { OnOk result ((n : ℕ) × IsUnruled (R.rules rules.now) (all_misses reports.items) n
        × (steps.new ≡ steps.old + n)) }
{
    let mut texts = Vec::new(alloc);
    for r in &reports {
        push_report(alloc, m, rules, r, steps, &mut texts)?;
    }
    sorted_distinct(texts)
}
