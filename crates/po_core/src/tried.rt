//! Tries of a foreground: the pair that stands ready is looked up in the snapshot.
ghost use Rattle.std.specs.Prelude.{◌≡◌, length, map, All};
ghost use Rattle.po_model.specs.Machines.{IsMachine};
ghost use Rattle.po_model.specs.Pairs.{pair_of};
ghost use Rattle.po_model.specs.Combined.{combination};
ghost use Rattle.po_model.specs.Holed.{rule_of};
ghost use Rattle.po_model.specs.Agrees.{Instance};
ghost use Rattle.po_model.specs.Canonical.{Canonical};
ghost use Rattle.po_model.specs.Lookups.{AreCanonical, gives};
ghost use Rattle.po_model.specs.Learning.{Used, Missed};
ghost use Rattle.po_table.specs.Tables.{shared};
ghost use Rattle.po_core.specs.Went.{Went};
ghost use Rattle.po_core.specs.Fores.{HasNext, CanTry, HasTried, AtFore, SetFore};
ghost use Rattle.po_core.specs.Parts.{ShowsAtMost};
ghost use Rattle.po_core.specs.Views.{fore_of, IsFormedFore};
ghost use Rattle.po_core.specs.Scans.{IsReadyAt, GoesOn};

use crate::fore::Fore;
use crate::queue::push_room;
use crate::scans::{ready_at, step_at};
use po_model::{Machine, Pair, Rule};
use po_slow::combine;
use po_table::{fitting, outcome};
use po_word::OutOfMemory;
use std::alloc::Global;
use std::sync::Arc;

/// Tries the pair that is ready with a rule; false where the hits can't be counted.
fn try_hit(
    alloc: Global,
    m: &Machine,
    f: &mut Fore,
    p: &Pair,
    rule: &Rule,
) -> Result<bool, OutOfMemory>
    requires machine { IsMachine m.now }
    requires canonical { Canonical m.now (rule_of rule.now) }
    requires instance { Instance (rule_of rule.now) (pair_of p.now) }
    requires formed { IsFormedFore f.old }
    requires ready { IsReadyAt (fore_of f.old).scans f.old.at (pair_of p.now) }
    requires tries { HasNext f.old.tries }
    ensures went { Went result (HasNext f.old.hits)
        (GoesOn (Used (pair_of p.now) (rule_of rule.now)) (gives (rule_of rule.now) (pair_of p.now))
        (fore_of f.old) (fore_of f.new))
        (fore_of f.new ≡ fore_of f.old) }
    ensures formed { IsFormedFore f.new }
{
    if f.hits == u64::MAX {
        return Ok(false);
    }
    let o = outcome(alloc, rule, p)?;
    step_at(alloc, &mut f.scans, f.at, o)?;
    f.tries += 1;
    f.hits += 1;
    Ok(true)
}

/// Tries the pair that is ready by slow combination; false where the misses can't be counted.
fn try_miss(alloc: Global, m: &Machine, f: &mut Fore, p: Pair) -> Result<bool, OutOfMemory>
    requires machine { IsMachine m.now }
    requires formed { IsFormedFore f.old }
    requires ready { IsReadyAt (fore_of f.old).scans f.old.at (pair_of p) }
    requires tries { HasNext f.old.tries }
    ensures went { Went result (HasNext f.old.misses)
        (GoesOn (Missed (pair_of p)) (combination m.now (pair_of p)) (fore_of f.old) (fore_of f.new))
        (fore_of f.new ≡ fore_of f.old) }
    ensures formed { IsFormedFore f.new }
{
    if f.misses == u64::MAX {
        return Ok(false);
    }
    let o = combine(alloc, m, &p)?;
    f.unposted.reserve(1)?;
    step_at(alloc, &mut f.scans, f.at, o)?;
    push_room(&mut f.unposted, p);
    f.tries += 1;
    f.misses += 1;
    Ok(true)
}

/// Tries the pair that is ready with the rules that the snapshot shows; false where it may not.
fn try_fore(
    alloc: Global,
    m: &Machine,
    published: &[Arc<Rule>],
    f: &mut Fore,
) -> Result<bool, OutOfMemory>
    requires machine { IsMachine m.now }
    requires canonical { AreCanonical m.now (shared published.now) }
    requires formed { IsFormedFore f.old }
    requires shown { ShowsAtMost f.old.shown (length published.now) }
    ensures went { Went result (CanTry (shared published.now) (fore_of f.old))
        (HasTried m.now (shared published.now) (fore_of f.old) (fore_of f.new))
        (fore_of f.new ≡ fore_of f.old) }
    ensures formed { IsFormedFore f.new }
{
    let Some(shown) = f.shown else {
        return Ok(false);
    };
    let Some(p) = ready_at(alloc, &f.scans, f.at)? else {
        return Ok(false);
    };
    if f.tries == u64::MAX {
        return Ok(false);
    }
    match fitting(alloc, &published[..shown], &p)? {
        Some(rule) => try_hit(alloc, m, f, &p, rule),
        None => try_miss(alloc, m, f, p),
    }
}

/// The foreground of that number tries the pair that is ready; false where it may not.
pub fn try_at(
    alloc: Global,
    m: &Machine,
    published: &[Arc<Rule>],
    fores: &mut [Fore],
    fore: usize,
) -> Result<bool, OutOfMemory>
    requires machine { IsMachine m.now }
    requires canonical { AreCanonical m.now (shared published.now) }
    requires formed { All IsFormedFore fores.old }
    requires shown { All (λ f. ShowsAtMost f.shown (length published.now)) (map fore_of fores.old) }
    ensures went { Went result (AtFore (map fore_of fores.old) fore (CanTry (shared published.now)))
        (SetFore (map fore_of fores.old) fore (HasTried m.now (shared published.now)) (map fore_of fores.new))
        (map fore_of fores.new ≡ map fore_of fores.old) }
    ensures formed { All IsFormedFore fores.new }
{
    if fore >= fores.len() {
        return Ok(false);
    }
    try_fore(alloc, m, published, &mut fores[fore])
}
