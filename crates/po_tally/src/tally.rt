//! Hits by one rule, counted.
ghost use Rattle.std.specs.Prelude.{◌≡◌, ◌+◌, ◌++◌, ◌∷◌, [], ⊤, map, Some, IfOk, OnOk, MatchOption, slice_get};
ghost use Rattle.po_model.specs.Holed.{rule_of};
ghost use Rattle.po_tally.specs.Tallies.{rule_in, IsPut, AreJoined};

use po_fore::Hit;
use po_model::Rule;
use po_rule::same_rule;
use po_word::{OutOfMemory, push};

/// A hit, and how many others there were by the same rule (docs/LEARNING.md, "A worker's brief").
#[derive(Drop)]
pub struct Tally {
    pub hit: Hit,
    /// How many others.
    pub more: u64,
}

/// The sum. No run comes to a sum that is too large: the reports of so many pairs have no memory.
fn added(count: u64, more: u64) -> Result<u64, OutOfMemory>
    ensures { IfOk result (λ sum. sum ≡ count + more) }
{
    match count.checked_add(more) {
        Some(sum) => Ok(sum),
        None => Err(OutOfMemory),
    }
}

/// The place of the tally that has this rule.
fn place_of(tallies: &[Tally], rule: &Rule) -> Option<usize>
    ensures { MatchOption result ⊤ (λ i. slice_get (map rule_in tallies.now) i ≡ Some (rule_of rule.now)) }
{
    for (i, t) in tallies.iter().enumerate() {
        if same_rule(&t.hit.rule, rule) {
            return Some(i);
        }
    }
    None
}

/// Counts the hits of a tally where the same rule stands.
fn count_at(tallies: &mut Vec<Tally>, place: usize, tally: Tally) -> Result<(), OutOfMemory>
    requires { slice_get (map rule_in tallies.old.items) place ≡ Some (rule_in tally) }
    ensures { OnOk result (IsPut tallies.old.items tally tallies.new.items) }
{
    let others = added(tallies[place].more, tally.more)?;
    tallies[place].more = added(others, 1)?;
    Ok(())
}

/// A tally behind these.
fn push_tally(tallies: &mut Vec<Tally>, tally: Tally) -> Result<(), OutOfMemory>
    ensures { OnOk result (tallies.new.items ≡ tallies.old.items ++ tally ∷ []) }
{
    push(tallies, tally)
}

/// Puts a tally to these: it is counted where its rule has a tally, and else stands behind the others.
pub fn put(tallies: &mut Vec<Tally>, tally: Tally) -> Result<(), OutOfMemory>
    ensures { OnOk result (IsPut tallies.old.items tally tallies.new.items) }
{
    match place_of(tallies, &tally.hit.rule) {
        Some(place) => count_at(tallies, place, tally),
        None => push_tally(tallies, tally),
    }
}

/// Puts each of these tallies to the others (docs/LEARNING.md, "A worker's brief"). It fails only where memory is
/// refused.
pub fn join(tallies: &mut Vec<Tally>, others: Vec<Tally>) -> Result<(), OutOfMemory>
    ensures { OnOk result (AreJoined (tallies.old.items ++ others.items) tallies.new.items) }
{
    for tally in others {
        put(tallies, tally)?;
    }
    Ok(())
}
