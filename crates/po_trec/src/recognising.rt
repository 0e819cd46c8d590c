//! The first entry that fits transfers with holes: entries are tried in order. Where an entry's structure agrees, its
//! questions are asked, up to the first no; elsewhere none is.
ghost use Rattle.std.specs.Prelude.{◌≡◌, ◌<◌, ◌+◌, ◌^◌, ℕ, length, Some};
ghost use Rattle.po_term.specs.Kinds.{exprs};
ghost use Rattle.po_model.specs.Patterns.{pat_moves_of};
ghost use Rattle.po_model.specs.Fit.{moves_found, answered, entry_fit, first_fit};
ghost use Rattle.po_model.specs.Joined as joint;
ghost use Rattle.po_model.specs.Combined.{recognised};
ghost use Rattle.po_model.specs.Holed.{hole_moves_of, result_of};
ghost use Rattle.po_model.specs.Generalised.{hole_leaves};
ghost use Rattle.po_trec.specs.Read.{Answers};
ghost use Rattle.po_trec.specs.Spots.{founds_of, whether, numbered};

use crate::agreement::is_all_agreed;
use crate::found::Spot;
use crate::heads::same_heads;
use crate::questions::ask_from;
use crate::structure::find_moves;
use po_model::{Entry, Machine, PTransfer, Pattern, Values};
use po_tsimp::Path;
use po_word::OutOfMemory;
use std::alloc::Global;

/// Whether what is found agrees, and each question has the answer yes.
#[tactic(auto, using(crate::proofs::Fitting::agreed_answers))]
fn is_answered(
    alloc: Global,
    found: &[Spot],
    holes: &[u32],
    path: &mut Path,
) -> Result<bool, OutOfMemory>
    ensures { Answers (λ b. b) holes.now result path.old path.new
        (whether (answered hole_leaves (exprs holes.now) (Some (founds_of found.now)))) }
{
    if is_all_agreed(found) {
        ask_from(alloc, found, 0, holes, path)
    } else {
        Ok(false)
    }
}

/// Whether transfers have an entry's pattern, and each question has the answer yes.
fn has_pattern(
    alloc: Global,
    e: &Entry,
    xs: &[PTransfer],
    holes: &[u32],
    path: &mut Path,
) -> Result<bool, OutOfMemory>
    ensures { Answers (λ b. b) holes.now result path.old path.new
        (whether (answered hole_leaves (exprs holes.now)
        (moves_found hole_leaves (pat_moves_of e.now.pattern) (hole_moves_of xs.now)))) }
{
    if !same_heads(e.pattern.as_slice(), xs) {
        return Ok(false);
    }
    let mut found = Vec::new(alloc);
    if find_moves(alloc, e.pattern.as_slice(), xs, &mut found)? {
        is_answered(alloc, &found, holes, path)
    } else {
        Ok(false)
    }
}

/// Whether an entry fits. One that clobbers `cc` fits only where `cc` is dead.
fn is_fit(
    alloc: Global,
    e: &Entry,
    xs: &[PTransfer],
    cc_live: bool,
    holes: &[u32],
    path: &mut Path,
) -> Result<bool, OutOfMemory>
    ensures { Answers (λ b. b) holes.now result path.old path.new
        (whether (entry_fit hole_leaves (exprs holes.now) cc_live e.now (hole_moves_of xs.now))) }
{
    if e.clobbers && cc_live {
        Ok(false)
    } else {
        has_pattern(alloc, e, xs, holes, path)
    }
}

/// The first of these entries, numbered from `number` on, that fits.
pub(crate) fn first(
    alloc: Global,
    entries: &[Entry],
    number: u32,
    xs: &[PTransfer],
    cc_live: bool,
    holes: &[u32],
    path: &mut Path,
) -> Result<Option<u32>, OutOfMemory>
    requires counted { number + length entries.now < 2 ^ 32 }
    ensures { Answers (λ n. n) holes.now result path.old path.new
        (numbered (first_fit hole_leaves (exprs holes.now) cc_live entries.now number (hole_moves_of xs.now))) }
{
    match entries {
        [] => Ok(None),
        [e, rest @ ..] => {
            if is_fit(alloc, e, xs, cc_live, holes, path)? {
                Ok(Some(number))
            } else {
                first(alloc, rest, number + 1, xs, cc_live, holes, path)
            }
        }
    }
}

/// The number of the first entry of a machine that fits transfers with holes, where `cc_live` says whether `cc` is
/// live behind them (docs/DESCRIPTION.md, "What fits"). The questions of its constants are answered by the words of
/// the holes, and go onto the path.
pub fn recognise_p(
    alloc: Global,
    m: &Machine,
    xs: &[PTransfer],
    cc_live: bool,
    v: &Values,
    path: &mut Path,
) -> Result<Option<u32>, OutOfMemory>
    requires few { length m.now.entries < 2 ^ 32 }
    ensures { Answers (λ n. n) v.now.consts.items result path.old path.new
        (numbered (first_fit hole_leaves (exprs v.now.consts.items) cc_live m.now.entries 0
        (hole_moves_of xs.now))) }
{
    first(alloc, m.entries.as_slice(), 0, xs, cc_live, &v.consts, path)
}

/// What becomes of a pair that was joined as these transfers: they stand in its place where an entry fits them, and
/// it stays where none does.
#[tactic(auto, using(crate::proofs::Fitting::one_or_kept))]
pub fn as_one(
    alloc: Global,
    m: &Machine,
    xs: Vec<PTransfer>,
    cc_live: bool,
    holes: &[u32],
    path: &mut Path,
) -> Result<Pattern, OutOfMemory>
    requires few { length m.now.entries < 2 ^ 32 }
    ensures { Answers result_of holes.now result path.old path.new
        (recognised (exprs holes.now) hole_leaves m.now cc_live (joint.AsOne (hole_moves_of xs.items))) }
{
    match first(alloc, m.entries.as_slice(), 0, &xs, cc_live, holes, path)? {
        Some(_) => Ok(Pattern::One(xs)),
        None => Ok(Pattern::Keep),
    }
}
