//! The questions of what stands at the places of a pattern, from left to right, up to the first no.
ghost use Rattle.std.specs.Prelude.{◌∷◌, []};
ghost use Rattle.po_word.specs.Exprs.{Within, Same};
ghost use Rattle.po_word.specs.Views.{expr_of};
ghost use Rattle.po_term.specs.Kinds.{exprs};
ghost use Rattle.po_model.specs.Fit.{range_question, constant_question, question, all_yes};
ghost use Rattle.po_model.specs.Generalised.{hole_leaves};
ghost use Rattle.po_trec.specs.Read.{Answers};
ghost use Rattle.po_trec.specs.Spots.{found_of, founds_of, thing_found, answers_from};

use crate::addresses::is_equal;
use crate::agreement::operand;
use crate::found::{Spot, Stands};
use po_model::Bounds;
use po_tsimp::{Path, ask};
use po_word::{CExpr, OutOfMemory, Question, copy_cexpr};
use std::alloc::Global;

/// Whether a constant lies from lo to hi.
#[tactic(auto, using(crate::proofs::Answered::answered_one))]
fn ask_within(
    alloc: Global,
    c: &CExpr,
    lo: i32,
    hi: i32,
    holes: &[u32],
    path: &mut Path,
) -> Result<bool, OutOfMemory>
    ensures { Answers (λ b. b) holes.now result path.old path.new
        (all_yes (exprs holes.now) (Within (expr_of c.now) lo hi ∷ [])) }
{
    let c = copy_cexpr(alloc, c)?;
    ask(Question::InRange(c, lo, hi), holes, path)
}

/// Whether two constants are the same.
#[tactic(auto, using(crate::proofs::Answered::answered_one))]
fn ask_same(
    alloc: Global,
    c: &CExpr,
    d: &CExpr,
    holes: &[u32],
    path: &mut Path,
) -> Result<bool, OutOfMemory>
    ensures { Answers (λ b. b) holes.now result path.old path.new
        (all_yes (exprs holes.now) (Same (expr_of c.now) (expr_of d.now) ∷ [])) }
{
    is_equal(alloc, c, d, holes, path)
}

fn ask_range(
    alloc: Global,
    range: Option<Bounds>,
    c: &CExpr,
    holes: &[u32],
    path: &mut Path,
) -> Result<bool, OutOfMemory>
    ensures { Answers (λ b. b) holes.now result path.old path.new
        (all_yes (exprs holes.now) (range_question range (expr_of c.now))) }
{
    match range {
        Some(b) => ask_within(alloc, c, b.lo, b.hi, holes, path),
        None => Ok(true),
    }
}

/// What is asked of a constant, where this stands at the first place of its operand.
fn ask_constant(
    alloc: Global,
    first: Option<&Stands>,
    range: Option<Bounds>,
    c: &CExpr,
    holes: &[u32],
    path: &mut Path,
) -> Result<bool, OutOfMemory>
    ensures { Answers (λ b. b) holes.now result path.old path.new
        (all_yes (exprs holes.now) (constant_question (thing_found first.entry) range (expr_of c.now))) }
{
    match first {
        Some(Stands::Constant(d)) => ask_same(alloc, d, c, holes, path),
        _ => ask_range(alloc, range, c, holes, path),
    }
}

/// What is asked at a place, behind what was found before.
fn ask_at(
    alloc: Global,
    before: &[Spot],
    f: &Spot,
    holes: &[u32],
    path: &mut Path,
) -> Result<bool, OutOfMemory>
    ensures { Answers (λ b. b) holes.now result path.old path.new
        (all_yes (exprs holes.now) (question (founds_of before.now) (found_of f.now))) }
{
    match f {
        Spot::Number(n, c) => {
            ask_within(alloc, c, n.cast_signed(), n.cast_signed(), holes, path)
        }
        Spot::Operand(k, range, Stands::Constant(c)) => {
            ask_constant(alloc, operand(*k, before), *range, c, holes, path)
        }
        Spot::Operand(_, _, _) => Ok(true),
    }
}

/// What is asked from the place i on, up to the first no.
pub fn ask_from(
    alloc: Global,
    found: &[Spot],
    i: usize,
    holes: &[u32],
    path: &mut Path,
) -> Result<bool, OutOfMemory>
    ensures { Answers (λ b. b) holes.now result path.old path.new (answers_from holes.now found.now i) }
{
    if i < found.len() {
        if ask_at(alloc, &found[..i], &found[i], holes, path)? {
            ask_from(alloc, found, i + 1, holes, path)
        } else {
            Ok(false)
        }
    } else {
        Ok(true)
    }
}
