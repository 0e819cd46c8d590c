//! Transfers with holes: their terms are simplified from left to right, and then a branch on two constants is
//! decided.
ghost use Rattle.std.specs.Prelude.{◌≡◌, IfOk, OnOk};
ghost use Rattle.po_word.specs.Exprs.{Related};
ghost use Rattle.po_word.specs.Views.{expr_of};
ghost use Rattle.po_term.specs.Moves.{Ends};
ghost use Rattle.po_term.specs.Kinds.{exprs};
ghost use Rattle.po_term.specs.Simplified.{decided, simple, simple_move, simple_moves};
ghost use Rattle.po_model.specs.Holed.{label_hole, hole_tree_of, hole_branch_of, hole_move_of, hole_moves_of};
ghost use Rattle.po_model.specs.Generalised.{same_hole_register};
ghost use Rattle.po_tsimp.specs.Made.{Makes, path_of, note};
ghost use Rattle.po_trec.specs.Read.{moves_made, list_of, Answers};

use crate::copies::copy_pterm;
use crate::lists::{followed, none_or_one};
use po_model::{PCond, PTerm, PTransfer};
use po_tsimp::{Path, ask, simplified};
use po_word::{CExpr, OutOfMemory, Question, Rel, copy_cexpr};
use std::alloc::Global;

/// Whether a relation holds between two expressions.
fn is_related(
    alloc: Global,
    rel: Rel,
    c: &CExpr,
    d: &CExpr,
    holes: &[u32],
    path: &mut Path,
) -> Result<bool, OutOfMemory>
    ensures said { IfOk result (λ b. b ≡ (exprs holes.now).says (Related rel (expr_of c.now) (expr_of d.now))) }
    ensures noted { OnOk result (path_of path.new ≡ note holes.now (path_of path.old)
        (Related rel (expr_of c.now) (expr_of d.now))) }
{
    let first = copy_cexpr(alloc, c)?;
    let second = copy_cexpr(alloc, d)?;
    ask(Question::Holds(rel, first, second), holes, path)
}

/// What becomes of a branch on two simplified terms.
pub fn decide(
    alloc: Global,
    a: PTerm,
    b: PTerm,
    rel: Rel,
    holes: &[u32],
    path: &mut Path,
) -> Result<Option<PTransfer>, OutOfMemory>
    ensures { Answers moves_made holes.now result path.old path.new
        (decided (exprs holes.now) same_hole_register (hole_tree_of a) (hole_tree_of b) rel label_hole) }
{
    match a {
        PTerm::Const(c) => match b {
            PTerm::Const(d) => {
                if is_related(alloc, rel, &c, &d, holes, path)? {
                    Ok(Some(PTransfer::Goto))
                } else {
                    Ok(None)
                }
            }
            b => Ok(Some(PTransfer::If(PCond::Two(PTerm::Const(c), b), rel))),
        },
        a => Ok(Some(PTransfer::If(PCond::Two(a, b), rel))),
    }
}

/// A term of a shape, simplified.
fn simple_term(
    alloc: Global,
    t: &PTerm,
    holes: &[u32],
    path: &mut Path,
) -> Result<PTerm, OutOfMemory>
    ensures { Makes holes.now result path.old path.new
        (simple (exprs holes.now) same_hole_register (hole_tree_of t.now)) }
{
    let t = copy_pterm(alloc, t)?;
    simplified(alloc, t, holes, path)
}

/// What becomes of a branch.
#[tactic(auto, using(po_tsimp::proofs::Paths::extended_append, po_tsimp::proofs::Paths::extended_nothing))]
fn simplify_branch(
    alloc: Global,
    cond: &PCond,
    rel: Rel,
    holes: &[u32],
    path: &mut Path,
) -> Result<Option<PTransfer>, OutOfMemory>
    ensures { Answers moves_made holes.now result path.old path.new
        (simple_move (exprs holes.now) same_hole_register (Ends (hole_branch_of cond.now rel))) }
{
    match cond {
        PCond::Cc => Ok(Some(PTransfer::If(PCond::Cc, rel))),
        PCond::Two(a, b) => {
            let a = simple_term(alloc, a, holes, path)?;
            let b = simple_term(alloc, b, holes, path)?;
            decide(alloc, a, b, rel, holes, path)
        }
    }
}

/// What becomes of a transfer: none is a branch that is never taken.
#[tactic(auto, using(po_tsimp::proofs::Paths::extended_append, po_tsimp::proofs::Paths::extended_nothing))]
fn simplify_transfer(
    alloc: Global,
    t: &PTransfer,
    holes: &[u32],
    path: &mut Path,
) -> Result<Option<PTransfer>, OutOfMemory>
    ensures { Answers moves_made holes.now result path.old path.new
        (simple_move (exprs holes.now) same_hole_register (hole_move_of t.now)) }
{
    match t {
        PTransfer::Set(r, a) => Ok(Some(PTransfer::Set(*r, simple_term(alloc, a, holes, path)?))),
        PTransfer::Cc(a, b) => {
            let a = simple_term(alloc, a, holes, path)?;
            let b = simple_term(alloc, b, holes, path)?;
            Ok(Some(PTransfer::Cc(a, b)))
        }
        PTransfer::Store(a, b) => {
            let a = simple_term(alloc, a, holes, path)?;
            let b = simple_term(alloc, b, holes, path)?;
            Ok(Some(PTransfer::Store(a, b)))
        }
        PTransfer::Goto => Ok(Some(PTransfer::Goto)),
        PTransfer::If(cond, rel) => simplify_branch(alloc, cond, *rel, holes, path),
        PTransfer::Call(k, n) => Ok(Some(PTransfer::Call(*k, *n))),
        PTransfer::Ret => Ok(Some(PTransfer::Ret)),
    }
}

/// What transfers become.
#[tactic(auto, using(po_tsimp::proofs::Paths::extended_append, po_tsimp::proofs::Paths::extended_nothing))]
pub fn simplify_transfers(
    alloc: Global,
    ts: &[PTransfer],
    holes: &[u32],
    path: &mut Path,
) -> Result<Vec<PTransfer>, OutOfMemory>
    ensures { Answers list_of holes.now result path.old path.new
        (simple_moves (exprs holes.now) same_hole_register (hole_moves_of ts.now)) }
{
    match ts {
        [] => Ok(Vec::new(alloc)),
        [t, rest @ ..] => {
            let first = simplify_transfer(alloc, t, holes, path)?;
            let first = none_or_one(alloc, first)?;
            let rest = simplify_transfers(alloc, rest, holes, path)?;
            followed(first, rest)
        }
    }
}
