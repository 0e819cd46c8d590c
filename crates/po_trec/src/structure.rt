//! The way through a pattern and transfers with holes together: where they have one structure, what stands at the
//! pattern's places, from left to right. No question is asked.
ghost use Rattle.std.specs.Prelude.{◌≡◌, ◌∷◌, [], Some};
ghost use Rattle.po_term.specs.Moves.{Ends};
ghost use Rattle.po_model.specs.Patterns as pat;
ghost use Rattle.po_model.specs.Patterns.{pattern_of, pat_move_of, pat_moves_of};
ghost use Rattle.po_model.specs.Operators.{rel_eq};
ghost use Rattle.po_model.specs.Fit.{both, register_found, tree_found, move_found, moves_found};
ghost use Rattle.po_model.specs.Holed.{hole_tree_of, hole_branch_of, hole_move_of, hole_moves_of};
ghost use Rattle.po_model.specs.Generalised.{hole_leaves};
ghost use Rattle.po_trec.specs.Spots.{found_of, Finds};

use crate::addresses::{is_one, same_bin, same_un};
use crate::found::{Spot, Stands};
use po_model::{PCond, PReg, PTerm, PTransfer, PatCond, PatReg, PatTerm, PatTransfer};
use po_word::{CExpr, OutOfMemory, Rel, copy_cexpr};
use std::alloc::Global;

fn same_rel(a: Rel, b: Rel) -> bool
    ensures { result ≡ rel_eq a b }
{
    a as u8 == b as u8
}

/// One spot more.
#[tactic(auto, using(crate::proofs::Behind::founds_more))]
fn spotted(found: &mut Vec<Spot>, f: Spot) -> Result<bool, OutOfMemory>
    ensures { Finds result found.old.items found.new.items (Some (found_of f ∷ [])) }
{
    match found.push(f) {
        Ok(()) => Ok(true),
        Err(_) => Err(OutOfMemory),
    }
}

#[tactic(auto, using(crate::proofs::Behind::nothing_found))]
fn find_register(p: PatReg, r: PReg, found: &mut Vec<Spot>) -> Result<bool, OutOfMemory>
    ensures { Finds result found.old.items found.new.items (register_found hole_leaves p (Some r)) }
{
    match p {
        PatReg::Any(k) => spotted(found, Spot::Operand(k, None, Stands::Register(r))),
        PatReg::Fixed(q) => Ok(is_one(PReg::Fixed(q), r)),
    }
}

#[tactic(auto, using(crate::proofs::Behind::stopped))]
fn find_term(
    alloc: Global,
    p: &PatTerm,
    t: &PTerm,
    found: &mut Vec<Spot>,
) -> Result<bool, OutOfMemory>
    ensures { Finds result found.old.items found.new.items
        (tree_found hole_leaves (pattern_of p.now) (hole_tree_of t.now)) }
{
    match (p, t) {
        (PatTerm::Reg(p), PTerm::Reg(r)) => find_register(*p, *r, found),
        (PatTerm::Num(n), PTerm::Const(c)) => {
            spotted(found, Spot::Number(*n, copy_cexpr(alloc, c)?))
        }
        (PatTerm::Const(k, range), PTerm::Const(c)) => {
            let c = copy_cexpr(alloc, c)?;
            spotted(found, Spot::Operand(*k, *range, Stands::Constant(c)))
        }
        (PatTerm::Addr(k), PTerm::Addr(s)) => {
            spotted(found, Spot::Operand(*k, None, Stands::Symbol(*s)))
        }
        (PatTerm::Mem(p), PTerm::Mem(t)) => find_term(alloc, p.get(), t, found),
        (PatTerm::Un(o, p), PTerm::Un(q, t)) => {
            if same_un(*o, *q) {
                find_term(alloc, p.get(), t, found)
            } else {
                Ok(false)
            }
        }
        (PatTerm::Bin(o, p, q), PTerm::Bin(r, t, u)) => {
            if same_bin(*o, *r) {
                if find_term(alloc, p.get(), t, found)? {
                    find_term(alloc, q.get(), u, found)
                } else {
                    Ok(false)
                }
            } else {
                Ok(false)
            }
        }
        _ => Ok(false),
    }
}

#[tactic(auto, using(crate::proofs::Behind::then_finds, crate::proofs::Behind::stopped))]
fn find_two(
    alloc: Global,
    p: &PatTerm,
    q: &PatTerm,
    t: &PTerm,
    u: &PTerm,
    found: &mut Vec<Spot>,
) -> Result<bool, OutOfMemory>
    ensures { Finds result found.old.items found.new.items
        (both (tree_found hole_leaves (pattern_of p.now) (hole_tree_of t.now))
        (tree_found hole_leaves (pattern_of q.now) (hole_tree_of u.now))) }
{
    if find_term(alloc, p, t, found)? {
        find_term(alloc, q, u, found)
    } else {
        Ok(false)
    }
}

#[tactic(auto, using(crate::proofs::Behind::then_finds, crate::proofs::Behind::stopped))]
fn find_branch(
    alloc: Global,
    p: &PatCond,
    r: Rel,
    k: u8,
    c: &PCond,
    s: Rel,
    found: &mut Vec<Spot>,
) -> Result<bool, OutOfMemory>
    ensures { Finds result found.old.items found.new.items
        (move_found hole_leaves (pat.branch_of p.now r k) (Ends (hole_branch_of c.now s))) }
{
    if !same_rel(r, s) {
        return Ok(false);
    }
    match (p, c) {
        (PatCond::Cc, PCond::Cc) => spotted(found, Spot::Operand(k, None, Stands::Label)),
        (PatCond::Two(p, q), PCond::Two(t, u)) => {
            if find_two(alloc, p, q, t, u, found)? {
                spotted(found, Spot::Operand(k, None, Stands::Label))
            } else {
                Ok(false)
            }
        }
        _ => Ok(false),
    }
}

#[tactic(auto, using(crate::proofs::Behind::walked_on))]
fn find_move(
    alloc: Global,
    p: &PatTransfer,
    x: &PTransfer,
    found: &mut Vec<Spot>,
) -> Result<bool, OutOfMemory>
    ensures { Finds result found.old.items found.new.items
        (move_found hole_leaves (pat_move_of p.now) (hole_move_of x.now)) }
{
    match (p, x) {
        (PatTransfer::Set(p, q), PTransfer::Set(r, t)) => {
            if find_register(*p, *r, found)? {
                find_term(alloc, q, t, found)
            } else {
                Ok(false)
            }
        }
        (PatTransfer::Cc(p, q), PTransfer::Cc(t, u)) => find_two(alloc, p, q, t, u, found),
        (PatTransfer::Store(p, q), PTransfer::Store(t, u)) => find_two(alloc, p, q, t, u, found),
        (PatTransfer::Goto(k), PTransfer::Goto) => {
            spotted(found, Spot::Operand(*k, None, Stands::Label))
        }
        (PatTransfer::If(p, r, k), PTransfer::If(c, s)) => {
            find_branch(alloc, p, *r, *k, c, *s, found)
        }
        (PatTransfer::Call(k), PTransfer::Call(s, _)) => {
            spotted(found, Spot::Operand(*k, None, Stands::Symbol(*s)))
        }
        (PatTransfer::Ret, PTransfer::Ret) => Ok(true),
        _ => Ok(false),
    }
}

/// Whether a list of transfers has the structure of a pattern, and what stands at the pattern's places, behind what
/// was found before.
#[tactic(auto, using(crate::proofs::Behind::walked_on))]
pub fn find_moves(
    alloc: Global,
    ps: &[PatTransfer],
    xs: &[PTransfer],
    found: &mut Vec<Spot>,
) -> Result<bool, OutOfMemory>
    ensures { Finds result found.old.items found.new.items
        (moves_found hole_leaves (pat_moves_of ps.now) (hole_moves_of xs.now)) }
{
    match ps {
        [] => Ok(xs.is_empty()),
        [p, ps @ ..] => match xs {
            [] => Ok(false),
            [x, xs @ ..] => {
                if find_move(alloc, p, x, found)? {
                    find_moves(alloc, ps, xs, found)
                } else {
                    Ok(false)
                }
            }
        },
    }
}
