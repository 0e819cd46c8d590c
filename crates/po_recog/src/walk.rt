//! The way through a pattern and an instruction together: where they have one structure, each operand and number of
//! the pattern is taken as it comes.
ghost use Rattle.std.specs.Prelude.{◌≡◌, Some};
ghost use Rattle.po_term.specs.Terms.{tree_of};
ghost use Rattle.po_term.specs.Moves.{Ends, branch_of, move_of, moves_of};
ghost use Rattle.po_model.specs.Patterns as pat;
ghost use Rattle.po_model.specs.Patterns.{pattern_of, pat_move_of, pat_moves_of};
ghost use Rattle.po_model.specs.Operators.{un_eq, bin_eq, rel_eq};
ghost use Rattle.po_model.specs.Fit.{both, register_found, tree_found, move_found, moves_found};
ghost use Rattle.po_recog.specs.Taken.{taken_if, outcome};
ghost use Rattle.po_model.specs.Parts.{code_leaves};

use crate::Operand;
use crate::slots::{is_within, takes};
use po_model::{PatCond, PatReg, PatTerm, PatTransfer};
use po_term::{Cond, Label, Reg, Term, Transfer};
use po_word::{Bin, Rel, Un};

pub(crate) fn same_un(a: Un, b: Un) -> bool
    ensures { result ≡ un_eq a b }
{
    a as u8 == b as u8
}

pub(crate) fn same_bin(a: Bin, b: Bin) -> bool
    ensures { result ≡ bin_eq a b }
{
    a as u8 == b as u8
}

fn same_rel(a: Rel, b: Rel) -> bool
    ensures { result ≡ rel_eq a b }
{
    a as u8 == b as u8
}

fn takes_register(p: PatReg, r: Reg, slots: &mut [Option<Operand>]) -> bool
    ensures { outcome result slots.new ≡ taken_if (register_found code_leaves p (Some r)) slots.old }
{
    match p {
        PatReg::Any(k) => takes(slots, k, None, Operand::Reg(r)),
        PatReg::Fixed(q) => q == r,
    }
}

#[tactic(auto, using(crate::proofs::Walks::walked, crate::proofs::Walks::stopped))]
fn takes_term(p: &PatTerm, t: &Term, slots: &mut [Option<Operand>]) -> bool
    ensures { outcome result slots.new
        ≡ taken_if (tree_found code_leaves (pattern_of p.now) (tree_of t.now)) slots.old }
{
    match (p, t) {
        (PatTerm::Reg(p), Term::Reg(r)) => takes_register(*p, *r, slots),
        (PatTerm::Num(n), Term::Num(c)) => is_within(*c, n.cast_signed(), n.cast_signed()),
        (PatTerm::Const(k, range), Term::Num(c)) => takes(slots, *k, *range, Operand::Num(*c)),
        (PatTerm::Addr(k), Term::Addr(s)) => takes(slots, *k, None, Operand::Sym(*s)),
        (PatTerm::Mem(p), Term::Mem(t)) => takes_term(p.get(), t, slots),
        (PatTerm::Un(o, p), Term::Un(q, t)) => same_un(*o, *q) && takes_term(p.get(), t, slots),
        (PatTerm::Bin(o, p, q), Term::Bin(r, t, u)) => {
            if !same_bin(*o, *r) {
                return false;
            }
            takes_term(p.get(), t, slots) && takes_term(q.get(), u, slots)
        }
        _ => false,
    }
}

#[tactic(auto, using(crate::proofs::Walks::walked, crate::proofs::Walks::stopped))]
fn takes_two(p: &PatTerm, q: &PatTerm, t: &Term, u: &Term, slots: &mut [Option<Operand>]) -> bool
    ensures { outcome result slots.new
        ≡ taken_if
        (both (tree_found code_leaves (pattern_of p.now) (tree_of t.now))
        (tree_found code_leaves (pattern_of q.now) (tree_of u.now))) slots.old }
{
    takes_term(p, t, slots) && takes_term(q, u, slots)
}

#[tactic(auto, using(crate::proofs::Walks::walked, crate::proofs::Walks::stopped))]
fn takes_branch(
    p: &PatCond,
    r: Rel,
    k: u8,
    c: &Cond,
    s: Rel,
    l: Label,
    slots: &mut [Option<Operand>],
) -> bool
    ensures { outcome result slots.new
        ≡ taken_if (move_found code_leaves (pat.branch_of p.now r k) (Ends (branch_of c.now s l))) slots.old }
{
    if !same_rel(r, s) {
        return false;
    }
    match (p, c) {
        (PatCond::Cc, Cond::Cc) => takes(slots, k, None, Operand::Label(l)),
        (PatCond::Two(p, q), Cond::Two(t, u)) => {
            takes_two(p, q, t, u, slots) && takes(slots, k, None, Operand::Label(l))
        }
        _ => false,
    }
}

#[tactic(auto, using(crate::proofs::Walks::walked, crate::proofs::Walks::stopped))]
fn takes_move(p: &PatTransfer, x: &Transfer, slots: &mut [Option<Operand>]) -> bool
    ensures { outcome result slots.new
        ≡ taken_if (move_found code_leaves (pat_move_of p.now) (move_of x.now)) slots.old }
{
    match (p, x) {
        (PatTransfer::Set(p, q), Transfer::Set(r, t)) => {
            takes_register(*p, *r, slots) && takes_term(q, t, slots)
        }
        (PatTransfer::Cc(p, q), Transfer::Cc(t, u)) => takes_two(p, q, t, u, slots),
        (PatTransfer::Store(p, q), Transfer::Store(t, u)) => takes_two(p, q, t, u, slots),
        (PatTransfer::Goto(k), Transfer::Goto(l)) => takes(slots, *k, None, Operand::Label(*l)),
        (PatTransfer::If(p, r, k), Transfer::If(c, s, l)) => {
            takes_branch(p, *r, *k, c, *s, *l, slots)
        }
        (PatTransfer::Call(k), Transfer::Call(s, _)) => takes(slots, *k, None, Operand::Sym(*s)),
        (PatTransfer::Ret, Transfer::Ret) => true,
        _ => false,
    }
}

/// Whether a list of transfers has a pattern, from the operands that were taken so far.
#[tactic(auto, using(crate::proofs::Walks::walked, crate::proofs::Walks::stopped))]
pub(crate) fn takes_moves(
    ps: &[PatTransfer],
    xs: &[Transfer],
    slots: &mut [Option<Operand>],
) -> bool
    ensures { outcome result slots.new
        ≡ taken_if (moves_found code_leaves (pat_moves_of ps.now) (moves_of xs.now)) slots.old }
{
    match ps {
        [] => xs.is_empty(),
        [p, ps @ ..] => match xs {
            [] => false,
            [x, xs @ ..] => takes_move(p, x, slots) && takes_moves(ps, xs, slots),
        },
    }
}
