//! Whether a pair has a shape, and what stands at its holes then, in one walk through both. Each register, symbol and
//! constant of the pair is compared by its hole, which it gets as it is met. The walk ends at the first difference.
ghost use Rattle.std.specs.Prelude.{◌≡◌, ◌↔◌, IsTrue, IfOk};
ghost use Rattle.po_word.specs.Exprs.{AtHole};
ghost use Rattle.po_word.specs.Views.{expr_of};
ghost use Rattle.po_term.specs.Terms.{tree_of};
ghost use Rattle.po_term.specs.Moves.{move_of, moves_of};
ghost use Rattle.po_model.specs.Holed.{values_of, hole_tree_of, hole_move_of, hole_moves_of};
ghost use Rattle.po_model.specs.Shape.{meet_tree, meet_move, meet_moves};
ghost use Rattle.po_skel.specs.Few.{HasFew};
ghost use Rattle.po_skel.specs.Numbered.{numbered_tree, numbered_move, numbered_moves};

use crate::numbering::{number_constant, number_register, number_symbol};
use crate::walk::meet_label;
use po_model::{PCond, PTerm, PTransfer, Values};
use po_term::{Cond, Term, Transfer};
use po_word::{CExpr, OutOfMemory};

/// Whether the expression is the hole k.
fn is_hole(e: &CExpr, k: u16) -> bool
    ensures { IsTrue result ↔ (expr_of e.now ≡ AtHole k) }
{
    match e {
        CExpr::Hole(j) => *j == k,
        _ => false,
    }
}

fn bind_term(v: &mut Values, s: &PTerm, t: &Term) -> Result<bool, OutOfMemory>
    requires { HasFew (meet_tree (values_of v.old) (tree_of t.now)) }
    ensures same { IfOk result
        (λ b. IsTrue b ↔ (hole_tree_of s.now ≡ numbered_tree (values_of v.old) (tree_of t.now))) }
    ensures values { IfOk result
        (λ b. IsTrue b → values_of v.new ≡ meet_tree (values_of v.old) (tree_of t.now)) }
{
    match (s, t) {
        (PTerm::Const(e), Term::Num(c)) => {
            let k = number_constant(v, *c)?;
            Ok(is_hole(e, k))
        }
        (PTerm::Reg(p), Term::Reg(r)) => {
            let q = number_register(v, *r)?;
            Ok(*p == q)
        }
        (PTerm::Addr(j), Term::Addr(s)) => {
            let k = number_symbol(v, *s)?;
            Ok(*j == k)
        }
        (PTerm::Mem(x), Term::Mem(y)) => bind_term(v, x, y),
        (PTerm::Un(o, x), Term::Un(p, y)) => if *o == *p {
            bind_term(v, x, y)
        } else {
            Ok(false)
        },
        (PTerm::Bin(o, x, u), Term::Bin(p, y, w)) => {
            if *o == *p {
                if bind_term(v, x, y)? {
                    bind_term(v, u, w)
                } else {
                    Ok(false)
                }
            } else {
                Ok(false)
            }
        }
        _ => Ok(false),
    }
}

/// Two terms, one after the other.
fn bind_both(v: &mut Values, x: &PTerm, u: &PTerm, y: &Term, w: &Term) -> Result<bool, OutOfMemory>
    requires { HasFew (meet_tree (meet_tree (values_of v.old) (tree_of y.now)) (tree_of w.now)) }
    ensures same { IfOk result
        (λ b. IsTrue b ↔ ((hole_tree_of x.now ≡ numbered_tree (values_of v.old) (tree_of y.now))
        × (hole_tree_of u.now ≡ numbered_tree (meet_tree (values_of v.old) (tree_of y.now)) (tree_of w.now)))) }
    ensures values { IfOk result (λ b. IsTrue b
        → values_of v.new ≡ meet_tree (meet_tree (values_of v.old) (tree_of y.now)) (tree_of w.now)) }
{
    if bind_term(v, x, y)? {
        bind_term(v, u, w)
    } else {
        Ok(false)
    }
}

fn bind_transfer(v: &mut Values, s: &PTransfer, t: &Transfer) -> Result<bool, OutOfMemory>
    requires { HasFew (meet_move (values_of v.old) (move_of t.now)) }
    ensures same { IfOk result
        (λ b. IsTrue b ↔ (hole_move_of s.now ≡ numbered_move (values_of v.old) (move_of t.now))) }
    ensures values { IfOk result
        (λ b. IsTrue b → values_of v.new ≡ meet_move (values_of v.old) (move_of t.now)) }
{
    match (s, t) {
        (PTransfer::Set(p, x), Transfer::Set(r, y)) => {
            let q = number_register(v, *r)?;
            if *p == q {
                bind_term(v, x, y)
            } else {
                Ok(false)
            }
        }
        (PTransfer::Cc(x, u), Transfer::Cc(y, w)) => bind_both(v, x, u, y, w),
        (PTransfer::Store(x, u), Transfer::Store(y, w)) => bind_both(v, x, u, y, w),
        (PTransfer::Goto, Transfer::Goto(l)) => {
            meet_label(v, *l);
            Ok(true)
        }
        (PTransfer::If(PCond::Cc, r), Transfer::If(Cond::Cc, q, l)) => {
            meet_label(v, *l);
            Ok(*r == *q)
        }
        (PTransfer::If(PCond::Two(x, u), r), Transfer::If(Cond::Two(y, w), q, l)) => {
            if *r == *q {
                let same = bind_both(v, x, u, y, w)?;
                meet_label(v, *l);
                Ok(same)
            } else {
                Ok(false)
            }
        }
        (PTransfer::Call(j, m), Transfer::Call(s, n)) => {
            let k = number_symbol(v, *s)?;
            Ok(*j == k && *m == *n)
        }
        (PTransfer::Ret, Transfer::Ret) => Ok(true),
        _ => Ok(false),
    }
}

/// Transfers of one instruction. What the answer says of `v` is said where they are those of the shape.
pub fn bind_transfers(
    v: &mut Values,
    ss: &[PTransfer],
    ts: &[Transfer],
) -> Result<bool, OutOfMemory>
    requires { HasFew (meet_moves (values_of v.old) (moves_of ts.now)) }
    ensures same { IfOk result
        (λ b. IsTrue b ↔ (hole_moves_of ss.now ≡ numbered_moves (values_of v.old) (moves_of ts.now))) }
    ensures values { IfOk result
        (λ b. IsTrue b → values_of v.new ≡ meet_moves (values_of v.old) (moves_of ts.now)) }
{
    match ss {
        [] => Ok(ts.is_empty()),
        [s, ss @ ..] => match ts {
            [] => Ok(false),
            [t, ts @ ..] => {
                if bind_transfer(v, s, t)? {
                    bind_transfers(v, ss, ts)
                } else {
                    Ok(false)
                }
            }
        },
    }
}
