//! Holes in the place of a pair's registers, symbols, constants and label, made by the walk that meets them: what is
//! met later doesn't change the number of a hole.
//!
//! What bounds the search for a register's hole is the form of instructions: a pair has at most eight transfers of at
//! most two terms of 64 nodes each. In code that a front end makes, it has half a dozen registers at most.
ghost use Rattle.std.specs.Prelude.{◌≡◌, ◌++◌, ◌∷◌, [], length, OnOk, IfOk};
ghost use Rattle.po_term.specs.Terms.{tree_of};
ghost use Rattle.po_term.specs.Tree.{Const};
ghost use Rattle.po_term.specs.Moves.{move_of, moves_of};
ghost use Rattle.po_model.specs.Holed.{values_of, hole_tree_of, hole_move_of, hole_moves_of};
ghost use Rattle.po_model.specs.Shape.{meet_register, meet_symbol, meet_tree, meet_move, meet_moves};
ghost use Rattle.po_model.specs.Shape.{hole_register, hole_symbol};
ghost use Rattle.po_skel.specs.Few.{HasFew};
ghost use Rattle.po_skel.specs.Numbered.{numbered_tree, numbered_move, numbered_moves};

use crate::walk::{meet_label, place_register, place_symbol};
use po_model::{PCond, PReg, PTerm, PTransfer, Values};
use po_term::{Cond, Reg, Sym, Term, Transfer};
use po_word::{CExpr, OutOfMemory, push};
use std::alloc::Global;

/// The hole of a virtual register. Another register stays.
pub fn number_register(v: &mut Values, r: Reg) -> Result<PReg, OutOfMemory>
    requires { HasFew (meet_register (values_of v.old) r) }
    ensures values { OnOk result (values_of v.new ≡ meet_register (values_of v.old) r) }
    ensures hole { IfOk result (λ p. p ≡ hole_register (meet_register (values_of v.old) r) r) }
{
    if let Reg::Virt(n) = r {
        let k = place_register(v, n)?;
        Ok(PReg::Hole(k as u16))
    } else {
        Ok(PReg::Fixed(r))
    }
}

/// The hole of a symbol.
pub fn number_symbol(v: &mut Values, s: Sym) -> Result<u16, OutOfMemory>
    requires { HasFew (meet_symbol (values_of v.old) s) }
    ensures values { OnOk result (values_of v.new ≡ meet_symbol (values_of v.old) s) }
    ensures hole { IfOk result (λ k. k ≡ hole_symbol (meet_symbol (values_of v.old) s) s) }
{
    let k = place_symbol(v, s)?;
    Ok(k as u16)
}

/// The hole of a constant, which is one of its own.
pub fn number_constant(v: &mut Values, c: u32) -> Result<u16, OutOfMemory>
    requires { HasFew (meet_tree (values_of v.old) (Const c)) }
    ensures values { OnOk result (values_of v.new ≡ meet_tree (values_of v.old) (Const c)) }
    ensures hole { IfOk result (λ k. k ≡ length v.old.consts.items) }
{
    let k = v.consts.len();
    v.consts.push(c)?;
    Ok(k as u16)
}

fn boxed(alloc: Global, t: PTerm) -> Result<Box<PTerm>, OutOfMemory>
    ensures { IfOk result (λ b. b.value ≡ t) }
{
    Ok(Box::new(alloc, t)?)
}

/// A term with holes.
fn number_term(alloc: Global, v: &mut Values, t: &Term) -> Result<PTerm, OutOfMemory>
    requires { HasFew (meet_tree (values_of v.old) (tree_of t.now)) }
    ensures values { OnOk result (values_of v.new ≡ meet_tree (values_of v.old) (tree_of t.now)) }
    ensures term { IfOk result (λ p. hole_tree_of p ≡ numbered_tree (values_of v.old) (tree_of t.now)) }
{
    match t {
        Term::Num(c) => Ok(PTerm::Const(CExpr::Hole(number_constant(v, *c)?))),
        Term::Reg(r) => Ok(PTerm::Reg(number_register(v, *r)?)),
        Term::Addr(s) => Ok(PTerm::Addr(number_symbol(v, *s)?)),
        Term::Mem(x) => Ok(PTerm::Mem(boxed(alloc, number_term(alloc, v, x)?)?)),
        Term::Un(op, x) => Ok(PTerm::Un(*op, boxed(alloc, number_term(alloc, v, x)?)?)),
        Term::Bin(op, x, y) => {
            let x = boxed(alloc, number_term(alloc, v, x)?)?;
            let y = boxed(alloc, number_term(alloc, v, y)?)?;
            Ok(PTerm::Bin(*op, x, y))
        }
    }
}

fn number_transfer(alloc: Global, v: &mut Values, t: &Transfer) -> Result<PTransfer, OutOfMemory>
    requires { HasFew (meet_move (values_of v.old) (move_of t.now)) }
    ensures values { OnOk result (values_of v.new ≡ meet_move (values_of v.old) (move_of t.now)) }
    ensures transfer { IfOk result (λ p. hole_move_of p ≡ numbered_move (values_of v.old) (move_of t.now)) }
{
    match t {
        Transfer::Set(r, x) => {
            let r = number_register(v, *r)?;
            let x = number_term(alloc, v, x)?;
            Ok(PTransfer::Set(r, x))
        }
        Transfer::Cc(x, y) => {
            let x = number_term(alloc, v, x)?;
            let y = number_term(alloc, v, y)?;
            Ok(PTransfer::Cc(x, y))
        }
        Transfer::Store(x, y) => {
            let x = number_term(alloc, v, x)?;
            let y = number_term(alloc, v, y)?;
            Ok(PTransfer::Store(x, y))
        }
        Transfer::Goto(l) => {
            meet_label(v, *l);
            Ok(PTransfer::Goto)
        }
        Transfer::If(Cond::Cc, rel, l) => {
            meet_label(v, *l);
            Ok(PTransfer::If(PCond::Cc, *rel))
        }
        Transfer::If(Cond::Two(x, y), rel, l) => {
            let x = number_term(alloc, v, x)?;
            let y = number_term(alloc, v, y)?;
            meet_label(v, *l);
            Ok(PTransfer::If(PCond::Two(x, y), *rel))
        }
        Transfer::Call(s, n) => Ok(PTransfer::Call(number_symbol(v, *s)?, *n)),
        Transfer::Ret => Ok(PTransfer::Ret),
    }
}

fn add_transfer(
    alloc: Global,
    v: &mut Values,
    t: &Transfer,
    out: &mut Vec<PTransfer>,
) -> Result<(), OutOfMemory>
    requires { HasFew (meet_move (values_of v.old) (move_of t.now)) }
    ensures values { OnOk result (values_of v.new ≡ meet_move (values_of v.old) (move_of t.now)) }
    ensures transfer { OnOk result (hole_moves_of out.new.items
        ≡ hole_moves_of out.old.items ++ numbered_move (values_of v.old) (move_of t.now) ∷ []) }
{
    let hole = number_transfer(alloc, v, t)?;
    push(out, hole)
}

/// Transfers with holes.
pub fn number_transfers(
    alloc: Global,
    v: &mut Values,
    xs: &[Transfer],
) -> Result<Vec<PTransfer>, OutOfMemory>
    requires { HasFew (meet_moves (values_of v.old) (moves_of xs.now)) }
    ensures values { OnOk result (values_of v.new ≡ meet_moves (values_of v.old) (moves_of xs.now)) }
    ensures transfers { IfOk result (λ ps. hole_moves_of ps.items
        ≡ numbered_moves (values_of v.old) (moves_of xs.now)) }
{
    let mut out = Vec::new(alloc);
    for t in xs {
        add_transfer(alloc, v, t, &mut out)?;
    }
    Ok(out)
}
