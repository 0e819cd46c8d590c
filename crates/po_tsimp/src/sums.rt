//! The constructors of `neg`, `not`, `+` and `-`: what each makes of operands that are simplified.
ghost use Rattle.std.specs.Prelude.{◌≡◌, IfOk};
ghost use Rattle.po_word.specs.Views.{expr_of};
ghost use Rattle.po_term.specs.Kinds.{exprs};
ghost use Rattle.po_term.specs.Simplified.{make_neg, make_not, plain, plus_const, minus_from, make_minus, make_plus};
ghost use Rattle.po_simplify.specs.Staged.{plus_right, plus_from, plus_staged};
ghost use Rattle.po_model.specs.Holed.{hole_tree_of};
ghost use Rattle.po_model.specs.Generalised.{hole_register_eq, same_hole_register};
ghost use Rattle.po_tsimp.specs.Made.{Makes};

use crate::Path;
use crate::parts::{binary, folded, folded_un, unary};
use crate::path::is_zero;
use po_model::{PReg, PTerm};
use po_word::{Bin, CExpr, OutOfMemory, Un};
use std::alloc::Global;

/// The constructor of `neg(a)`.
pub fn negate(alloc: Global, a: PTerm, holes: &[u32], path: &mut Path) -> Result<PTerm, OutOfMemory>
    ensures { Makes holes.now result path.old path.new
        (make_neg (exprs holes.now) same_hole_register (hole_tree_of a)) }
{
    match a {
        PTerm::Const(c) => Ok(PTerm::Const(folded_un(alloc, Un::Neg, c)?)),
        PTerm::Un(Un::Neg, t) => Ok(Box::into_inner(t)),
        a => unary(alloc, Un::Neg, a),
    }
}

/// The constructor of `not(a)`.
pub fn complement(
    alloc: Global,
    a: PTerm,
    holes: &[u32],
    path: &mut Path,
) -> Result<PTerm, OutOfMemory>
    ensures { Makes holes.now result path.old path.new
        (make_not (exprs holes.now) same_hole_register (hole_tree_of a)) }
{
    match a {
        PTerm::Const(c) => Ok(PTerm::Const(folded_un(alloc, Un::Not, c)?)),
        PTerm::Un(Un::Not, t) => Ok(Box::into_inner(t)),
        a => unary(alloc, Un::Not, a),
    }
}

/// `(a op c)`, or `a` where c is 0.
pub fn unless_zero(
    alloc: Global,
    op: Bin,
    a: PTerm,
    c: CExpr,
    holes: &[u32],
    path: &mut Path,
) -> Result<PTerm, OutOfMemory>
    ensures { Makes holes.now result path.old path.new
        (plain (exprs holes.now) same_hole_register op (hole_tree_of a) (expr_of c)) }
{
    if is_zero(alloc, &c, holes, path)? {
        Ok(a)
    } else {
        binary(alloc, op, a, PTerm::Const(c))
    }
}

/// The constructor of `(a + c)`.
fn add_const(
    alloc: Global,
    a: PTerm,
    c: CExpr,
    holes: &[u32],
    path: &mut Path,
) -> Result<PTerm, OutOfMemory>
    ensures { Makes holes.now result path.old path.new
        (plus_const (exprs holes.now) same_hole_register (hole_tree_of a) (expr_of c)) }
{
    match a {
        PTerm::Const(d) => Ok(PTerm::Const(folded(alloc, Bin::Add, d, c)?)),
        PTerm::Bin(Bin::Add, t, u) => match Box::into_inner(u) {
            PTerm::Const(d) => {
                let e = folded(alloc, Bin::Add, d, c)?;
                unless_zero(alloc, Bin::Add, Box::into_inner(t), e, holes, path)
            }
            u => {
                let a = binary(alloc, Bin::Add, Box::into_inner(t), u)?;
                unless_zero(alloc, Bin::Add, a, c, holes, path)
            }
        },
        a => unless_zero(alloc, Bin::Add, a, c, holes, path),
    }
}

/// Whether two registers are one.
fn is_same(r: PReg, s: PReg) -> bool
    ensures { result ≡ hole_register_eq r s }
{
    r == s
}

/// The constructor of `(c - b)`, where b is no constant.
fn subtract_from(
    alloc: Global,
    c: CExpr,
    b: PTerm,
    holes: &[u32],
    path: &mut Path,
) -> Result<PTerm, OutOfMemory>
    ensures { Makes holes.now result path.old path.new
        (minus_from (exprs holes.now) same_hole_register (expr_of c) (hole_tree_of b)) }
{
    if is_zero(alloc, &c, holes, path)? {
        negate(alloc, b, holes, path)
    } else {
        binary(alloc, Bin::Sub, PTerm::Const(c), b)
    }
}

/// The constructor of `(a - b)`.
pub fn subtract(
    alloc: Global,
    a: PTerm,
    b: PTerm,
    holes: &[u32],
    path: &mut Path,
) -> Result<PTerm, OutOfMemory>
    ensures { Makes holes.now result path.old path.new
        (make_minus (exprs holes.now) same_hole_register (hole_tree_of a) (hole_tree_of b)) }
{
    match b {
        PTerm::Const(d) => match a {
            PTerm::Const(c) => Ok(PTerm::Const(folded(alloc, Bin::Sub, c, d)?)),
            a => {
                let e = folded_un(alloc, Un::Neg, d)?;
                add_const(alloc, a, e, holes, path)
            }
        },
        PTerm::Reg(s) => match a {
            PTerm::Const(c) => subtract_from(alloc, c, PTerm::Reg(s), holes, path),
            PTerm::Reg(r) => {
                if is_same(r, s) {
                    Ok(PTerm::Const(CExpr::Num(0)))
                } else {
                    binary(alloc, Bin::Sub, PTerm::Reg(r), PTerm::Reg(s))
                }
            }
            a => binary(alloc, Bin::Sub, a, PTerm::Reg(s)),
        },
        b => match a {
            PTerm::Const(c) => subtract_from(alloc, c, b, holes, path),
            a => binary(alloc, Bin::Sub, a, b),
        },
    }
}

/// The constructor of `(a + b)`, where a is neither a constant nor `(t + c)`.
#[tactic(auto, using(crate::proofs::Paths::extended_append))]
fn add_right(
    alloc: Global,
    a: PTerm,
    b: PTerm,
    holes: &[u32],
    path: &mut Path,
) -> Result<PTerm, OutOfMemory>
    ensures { Makes holes.now result path.old path.new
        (plus_right (exprs holes.now) same_hole_register (hole_tree_of a) (hole_tree_of b)) }
{
    match b {
        PTerm::Const(c) => add_const(alloc, a, c, holes, path),
        PTerm::Bin(Bin::Add, u, v) => match Box::into_inner(v) {
            PTerm::Const(d) => {
                let s = add_right(alloc, a, Box::into_inner(u), holes, path)?;
                add_const(alloc, s, d, holes, path)
            }
            v => {
                let b = binary(alloc, Bin::Add, Box::into_inner(u), v)?;
                binary(alloc, Bin::Add, a, b)
            }
        },
        PTerm::Un(Un::Neg, u) => subtract(alloc, a, Box::into_inner(u), holes, path),
        b => binary(alloc, Bin::Add, a, b),
    }
}

/// The constructor of `(c + b)`.
fn add_from(
    alloc: Global,
    c: CExpr,
    b: PTerm,
    holes: &[u32],
    path: &mut Path,
) -> Result<PTerm, OutOfMemory>
    ensures { Makes holes.now result path.old path.new
        (plus_from (exprs holes.now) same_hole_register (expr_of c) (hole_tree_of b)) }
{
    match b {
        PTerm::Const(d) => Ok(PTerm::Const(folded(alloc, Bin::Add, c, d)?)),
        b => add_const(alloc, b, c, holes, path),
    }
}

/// The constructor of `(a + b)`, one operand at a time.
#[tactic(auto, using(crate::proofs::Paths::extended_append))]
fn add_staged(
    alloc: Global,
    a: PTerm,
    b: PTerm,
    holes: &[u32],
    path: &mut Path,
) -> Result<PTerm, OutOfMemory>
    ensures { Makes holes.now result path.old path.new
        (plus_staged (exprs holes.now) same_hole_register (hole_tree_of a) (hole_tree_of b)) }
{
    match a {
        PTerm::Const(c) => add_from(alloc, c, b, holes, path),
        PTerm::Bin(Bin::Add, t, u) => match Box::into_inner(u) {
            PTerm::Const(c) => match b {
                PTerm::Const(d) => {
                    let a = binary(alloc, Bin::Add, Box::into_inner(t), PTerm::Const(c))?;
                    add_const(alloc, a, d, holes, path)
                }
                PTerm::Bin(Bin::Add, x, y) => match Box::into_inner(y) {
                    PTerm::Const(d) => {
                        let s = add_staged(
                            alloc,
                            Box::into_inner(t),
                            Box::into_inner(x),
                            holes,
                            path,
                        )?;
                        let e = folded(alloc, Bin::Add, c, d)?;
                        add_const(alloc, s, e, holes, path)
                    }
                    y => {
                        let b = binary(alloc, Bin::Add, Box::into_inner(x), y)?;
                        let s = add_staged(alloc, Box::into_inner(t), b, holes, path)?;
                        add_const(alloc, s, c, holes, path)
                    }
                },
                b => {
                    let s = add_staged(alloc, Box::into_inner(t), b, holes, path)?;
                    add_const(alloc, s, c, holes, path)
                }
            },
            u => {
                let a = binary(alloc, Bin::Add, Box::into_inner(t), u)?;
                add_right(alloc, a, b, holes, path)
            }
        },
        a => add_right(alloc, a, b, holes, path),
    }
}

/// The constructor of `(a + b)`.
pub fn add(
    alloc: Global,
    a: PTerm,
    b: PTerm,
    holes: &[u32],
    path: &mut Path,
) -> Result<PTerm, OutOfMemory>
    ensures { Makes holes.now result path.old path.new
        (make_plus (exprs holes.now) same_hole_register (hole_tree_of a) (hole_tree_of b)) }
{
    let r = add_staged(alloc, a, b, holes, path)?;
    Ok(r)
}
