//! The constructors of `*`, `&`, `|`, `^` and the shifts: what each makes of operands that are simplified.
ghost use Rattle.std.specs.Prelude.{◌≡◌, IfOk};
ghost use Rattle.po_word.specs.Views.{expr_of};
ghost use Rattle.po_term.specs.Kinds.{exprs};
ghost use Rattle.po_term.specs.Simplified.{times_plain, times_const, and_plain, and_const, or_const, xor_const};
ghost use Rattle.po_term.specs.Simplified.{make_swapped, make_shift};
ghost use Rattle.po_simplify.specs.Staged.{onto_const};
ghost use Rattle.po_model.specs.Holed.{hole_tree_of};
ghost use Rattle.po_model.specs.Generalised.{same_hole_register};
ghost use Rattle.po_tsimp.specs.Made.{Makes};

use crate::Path;
use crate::parts::{binary, folded, folded_log2};
use crate::path::{is_one, is_ones, is_power, is_zero};
use crate::sums::unless_zero;
use po_model::PTerm;
use po_word::{Bin, CExpr, OutOfMemory};
use std::alloc::Global;

/// `(a * c)` where a holds no constant factor: 0, `a`, a shift or a product.
fn scaled(
    alloc: Global,
    a: PTerm,
    c: CExpr,
    holes: &[u32],
    path: &mut Path,
) -> Result<PTerm, OutOfMemory>
    ensures { Makes holes.now result path.old path.new
        (times_plain (exprs holes.now) same_hole_register (hole_tree_of a) (expr_of c)) }
{
    if is_zero(alloc, &c, holes, path)? {
        Ok(PTerm::Const(CExpr::Num(0)))
    } else if is_one(alloc, &c, holes, path)? {
        Ok(a)
    } else if is_power(alloc, &c, holes, path)? {
        let places = folded_log2(alloc, c)?;
        binary(alloc, Bin::Shl, a, PTerm::Const(places))
    } else {
        binary(alloc, Bin::Mul, a, PTerm::Const(c))
    }
}

/// `(a & c)` where a holds no constant mask: 0, `a` or a conjunction.
fn masked(
    alloc: Global,
    a: PTerm,
    c: CExpr,
    holes: &[u32],
    path: &mut Path,
) -> Result<PTerm, OutOfMemory>
    ensures { Makes holes.now result path.old path.new
        (and_plain (exprs holes.now) same_hole_register (hole_tree_of a) (expr_of c)) }
{
    if is_zero(alloc, &c, holes, path)? {
        Ok(PTerm::Const(CExpr::Num(0)))
    } else if is_ones(alloc, &c, holes, path)? {
        Ok(a)
    } else {
        binary(alloc, Bin::And, a, PTerm::Const(c))
    }
}

/// The constructor of `(a * c)`.
fn multiply_const(
    alloc: Global,
    a: PTerm,
    c: CExpr,
    holes: &[u32],
    path: &mut Path,
) -> Result<PTerm, OutOfMemory>
    ensures { Makes holes.now result path.old path.new
        (times_const (exprs holes.now) same_hole_register (hole_tree_of a) (expr_of c)) }
{
    match a {
        PTerm::Const(d) => Ok(PTerm::Const(folded(alloc, Bin::Mul, d, c)?)),
        PTerm::Bin(Bin::Mul, t, u) => match Box::into_inner(u) {
            PTerm::Const(d) => {
                let e = folded(alloc, Bin::Mul, d, c)?;
                multiply_const(alloc, Box::into_inner(t), e, holes, path)
            }
            u => {
                let a = binary(alloc, Bin::Mul, Box::into_inner(t), u)?;
                scaled(alloc, a, c, holes, path)
            }
        },
        a => scaled(alloc, a, c, holes, path),
    }
}

/// The constructor of `(a & c)`.
fn and_with_const(
    alloc: Global,
    a: PTerm,
    c: CExpr,
    holes: &[u32],
    path: &mut Path,
) -> Result<PTerm, OutOfMemory>
    ensures { Makes holes.now result path.old path.new
        (and_const (exprs holes.now) same_hole_register (hole_tree_of a) (expr_of c)) }
{
    match a {
        PTerm::Const(d) => Ok(PTerm::Const(folded(alloc, Bin::And, d, c)?)),
        PTerm::Bin(Bin::And, t, u) => match Box::into_inner(u) {
            PTerm::Const(d) => {
                let e = folded(alloc, Bin::And, d, c)?;
                and_with_const(alloc, Box::into_inner(t), e, holes, path)
            }
            u => {
                let a = binary(alloc, Bin::And, Box::into_inner(t), u)?;
                masked(alloc, a, c, holes, path)
            }
        },
        a => masked(alloc, a, c, holes, path),
    }
}

/// The constructor of `(a | c)`.
fn or_with_const(
    alloc: Global,
    a: PTerm,
    c: CExpr,
    holes: &[u32],
    path: &mut Path,
) -> Result<PTerm, OutOfMemory>
    ensures { Makes holes.now result path.old path.new
        (or_const (exprs holes.now) same_hole_register (hole_tree_of a) (expr_of c)) }
{
    match a {
        PTerm::Const(d) => Ok(PTerm::Const(folded(alloc, Bin::Or, d, c)?)),
        PTerm::Bin(Bin::Or, t, u) => match Box::into_inner(u) {
            PTerm::Const(d) => {
                let e = folded(alloc, Bin::Or, d, c)?;
                or_with_const(alloc, Box::into_inner(t), e, holes, path)
            }
            u => {
                let a = binary(alloc, Bin::Or, Box::into_inner(t), u)?;
                unless_zero(alloc, Bin::Or, a, c, holes, path)
            }
        },
        a => unless_zero(alloc, Bin::Or, a, c, holes, path),
    }
}

/// The constructor of `(a ^ c)`.
fn xor_with_const(
    alloc: Global,
    a: PTerm,
    c: CExpr,
    holes: &[u32],
    path: &mut Path,
) -> Result<PTerm, OutOfMemory>
    ensures { Makes holes.now result path.old path.new
        (xor_const (exprs holes.now) same_hole_register (hole_tree_of a) (expr_of c)) }
{
    match a {
        PTerm::Const(d) => Ok(PTerm::Const(folded(alloc, Bin::Xor, d, c)?)),
        PTerm::Bin(Bin::Xor, t, u) => match Box::into_inner(u) {
            PTerm::Const(d) => {
                let e = folded(alloc, Bin::Xor, d, c)?;
                xor_with_const(alloc, Box::into_inner(t), e, holes, path)
            }
            u => {
                let a = binary(alloc, Bin::Xor, Box::into_inner(t), u)?;
                unless_zero(alloc, Bin::Xor, a, c, holes, path)
            }
        },
        a => unless_zero(alloc, Bin::Xor, a, c, holes, path),
    }
}

/// The constructor of `(a op c)`, for an operator that commutes.
fn with_const(
    alloc: Global,
    op: Bin,
    a: PTerm,
    c: CExpr,
    holes: &[u32],
    path: &mut Path,
) -> Result<PTerm, OutOfMemory>
    ensures { Makes holes.now result path.old path.new
        (onto_const (exprs holes.now) same_hole_register op (hole_tree_of a) (expr_of c)) }
{
    match op {
        Bin::Mul => multiply_const(alloc, a, c, holes, path),
        Bin::And => and_with_const(alloc, a, c, holes, path),
        Bin::Or => or_with_const(alloc, a, c, holes, path),
        Bin::Xor => xor_with_const(alloc, a, c, holes, path),
        op => unless_zero(alloc, op, a, c, holes, path),
    }
}

/// The constructor of `(a op b)`, for `*`, `&`, `|` and `^`.
pub fn commuting(
    alloc: Global,
    op: Bin,
    a: PTerm,
    b: PTerm,
    holes: &[u32],
    path: &mut Path,
) -> Result<PTerm, OutOfMemory>
    ensures { Makes holes.now result path.old path.new
        (make_swapped (exprs holes.now) same_hole_register op (onto_const (exprs holes.now) same_hole_register op)
        (hole_tree_of a) (hole_tree_of b)) }
{
    match b {
        PTerm::Const(d) => match a {
            PTerm::Const(c) => Ok(PTerm::Const(folded(alloc, op, c, d)?)),
            a => with_const(alloc, op, a, d, holes, path),
        },
        b => match a {
            PTerm::Const(c) => with_const(alloc, op, b, c, holes, path),
            a => binary(alloc, op, a, b),
        },
    }
}

/// The constructor of `(a op b)`, for the shifts.
pub fn shift(
    alloc: Global,
    op: Bin,
    a: PTerm,
    b: PTerm,
    holes: &[u32],
    path: &mut Path,
) -> Result<PTerm, OutOfMemory>
    ensures { Makes holes.now result path.old path.new
        (make_shift (exprs holes.now) same_hole_register op (hole_tree_of a) (hole_tree_of b)) }
{
    match b {
        PTerm::Const(d) => match a {
            PTerm::Const(c) => Ok(PTerm::Const(folded(alloc, op, c, d)?)),
            a => unless_zero(alloc, op, a, d, holes, path),
        },
        b => binary(alloc, op, a, b),
    }
}
