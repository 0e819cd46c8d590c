//! The constructors, chosen by operator.
ghost use Rattle.std.specs.Prelude.{◌≡◌, IfOk};
ghost use Rattle.po_term.specs.Kinds.{exprs};
ghost use Rattle.po_term.specs.Simplified.{unary_of, binary_of};
ghost use Rattle.po_model.specs.Holed.{hole_tree_of};
ghost use Rattle.po_model.specs.Generalised.{same_hole_register};
ghost use Rattle.po_tsimp.specs.Made.{Makes};

use crate::Path;
use crate::products::{commuting, shift};
use crate::sums::{add, complement, negate, subtract};
use po_model::{PTerm, Values};
use po_word::{Bin, OutOfMemory, Un};
use std::alloc::Global;

/// What the operator's constructor makes of a simplified operand.
pub fn unary_made(
    alloc: Global,
    op: Un,
    a: PTerm,
    holes: &[u32],
    path: &mut Path,
) -> Result<PTerm, OutOfMemory>
    ensures { Makes holes.now result path.old path.new
        (unary_of (exprs holes.now) same_hole_register op (hole_tree_of a)) }
{
    match op {
        Un::Neg => negate(alloc, a, holes, path),
        Un::Not => complement(alloc, a, holes, path),
    }
}

/// What the operator's constructor makes of two simplified operands.
pub fn binary_made(
    alloc: Global,
    op: Bin,
    a: PTerm,
    b: PTerm,
    holes: &[u32],
    path: &mut Path,
) -> Result<PTerm, OutOfMemory>
    ensures { Makes holes.now result path.old path.new
        (binary_of (exprs holes.now) same_hole_register op (hole_tree_of a) (hole_tree_of b)) }
{
    match op {
        Bin::Add => add(alloc, a, b, holes, path),
        Bin::Sub => subtract(alloc, a, b, holes, path),
        Bin::Mul => commuting(alloc, Bin::Mul, a, b, holes, path),
        Bin::And => commuting(alloc, Bin::And, a, b, holes, path),
        Bin::Or => commuting(alloc, Bin::Or, a, b, holes, path),
        Bin::Xor => commuting(alloc, Bin::Xor, a, b, holes, path),
        Bin::Shl => shift(alloc, Bin::Shl, a, b, holes, path),
        Bin::Sar => shift(alloc, Bin::Sar, a, b, holes, path),
        Bin::Shr => shift(alloc, Bin::Shr, a, b, holes, path),
    }
}

/// The simplified term of an operator and its operand, which is simplified already (docs/RULES.md).
pub fn make_un_p(
    alloc: Global,
    op: Un,
    a: PTerm,
    v: &Values,
    path: &mut Path,
) -> Result<PTerm, OutOfMemory>
    ensures { Makes v.now.consts.items result path.old path.new
        (unary_of (exprs v.now.consts.items) same_hole_register op (hole_tree_of a)) }
{
    unary_made(alloc, op, a, &v.consts, path)
}

/// The simplified term of an operator and its operands, which are simplified already (docs/RULES.md).
pub fn make_bin_p(
    alloc: Global,
    op: Bin,
    a: PTerm,
    b: PTerm,
    v: &Values,
    path: &mut Path,
) -> Result<PTerm, OutOfMemory>
    ensures { Makes v.now.consts.items result path.old path.new
        (binary_of (exprs v.now.consts.items) same_hole_register op (hole_tree_of a) (hole_tree_of b)) }
{
    binary_made(alloc, op, a, b, &v.consts, path)
}
