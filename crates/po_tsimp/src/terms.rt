//! Whole terms: the operands first, left before right, and then the operator's constructor.
ghost use Rattle.std.specs.Prelude.{◌≡◌, IfOk};
ghost use Rattle.po_term.specs.Kinds.{exprs};
ghost use Rattle.po_term.specs.Simplified.{simple};
ghost use Rattle.po_model.specs.Holed.{hole_tree_of};
ghost use Rattle.po_model.specs.Generalised.{same_hole_register};
ghost use Rattle.po_tsimp.specs.Made.{Makes};

use crate::Path;
use crate::make::{binary_made, unary_made};
use po_model::{PTerm, Values};
use po_word::OutOfMemory;
use std::alloc::Global;

/// The term simplified. It recurses as deep as the term.
#[tactic(auto, using(crate::proofs::Paths::extended_append, crate::proofs::Paths::extended_nothing))]
pub fn simplified(
    alloc: Global,
    t: PTerm,
    holes: &[u32],
    path: &mut Path,
) -> Result<PTerm, OutOfMemory>
    ensures { Makes holes.now result path.old path.new (simple (exprs holes.now) same_hole_register (hole_tree_of t)) }
{
    match t {
        PTerm::Const(c) => Ok(PTerm::Const(c)),
        PTerm::Reg(r) => Ok(PTerm::Reg(r)),
        PTerm::Addr(s) => Ok(PTerm::Addr(s)),
        PTerm::Mem(x) => {
            let x = simplified(alloc, Box::into_inner(x), holes, path)?;
            Ok(PTerm::Mem(Box::new(alloc, x)?))
        }
        PTerm::Un(op, x) => {
            let x = simplified(alloc, Box::into_inner(x), holes, path)?;
            unary_made(alloc, op, x, holes, path)
        }
        PTerm::Bin(op, left, right) => {
            let left = simplified(alloc, Box::into_inner(left), holes, path)?;
            let right = simplified(alloc, Box::into_inner(right), holes, path)?;
            binary_made(alloc, op, left, right, holes, path)
        }
    }
}

/// The term simplified (docs/RULES.md). It recurses as deep as the term.
pub fn simplify_p(
    alloc: Global,
    t: PTerm,
    v: &Values,
    path: &mut Path,
) -> Result<PTerm, OutOfMemory>
    ensures { Makes v.now.consts.items result path.old path.new
        (simple (exprs v.now.consts.items) same_hole_register (hole_tree_of t)) }
{
    simplified(alloc, t, &v.consts, path)
}
