//! Terms and expressions put together from parts.
ghost use Rattle.std.specs.Prelude.{◌≡◌, IfOk};
ghost use Rattle.po_word.specs.Exprs.{UnOf, BinOf, Log2Of};
ghost use Rattle.po_word.specs.Views.{expr_of};
ghost use Rattle.po_term.specs.Tree.{Unary, Binary};
ghost use Rattle.po_model.specs.Holed.{hole_tree_of};

use po_model::PTerm;
use po_word::{Bin, CExpr, OutOfMemory, Un};
use std::alloc::Global;

/// `neg(c)` or `not(c)` of an expression.
pub fn folded_un(alloc: Global, op: Un, c: CExpr) -> Result<CExpr, OutOfMemory>
    ensures { IfOk result (λ e. expr_of e ≡ UnOf op (expr_of c)) }
{
    Ok(CExpr::Un(op, Box::new(alloc, c)?))
}

/// `(c op d)` of expressions.
pub fn folded(alloc: Global, op: Bin, c: CExpr, d: CExpr) -> Result<CExpr, OutOfMemory>
    ensures { IfOk result (λ e. expr_of e ≡ BinOf op (expr_of c) (expr_of d)) }
{
    Ok(CExpr::Bin(op, Box::new(alloc, c)?, Box::new(alloc, d)?))
}

/// `log2(c)` of an expression.
pub fn folded_log2(alloc: Global, c: CExpr) -> Result<CExpr, OutOfMemory>
    ensures { IfOk result (λ e. expr_of e ≡ Log2Of (expr_of c)) }
{
    Ok(CExpr::Log2(Box::new(alloc, c)?))
}

/// `neg(a)` or `not(a)`, as it stands.
pub fn unary(alloc: Global, op: Un, a: PTerm) -> Result<PTerm, OutOfMemory>
    ensures { IfOk result (λ r. hole_tree_of r ≡ Unary op (hole_tree_of a)) }
{
    Ok(PTerm::Un(op, Box::new(alloc, a)?))
}

/// `(a op b)`, as it stands.
pub fn binary(alloc: Global, op: Bin, a: PTerm, b: PTerm) -> Result<PTerm, OutOfMemory>
    ensures { IfOk result (λ r. hole_tree_of r ≡ Binary op (hole_tree_of a) (hole_tree_of b)) }
{
    Ok(PTerm::Bin(op, Box::new(alloc, a)?, Box::new(alloc, b)?))
}
