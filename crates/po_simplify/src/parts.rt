//! Terms put together from parts.
ghost use Rattle.std.specs.Prelude.{◌≡◌, IfOk};
ghost use Rattle.po_term.specs.Tree.{Unary, Binary};
ghost use Rattle.po_term.specs.Terms.{tree_of};

use po_term::Term;
use po_word::{Bin, OutOfMemory, Un};
use std::alloc::Global;

/// A term in a box of its own.
pub fn boxed(alloc: Global, t: Term) -> Result<Box<Term>, OutOfMemory>
    ensures { IfOk result (λ b. b.value ≡ t) }
{
    match Box::new(alloc, t) {
        Ok(b) => Ok(b),
        Err(_) => Err(OutOfMemory),
    }
}

/// `neg(a)` or `not(a)`, as it stands.
pub fn unary(alloc: Global, op: Un, a: Term) -> Result<Term, OutOfMemory>
    ensures { IfOk result (λ r. tree_of r ≡ Unary op (tree_of a)) }
{
    Ok(Term::Un(op, boxed(alloc, a)?))
}

/// `(a op b)`, as it stands.
pub fn binary(alloc: Global, op: Bin, a: Term, b: Term) -> Result<Term, OutOfMemory>
    ensures { IfOk result (λ r. tree_of r ≡ Binary op (tree_of a) (tree_of b)) }
{
    Ok(Term::Bin(op, boxed(alloc, a)?, boxed(alloc, b)?))
}
